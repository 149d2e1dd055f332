// What a preview answers.

// What a job comes to: its window, how many edges are free, and the doubles of work memory that it needs.
#[derive(Drop)]
pub struct Figures {
    pub window: usize,
    pub free: usize,
    pub room: usize,
}
