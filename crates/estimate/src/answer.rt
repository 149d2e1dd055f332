// What an estimate answers.

#[derive(Drop)]
pub struct MeanError {
    pub mean: f64,
    pub error: f64,
}

// Of a complete enumeration: nothing was sampled, so its error is +0.0. The spread is that over configurations.
#[derive(Drop)]
pub struct MeanSpread {
    pub mean: f64,
    pub error: f64,
    pub spread: f64,
}

// One sampled configuration has a mean and no error.
#[derive(Drop)]
pub enum Estimate {
    Estimated(MeanError),
    TooFew(f64),
    Complete(MeanSpread),
}
