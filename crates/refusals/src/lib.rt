// Why a call is refused: types and definitions only.
#![tactic(auto)]

ghost use Rattle.std.specs.Prelude.{◌≡◌};
ghost use Rattle.refusals.specs.Numbers.{number, refused};

/// Why a call is refused, each with the number that callers know it by. Of several reasons that fit, the first in checking order is returned.
#[derive(Clone, Copy, Debug, PartialEq, Eq)]
pub enum Refusal {
    /// The vertex count is 0 or above 1,024.
    VertexCount = 1,
    /// Lists of one kind differ in length, or there are over 4,096 edges, 256 pairs or 64 betas.
    ListLengths = 2,
    /// An edge has equal ends or an end outside the graph.
    EdgeEnds = 3,
    /// A magnitude or beta isn't finite, or its size is above 1,024.
    Magnitude = 4,
    /// Two kept edges join the same vertices.
    ParallelEdges = 5,
    /// The window is above 24.
    Window = 6,
    /// A vertex has over four back edges shorter than the window.
    BackEdges = 7,
    /// A pair has equal ends or an end outside the graph.
    PairEnds = 8,
    /// There are more free edges than a call goes through.
    FreeEdges = 9,
    /// The factor list has another length, or an entry isn't finite and above zero.
    Factors = 10,
    /// Chunks times samples per chunk exceed 2^32.
    Samples = 11,
    /// A result list isn't of its exact length, or is too short.
    Buffer = 12,
    /// The work memory is shorter than the room.
    WorkMemory = 13,
    /// Some pair's partition sum Z isn't finite and above zero.
    PartitionSum = 14,
    /// A strip side is 0, or the sides multiply above 1,024.
    StripSides = 15,
    /// A honeycomb cylinder has odd width.
    OddCylinder = 16,
    /// The chance to keep an edge isn't finite, or a magnitude bound isn't finite or its size is above 1,024.
    Dilution = 17,
    /// The count of configurations or the sums of powers cannot be those of a call.
    Sums = 18,
    /// A record of a job sheet is missing, cut short, of unknown kind or out of order.
    SheetRecord = 19,
    /// There are bytes after the end of a job sheet.
    SheetTail = 20,
    /// The betas don't rise strictly.
    Betas = 21,
    /// The window or the free edges exceed the tester's own limits.
    TesterLimit = 22,
    /// The couplings for house factors have another length, or one is off the grid.
    Couplings = 23,
    /// No edge is at that place.
    EdgePlace = 24,
    /// Lists of stored correlations cannot be shared out.
    Shares = 25,
    /// A run record isn't exactly as its format has it.
    Record = 26,
    /// Two run records don't join.
    Join = 27,
}

impl Refusal {
    /// Returns the number that callers know it by.
    pub fn number(self) -> usize
        ensures { result ≡ number self }
    {
        self as usize
    }
}

/// Returns the number of an answer's refusal, 0 for an accepted call's.
pub fn refused(answer: Result<(), Refusal>) -> usize
    ensures { result ≡ refused answer }
{
    match answer {
        Ok(()) => 0,
        Err(refusal) => refusal.number(),
    }
}
