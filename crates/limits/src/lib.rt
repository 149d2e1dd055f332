// The limits of a job, each said once: constants for code, and the definitions that contracts name; and the limits of a caller.
#![tactic(auto)]

ghost use Rattle.std.specs.Prelude.{◌≡◌};
ghost use Rattle.limits.specs.Callers.{over_limit};
ghost use Rattle.limits.specs.Limits.{stated};

// The most vertices and raw edges of a graph.
pub const VERTICES: usize = 1024;

pub const EDGES: usize = 4096;

// The most pairs and betas of a job.
pub const PAIRS: usize = 256;

pub const BETAS: usize = 64;

// The widest window.
pub const WINDOW: usize = 24;

// The most free edges where totals are counted, and where each correlation is stored.
pub const COUNTED: usize = 34;

pub const STORED: usize = 24;

// The tester's own limits: the widest window, and the most free edges.
pub const TESTER_WINDOW: usize = 12;

pub const TESTER_FREE: usize = 16;

// The most samples of all chunks: 2^32.
pub const SAMPLES: usize = 4294967296;

// The most samples of a chunk that a run record can name, in four bytes: 2^32 - 1.
pub const NAMED: usize = 4294967295;

// The numbers of a plan: twelve for each vertex.
pub const PLAN: usize = 12 * VERTICES;

// The most totals of a call: one for each beta and pair.
pub const SUMS: usize = BETAS * PAIRS;

// The most couplings of a call: one for each beta and edge.
pub const COUPLINGS: usize = BETAS * EDGES;

// As many pairs as a call copies: one more than a job may have.
pub const COPIED: usize = PAIRS + 1;

// The most lists of stored correlations that are shared out at once, and the most entries of each: 2^24.
pub const LISTS: usize = 256;

pub const ENTRIES: usize = 16777216;

// Those of the tester.
#[derive(Drop)]
pub struct TesterLimits {
    pub window: usize,
    pub free: usize,
}

// All limits.
#[derive(Drop)]
pub struct Limits {
    pub vertices: usize,
    pub edges: usize,
    pub pairs: usize,
    pub betas: usize,
    pub window: usize,
    pub counted: usize,
    pub stored: usize,
    pub testers: TesterLimits,
    pub samples: usize,
    pub named: usize,
    pub plan: usize,
    pub sums: usize,
    pub couplings: usize,
    pub copied: usize,
    pub lists: usize,
    pub entries: usize,
}

// Returns the constants, which are the numbers of the definitions.
pub fn all() -> Limits
    ensures { result ≡ stated }
{
    Limits {
        vertices: VERTICES,
        edges: EDGES,
        pairs: PAIRS,
        betas: BETAS,
        window: WINDOW,
        counted: COUNTED,
        stored: STORED,
        testers: TesterLimits {
            window: TESTER_WINDOW,
            free: TESTER_FREE,
        },
        samples: SAMPLES,
        named: NAMED,
        plan: PLAN,
        sums: SUMS,
        couplings: COUPLINGS,
        copied: COPIED,
        lists: LISTS,
        entries: ENTRIES,
    }
}

// Who calls: the sheet desk, which has the limits of a job, or the tester on the bench, which has limits of its own besides.
#[derive(Clone, Copy)]
pub enum Caller {
    Desk,
    Tester,
}

// Is a value above a limit that the tester alone has?
pub fn over_limit(caller: Caller, most: usize, value: usize) -> bool
    ensures { result ≡ over_limit caller most value }
{
    match caller {
        Caller::Desk => false,
        Caller::Tester => most < value,
    }
}
