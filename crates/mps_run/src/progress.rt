// How far a run has come.

/// How far a run has come.
#[derive(Clone, Copy, Debug)]
pub struct Progress {
    /// The lines that were run.
    pub lines: u32,
    /// Whether the script has its arena, which its first command makes.
    pub has_arena: bool,
    /// The pools that were made.
    pub pools: u32,
}

impl Progress {
    ghost use Rattle.std.specs.Prelude.{◌≡◌};
    ghost use Rattle.mps_run.specs.Running.{not_begun};

    /// Before the first line.
    pub fn new() -> Progress
        ensures { result ≡ not_begun }
    {
        Progress {
            lines: 0,
            has_arena: false,
            pools: 0,
        }
    }
}
