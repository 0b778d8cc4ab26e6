// The table of held runs: the entry of a grain is the length of the run that begins there, or 0 if none does.
#![tactic(auto)]

ghost use Rattle.std.specs.Prelude.{◌≡◌, ◌+◌, ◌<◌, ◌≤◌, None, Some, length, slice_index, slice_set, IfOk, IfErr, MatchResult};
ghost use Rattle.mps_base.specs.Run.{IsAscending, gaps, lowest_fitting, longest};
ghost use Rattle.mps_arena.specs.Grains.{runs_in};
ghost use Rattle.mps_arena.specs.Inside.{AreHeldBelow};
ghost use Rattle.mps_base.specs.Address.{max_grains};

/// A run of free grains.
#[derive(Clone, Copy)]
pub(crate) struct FreeRun {
    /// Where it begins.
    pub grain: u32,
    /// All grains below this one are held once the run is taken.
    pub held_below: u32,
}

/// Where the lowest run of `need` free grains begins. If no free run is that long, the length of the longest one. No grain below
/// `held_below` is looked at: they are held.
pub(crate) fn lowest_free(table: &[u32], held_below: u32, need: u32) -> Result<FreeRun, u32>
    requires nonzero { 0 < need }
    requires nonempty { 0 < length table.now }
    requires at_most { length table.now ≤ max_grains + 1 }
    requires ascending { IsAscending 1 (length table.now) (runs_in table.now) }
    requires held { AreHeldBelow table.now held_below }
    ensures value { MatchResult result
        (λ found. lowest_fitting need (gaps 1 (length table.now) (runs_in table.now)) ≡ Some found.grain)
        (λ _. lowest_fitting need (gaps 1 (length table.now) (runs_in table.now)) ≡ None) }
    ensures free { IfOk result (λ found. slice_index table.now found.grain ≡ 0) }
    ensures held { IfOk result (λ found. AreHeldBelow (slice_set table.now found.grain need) found.held_below) }
    ensures most { IfErr result (λ most. longest (gaps 1 (length table.now) (runs_in table.now)) ≡ most) }
{
    let end = table.len() as u32;
    let mut grain = held_below;
    let mut low = held_below;
    let mut most = 0;
    while grain < end {
        let count = table[grain as usize];
        if count == 0 {
            grain += 1;
            if grain - low >= need {
                let held_below = if most == 0 { grain } else { held_below };
                return Ok(FreeRun {
                    grain: low,
                    held_below,
                });
            }
        } else {
            most = most.max(grain - low);
            grain += count;
            low = grain;
        }
    }
    Err(most.max(grain - low))
}
