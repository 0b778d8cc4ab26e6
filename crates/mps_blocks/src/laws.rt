// Laws of replaying a log.

ghost use Rattle.std.specs.Prelude.{◌≡◌, List, Some, All};
ghost use Rattle.std.specs.List.Sorted.{IsStrictlyIncreasing};
ghost use Rattle.std.specs.Option.{option_map};
ghost use Rattle.mps_base.specs.Record.{Record};
ghost use Rattle.mps_event.specs.declared.version.Version.TheVariants.{One};
ghost use Rattle.mps_event.specs.Grammar.{IsRecord};
ghost use Rattle.mps_model.specs.Replay.{replay};
ghost use Rattle.mps_blocks.specs.Listing.{addresses};
ghost use Rattle.mps_model.specs.Replayed.{State, replayed};

/// A log of version 1 records what happens to blocks alone: its records replay here to the blocks to which the model replays them, and
/// are bad replays here exactly where they are there.
pub fn version_one_records_blocks_alone()
    ensures { (records : List Record) → All (IsRecord One) records
        → option_map (λ (s : State). s.blocks) (replayed records) ≡ replay records }
{}

/// The blocks that live after some records stand in ascending order of their addresses: so they are listed in that order,
/// each once.
pub fn live_blocks_ascend()
    ensures { (records : List Record) (s : State) → replayed records ≡ Some s
        → IsStrictlyIncreasing (addresses s.blocks) }
{}
