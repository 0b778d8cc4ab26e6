//! What each command refuses, and in which order: tables of calls on one small world, each call with what it answers.
//! Each function is a theorem: its contract is the statement.
#![tactic(auto)]

ghost use Rattle.mps_refusal_examples.specs.Making.{ArenaAnswers, PoolsAnswer, RootsAnswer, PointsAnswer};
ghost use Rattle.mps_refusal_examples.specs.Allocating.{ReservationsAnswer, InitStores, ManualBlocksAnswer};
ghost use Rattle.mps_refusal_examples.specs.Accessing.{CellsAnswer, SlotsAnswer, AreasAnswer};
ghost use Rattle.mps_refusal_examples.specs.Labelling.{TagsAnswer, LabelsAnswer};
ghost use Rattle.mps_refusal_examples.specs.Dependents.{DependentsAnswer};
ghost use Rattle.mps_refusal_examples.specs.Transforms.{TransformsAnswer};
ghost use Rattle.mps_refusal_examples.specs.Caches.{CachesAnswer};
ghost use Rattle.mps_refusal_examples.specs.Frames.{FramesAnswer};
ghost use Rattle.mps_refusal_examples.specs.Collecting.{CollectionsAnswer, FinalizationAnswers, DependenciesAnswer};
ghost use Rattle.mps_refusal_examples.specs.Placing.{AreGapsByRank, AreBuffersByPoint};

/// `arena`, `limit` and `committed`.
pub fn arena_answers()
    ensures { ArenaAnswers }
{}

/// `chain` and the four forms of `pool`, if no place is left and if one is.
pub fn pools_answer()
    ensures { PoolsAnswer }
{}

/// `table`, `area` and `blocks`, if no root is left and if one is, and `droproot`.
pub fn roots_answer()
    ensures { RootsAnswer }
{}

/// `ap`, `dropap` and `ld`.
pub fn points_answer()
    ensures { PointsAnswer }
{}

/// `reserve`, both forms of `init`, and `commit`.
pub fn reservations_answer()
    ensures { ReservationsAnswer }
{}

/// What an accepted `init` stores: nothing into a reservation that a flip ended.
pub fn init_stores()
    ensures { InitStores }
{}

/// `alloc`, `free`, `load` and `store`.
pub fn manual_blocks_answer()
    ensures { ManualBlocksAnswer }
{}

/// `get`, `put`, `num` and `setnum`.
pub fn cells_answer()
    ensures { CellsAnswer }
{}

/// `copy`, `clear`, `same`, `null`, `head` and `addr`.
pub fn slots_answer()
    ensures { SlotsAnswer }
{}

/// `poke`, `peek`, `pin` and `take`.
pub fn areas_answer()
    ensures { AreasAnswer }
{}

/// `start`, `step`, `collect`, `clamp`, `park`, `release`, `live` and `dump`, at rest and while a collection runs.
pub fn collections_answer()
    ensures { CollectionsAnswer }
{}

/// `finalize`, `definalize` and `message`.
pub fn finalization_answers()
    ensures { FinalizationAnswers }
{}

/// `ldreset`, `ldadd`, `ldmerge` and `ldstale`.
pub fn dependencies_answer()
    ensures { DependenciesAnswer }
{}

/// Blocks of an AWL pool lie in the gaps of segments of their point's rank.
pub fn gaps_are_by_rank()
    ensures { AreGapsByRank }
{}

/// Blocks of an AMCZ pool lie in the buffer of their point.
pub fn buffers_are_by_point()
    ensures { AreBuffersByPoint }
{}

/// `settag` and `tag`.
pub fn tags_answer()
    ensures { TagsAnswer }
{}

/// `intern`, if no label is left and if one is, and `label`.
pub fn labels_answer()
    ensures { LabelsAnswer }
{}

/// `depend`, if no pair is left and if the holder has one already, and `undepend`.
pub fn dependents_answer()
    ensures { DependentsAnswer }
{}

/// `transform`, `transadd`, `transapply` and `transdrop`, in an arena that is parked and in one that isn't.
pub fn transforms_answer()
    ensures { TransformsAnswer }
{}

/// `cache`, also if no cache is left, `calloc`, `cfree` and `cflush`.
pub fn caches_answer()
    ensures { CachesAnswer }
{}

/// `pool P snc`, `push` and `pop`, also where no more pools or frames may be open; `free` and others, of a block of a pool of frames.
pub fn frames_answer()
    ensures { FramesAnswer }
{}
