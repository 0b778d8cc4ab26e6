//! Laws: what the tracing collector does to the words of an arena refines the abstract collector.
//! Each function is a theorem: its contract is the statement.
#![tactic(auto)]

ghost use Rattle.mps_trace_laws.specs.Fix.Finding.{AnObjectIsFound};
ghost use Rattle.mps_trace_laws.specs.Fix.Steps.{AFixIsAStep};
ghost use Rattle.mps_trace_laws.specs.Fix.Scanning.{AScanIsAScan};
ghost use Rattle.mps_trace_laws.specs.Barrier.Laws.{AnAccessIsABarrier, AnAccessCanBeDone, AReclaimNeedsNoBarrier};
ghost use Rattle.mps_trace_laws.specs.Reclaim.Laws.{AReclaimIsAUnit};
ghost use Rattle.mps_trace_laws.specs.Begin.Begun.{ACollectionBegins};
ghost use Rattle.mps_trace_laws.specs.Begin.MovesOfObjects.{RoomIsEnough};
ghost use Rattle.mps_trace_laws.specs.Splats.Laws.{ASplatScanIsAScan};
ghost use Rattle.mps_trace_laws.specs.Steps.Laws.{UnitsInWordsAreUnits, UnitsToTheEndAreUnits, UnitsInWordsRunOut, UnitsCanBeDone};
ghost use Rattle.mps_trace_laws.specs.Units.Examining.{ExaminationsAreUnits, PostsAreUnits};
ghost use Rattle.mps_trace_laws.specs.Summaries.Laws.{AFixKeepsSummaries, AScanKeepsSummaries, ASplatScanKeepsSummaries, ABeginKeepsSummaries, UnitsKeepSummaries, TheEndKeepsSummaries, AnAccessKeepsSummaries, WordsTellAtRest};
ghost use Rattle.mps_trace_laws.specs.Units.Left.{AFlipLeavesThese, NoCallLeavesMore, UnitsGoOnBelow};

/// What is found at an address that means an object is where it lies now, and nothing is found exactly if it is white.
pub fn an_object_is_found<F>()
    ensures { AnObjectIsFound F }
{}

/// What the collector does with an address that means an object is a step of the abstract collector, which fixes that object by the
/// same moves, and the state stands for it as before.
pub fn a_fix_is_a_step<F>()
    ensures { AFixIsAStep F }
{}

/// A scan of a block fixes what its object refers to, in the abstract collector, and the object is black then.
pub fn a_scan_is_a_scan<F>()
    ensures { AScanIsAScan F }
{}

/// What `access` does with a segment is the read barrier of the abstract collector there, also where weak blocks are scanned as such, and
/// can be done. Once a collection reclaims nothing is to be done.
pub fn an_access_is_a_barrier<F>()
    ensures barrier { AnAccessIsABarrier F }
    ensures ready { AnAccessCanBeDone F }
    ensures none_while_reclaiming { AReclaimNeedsNoBarrier }
{}

/// The reclaim of the next condemned segment is a unit of the abstract collector, and the segments stand for the world after it.
pub fn a_reclaim_is_a_unit()
    ensures { AReclaimIsAUnit }
{}

/// A collection that begins, of everything or of the generations of a chain, is the act of the model's flip, and the state stands for
/// the abstract collector before its first unit.
pub fn a_collection_begins<F>()
    ensures { ACollectionBegins F }
{}

/// The examination of a registration whose block is found is a unit of the abstract collector.
pub fn examinations_are_units<F>()
    ensures { ExaminationsAreUnits F }
{}

/// The examination of a registration whose block is white is one too: its object is kept and posted, by the moves of the trail.
pub fn posts_are_units<F>()
    ensures { PostsAreUnits F }
{}

/// The scan of a weak block is a sequence of splats of the abstract collector, by the moves of the trail, and its object is black then.
pub fn a_splat_scan_is_a_scan<F>()
    ensures { ASplatScanIsAScan F }
{}

/// Two moves for each word of an arena are enough for each live object: to be kept, to be posted, and to have its references
/// splatted.
pub fn room_is_enough()
    ensures { RoomIsEnough }
{}

/// N units, as `finish` does them, are n units of the abstract collector, and fewer than it has left, or those to its end. They can be
/// done.
pub fn a_step_is_units<F>()
    ensures goes_on { UnitsInWordsAreUnits F }
    ensures ended { UnitsToTheEndAreUnits F }
    ensures fewer { UnitsInWordsRunOut F }
    ensures ready { UnitsCanBeDone F }
{}

/// The units that are left only become fewer. Right after a flip there is at most one for each object that it condemned or remembers, for
/// each registration and for each condemned segment. No call of a client raises them, and a collection goes on after n units only if more
/// than n were left.
pub fn units_only_run_out()
    ensures flip { AFlipLeavesThese }
    ensures calls { NoCallLeavesMore }
    ensures below { UnitsGoOnBelow }
{}

/// By words, the summary of a segment has the zone of each reference of its blocks and reservations. A fix, a scan, the begin of a
/// collection, its units and the read barrier keep that. At rest it tells which objects a flip has to scan besides those that it
/// condemns.
pub fn summaries_are_kept<F>()
    ensures fix { AFixKeepsSummaries F }
    ensures scan { AScanKeepsSummaries F }
    ensures splat { ASplatScanKeepsSummaries F }
    ensures begin { ABeginKeepsSummaries F }
    ensures units { UnitsKeepSummaries F }
    ensures ended { TheEndKeepsSummaries F }
    ensures access { AnAccessKeepsSummaries F }
    ensures at_rest { WordsTellAtRest F }
{}
