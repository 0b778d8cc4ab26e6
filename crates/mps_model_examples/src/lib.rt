//! Histories that are legal, and histories that are not: what the definitions of `mps_model` accept and refuse. Each
//! function is a theorem: its contract is the statement.
#![tactic(auto)]

ghost use Rattle.mps_model_examples.specs.OneBlock.{OneBlockIsLegal};
ghost use Rattle.mps_model_examples.specs.Copying.{CopyingIsLegal, CopyingIsReplayed};
ghost use Rattle.mps_model_examples.specs.Flipped.{FlippedIsLegal};
ghost use Rattle.mps_model_examples.specs.Weak.{WeakIsLegal};
ghost use Rattle.mps_model_examples.specs.Finalized.{FinalizedIsLegal, PostsAreExact};
ghost use Rattle.mps_model_examples.specs.Incremental.{IncrementalIsLegal};
ghost use Rattle.mps_model_examples.specs.Staying.{StayingIsLegal};
ghost use Rattle.mps_model_examples.specs.Polled.{PolledIsLegal};
ghost use Rattle.mps_model_examples.specs.Pinned.{PinnedIsLegal};
ghost use Rattle.mps_model_examples.specs.Manual.{ManualIsLegal};
ghost use Rattle.mps_model_examples.specs.OneSize.{OneSizeIsLegal};
ghost use Rattle.mps_model_examples.specs.Reclaiming.{ReclaimingIsLegal};
ghost use Rattle.mps_model_examples.specs.Definalized.{DefinalizedIsLegal};
ghost use Rattle.mps_model_examples.specs.WeakReadEitherWay.{WeakReadEitherWayIsLegal};
ghost use Rattle.mps_model_examples.specs.FillingGaps.{FillingGapsIsLegal};
ghost use Rattle.mps_model_examples.specs.Depending.{DependingIsLegal};
ghost use Rattle.mps_model_examples.specs.CollectingInOrder.{CollectingInOrderIsLegal};
ghost use Rattle.mps_model_examples.specs.Generations.{GenerationsIsLegal};
ghost use Rattle.mps_model_examples.specs.PokedEitherWay.{PokedEitherWayIsLegal};
ghost use Rattle.mps_model_examples.specs.PostedInPlace.{PostedInPlaceIsLegal};
ghost use Rattle.mps_model_examples.specs.ReadingOn.{ReadingOnIsLegal};
ghost use Rattle.mps_model_examples.specs.Stepping.{SteppingIsLegal};
ghost use Rattle.mps_model_examples.specs.OtherCommands.{OtherCommandsIsLegal};
ghost use Rattle.mps_model_examples.specs.Labelled.{LabelledIsLegal, LabelledIsReplayed, OthersAreNoLabels, NoTagIsLost};
ghost use Rattle.mps_model_examples.specs.Dependent.{DependentIsLegal, NoValueIsLeft, NoPairOutlivesItsHolder};
ghost use Rattle.mps_model_examples.specs.Cached.{CachedIsLegal, NoOldWordComesBack, TheFirstCachedStays, NoFlushInOrder};
ghost use Rattle.mps_model_examples.specs.Framed.{FramedIsLegal, FrameSegmentsIsLegal, NoPopFreesOneMore, NoPopFreesOneLess, NoPopInOrder, NoPopKeepsASegment};
ghost use Rattle.mps_model_examples.specs.Transformed.{TransformedIsLegal, NoPinnedObjectIsReplaced, NoPairIsLeft, NoPairFollowsAnother};
ghost use Rattle.mps_model_examples.specs.WrongAnswers.{FlippedWithoutFlip, CommitAcrossFlip, LimitBesideGap, LimitBesideRun, StaleWithoutFlip, FreshAfterMove, GetOfOldPlace};
ghost use Rattle.mps_model_examples.specs.WrongMoves.{SplatOfReachable, TwoPostsForOne, MoveOfPinned, FreeOfWaiting, StayBesideRoom, MarkedInPlace, UnknownFree, MoveAfterSplat};
ghost use Rattle.mps_model_examples.specs.WrongUnits.{CollectWithoutMoves, StartDoesAll, TwoUnitsForOne, ReclaimedDownwards, WeakScannedAsExact, PollWhereClamped};
ghost use Rattle.mps_model_examples.specs.KeptReferences.{SplatOfKeptTarget, PostOfKeptTarget, FreeOfKeptTarget};
ghost use Rattle.mps_model_examples.specs.WholeCollections.{RegisteredWithoutPost, DeadBlockStays};
ghost use Rattle.mps_model_examples.specs.WhiteScan.{ScanOfWhite, BarrierOverWhite};
ghost use Rattle.mps_model_examples.specs.Placing.{PlacementsCompute};

/// The history of a script that commits one block and prints 7 is legal. The script: `arena 8 8; table t 4; pool p amc
/// front; ap x p exact; reserve x f:3:1; init x 2 7; commit x t.0; num t.0 2`.
pub fn one_block_is_legal()
    ensures { OneBlockIsLegal }
{}

/// The history of a script whose one block a collection copies is legal. The script: `arena 8 8; table t 4; pool p amc
/// front; ap x p exact; reserve x f:3:1; init x 2 7; commit x t.0; num t.0 2; addr t.0; collect; addr t.0; committed;
/// dump 0x2000`.
pub fn copying_is_legal()
    ensures { CopyingIsLegal }
{}

/// The log of that history has 256 bytes, and replaying it gives the live blocks.
pub fn copying_is_replayed()
    ensures { CopyingIsReplayed }
{}

/// A history in which a flip ended a reservation, so that `commit` answers `flipped`, is legal. The script: `arena 8 8;
/// table t 4; pool p amc front; ap x p exact; reserve x f:2:0; collect; init x 1 5; commit x t.0; commit x t.0;
/// committed`.
pub fn flipped_is_legal()
    ensures { FlippedIsLegal }
{}

/// A history in which the second collection splats a weak reference is legal. The script: `arena 8 8; table t 3; pool w
/// awl front; ap x w exact; ap y w weak; reserve x f:2:0; commit x t.0; reserve y f:2:1; init y 1 t.0; commit y t.1;
/// collect; get t.2 t.1 1; same t.2 t.0; clear t.2; clear t.0; collect; get t.2 t.1 1; null t.2`.
pub fn weak_is_legal()
    ensures { WeakIsLegal }
{}

/// A history in which a block that was registered twice is posted twice, and then freed, is legal. The script: `arena 8
/// 8; table t 4; pool p amc front; ap x p exact; reserve x f:2:0; commit x t.0; finalize t.0; finalize t.0; clear t.0;
/// collect; message t.0; message t.1; clear t.0; collect; message t.0; clear t.0; collect; message t.0; live`.
pub fn finalized_is_legal()
    ensures { FinalizedIsLegal }
{}

/// A history in which a collection goes on in pieces is legal: `start` moves the block in a slot, the read barrier of a
/// `get` moves the block that is read, and `step` scans both, gives the old segment back and ends. The script, beside
/// `get_of_old_place`: `arena 8 8; table t 4; pool p amc front; ap x p exact; reserve x f:3:1; commit x t.1; reserve x
/// f:3:1; init x 1 t.1; commit x t.0; clear t.1; start; get t.1 t.0 1; step 100; addr t.1`.
pub fn incremental_is_legal()
    ensures { IncrementalIsLegal }
{}

/// A history in which a block stays if there is no room is legal: the arena's one grain is held. The script, beside
/// `stay_beside_room`: `arena 1 1; table t 1; pool p amc leaf; ap x p exact; reserve x l:2; commit x t.0; collect; addr
/// t.0`.
pub fn staying_is_legal()
    ensures { StayingIsLegal }
{}

/// A history in which a `reserve` polls is legal: not while the arena is clamped, but once it is released, with the
/// flip of the generation that is due; and the next one polls the units that end that collection. The script, beside
/// `poll_where_clamped`: `arena 8 8; chain q 1; pool p amc leaf q; table t 1; ap x p exact; reserve x l:1024; commit x
/// t.0; clamp; reserve x l:2; commit x t.0; release; reserve x l:512; commit x t.0; reserve x l:2; committed`.
pub fn polled_is_legal()
    ensures { PolledIsLegal }
{}

/// A history in which an area word keeps a block alive and in place is legal: it lies in the block, and no slot holds
/// the block when it is collected. The script, beside `move_of_pinned`: `arena 8 8; table t 1; area a 1; pool p amc
/// leaf; ap x p exact; reserve x l:4; commit x t.0; poke a.0 0x1008; clear t.0; collect; peek a.0; take t.0 a.0; addr
/// t.0`.
pub fn pinned_is_legal()
    ensures { PinnedIsLegal }
{}

/// A history of manual blocks is legal: a segment is taken for a block that fits in no gap, and given back with its
/// last block; between, one block is refused by the commit limit and then for want of a run. The script: `arena 3 3;
/// pool v mvff; blocks b 4; alloc v 512 b.0; alloc v 512 b.1; alloc v 1024 b.2; free b.0; alloc v 1024 b.2; alloc v 2
/// b.2; alloc v 2 b.3; free b.2; store b.3 1 7; load b.3 1; live; limit 1`.
pub fn manual_is_legal()
    ensures { ManualIsLegal }
{}

/// A history in which each `step 1` reclaims one segment, the lower one first, and nothing while the arena is clamped,
/// is legal. The script, beside `two_units_for_one` and `reclaimed_downwards`: `arena 8 8; table t 1; pool p ams front;
/// pool q ams front; ap x p exact; ap y q exact; reserve x f:2:0; commit x t.0; reserve y f:2:0; commit y t.0; clear
/// t.0; start; step 1; clamp; step 1; release; step 1; live`.
pub fn reclaiming_is_legal()
    ensures { ReclaimingIsLegal }
{}

/// A history in which registrations are taken away, before a collection and while one runs, is legal: no message comes
/// of them, nor, in this collection, of one that was made after its flip. The script: `arena 8 8; table t 4; pool p amc
/// front; ap x p exact; reserve x f:2:0; commit x t.0; finalize t.0; definalize t.0; definalize t.0; finalize t.0;
/// start; definalize t.0; finalize t.0; clear t.0; step 100; message t.0`.
pub fn definalized_is_legal()
    ensures { DefinalizedIsLegal }
{}

/// Two histories are legal that differ in what the read barrier does at a weak reference, if nothing else leads to
/// its target: it moves the target, so that `null` answers `no`, or it splats the reference, so that it answers `yes`.
/// The script, beside `weak_scanned_as_exact`: `arena 8 8; table t 4; pool p amc front; ap x p exact; pool w awl front;
/// ap y w weak; reserve x f:2:0; commit x t.0; reserve y f:2:1; init y 1 t.0; commit y t.1; clear t.0; start; get t.0
/// t.1 1; null t.0; step 100`.
pub fn weak_read_either_way_is_legal()
    ensures { WeakReadEitherWayIsLegal }
{}

/// A history in which blocks fill gaps is legal: a `reserve` that fits in no gap is refused by the commit limit, a
/// smaller one isn't, and a freed block's place is used again. The script, beside `limit_beside_gap`: `arena 1 1; table
/// t 1; pool p lo leaf; ap x p exact; reserve x l:4; commit x t.0; reserve x l:509; reserve x l:4; commit x t.0;
/// collect; reserve x l:2; commit x t.0; addr t.0`.
pub fn filling_gaps_is_legal()
    ensures { FillingGapsIsLegal }
{}

/// A history of dependencies is legal: one is fresh before a flip of its zone and stale after it, and so is what it is
/// merged into, until it is reset. The script, beside `stale_without_flip` and `fresh_after_move`: `arena 8 8; table t
/// 4; pool p amc front; ap x p exact; reserve x f:3:1; init x 2 7; commit x t.0; num t.0 2; ld d; ldadd d t.0; ldstale
/// d; start; ldstale d; ld q; ldadd q t.0; ldstale q; ldmerge q d; ldstale q; ldreset q; ldstale q`.
pub fn depending_is_legal()
    ensures { DependingIsLegal }
{}

/// A history whose collection moves blocks, then splats a weak reference, and then gives back and frees, is legal. The
/// script, beside `move_after_splat` and `marked_in_place`: `arena 8 8; table t 4; pool p amc front; ap x p exact;
/// reserve x f:3:1; commit x t.1; reserve x f:3:1; init x 1 t.1; commit x t.0; clear t.1; pool w awl front; ap y w
/// weak; reserve y f:2:0; commit y t.1; reserve y f:2:1; init y 1 t.1; commit y t.2; clear t.1; collect; live`.
pub fn collecting_in_order_is_legal()
    ensures { CollectingInOrderIsLegal }
{}

/// A history of a chain of two generations is legal: a block moves to the second and then within it, a flip that
/// condemns nothing ends at once, `park` ends a collection, and `collect` ends one and does another. The script: `arena
/// 8 8; chain q 1 1; pool p amc leaf q; table t 1; ap x p exact; reserve x l:2; commit x t.0; start q 0; start; park;
/// start q 0; start q 2; start q 1; collect; addr t.0`.
pub fn generations_is_legal()
    ensures { GenerationsIsLegal }
{}

/// Two histories are legal that differ in what `poke` answers, at a block of a marking pool to which something led at
/// the flip and nothing does any more: `block`, and it is kept, or `number`, and it is freed. The script: `arena 8 8;
/// table t 2; area a 1; pool p ams front; ap x p exact; reserve x f:3:1; commit x t.1; reserve x f:3:1; init x 1 t.1;
/// commit x t.0; clear t.1; start; put t.0 1 t.1; poke a.0 0x1000; step 100; live`.
pub fn poked_either_way_is_legal()
    ensures { PokedEitherWayIsLegal }
{}

/// A history in which a registered block of a marking pool is posted where it lies is legal. The script: `arena 8 8;
/// table t 2; pool p ams front; ap x p exact; reserve x f:2:0; commit x t.0; finalize t.0; clear t.0; collect; message
/// t.0; message t.1; addr t.0`.
pub fn posted_in_place_is_legal()
    ensures { PostedInPlaceIsLegal }
{}

/// A history in which the read barrier of one `get` moves two blocks is legal: the one that is read, and the one that
/// this one refers to, since it moved into the segment that is scanned. The script: `arena 8 8; table t 4; pool p amc
/// front; ap x p exact; reserve x f:3:1; commit x t.1; reserve x f:3:1; init x 1 t.1; commit x t.1; reserve x f:3:1;
/// init x 1 t.1; commit x t.0; clear t.1; start; get t.1 t.0 1; get t.1 t.1 1; addr t.1`.
pub fn reading_on_is_legal()
    ensures { ReadingOnIsLegal }
{}

/// A history of other commands is legal: they read and write objects, areas and slots, and drop an area and a point.
/// The script, with a last line that is in no form that is built: `arena 8 4; limit 8; table t 2; area a 2; pool p amc
/// mapped; ap x p exact; reserve x m:4:2; commit x t.0; setnum t.0 2 5; put t.0 1 t.0; copy t.1 t.0; same t.1 t.0; head
/// t.1; dump 0x1000; pin a.0 t.1; poke a.1 0x5; peek a.1; droproot a; dropap x; clear t.1; get t.1 t.1 1; later`.
pub fn other_commands_is_legal()
    ensures { OtherCommandsIsLegal }
{}

/// A history of manual blocks of one size is legal: a freed block's place is used again, and its segment stays. The
/// script: `arena 8 8; pool v mfs 2; blocks b 2; alloc v 2 b.0; free b.0; alloc v 2 b.1; alloc v 3 b.0; committed`.
pub fn one_size_is_legal()
    ensures { OneSizeIsLegal }
{}

/// A history in which each `step 1` takes one unit, and the collection as many as it may, is legal: three units scan three
/// blocks, of which two are moved so, and the fourth gives the old segment back and ends. The script: `arena 8 8; table t
/// 4; pool p amc front; ap x p exact; reserve x f:3:1; commit x t.1; reserve x f:3:1; init x 1 t.1; commit x t.1; reserve
/// x f:3:1; init x 1 t.1; commit x t.0; clear t.1; start; step 1; step 1; step 1; step 1`.
pub fn stepping_is_legal()
    ensures { SteppingIsLegal }
{}

/// `commit` can't answer `flipped` if no flip came.
pub fn flipped_without_flip()
    ensures { FlippedWithoutFlip }
{}

/// `commit` can't answer `ok` across a flip.
pub fn commit_across_flip()
    ensures { CommitAcrossFlip }
{}

/// `reserve` isn't refused by the commit limit while a gap fits.
pub fn limit_beside_gap()
    ensures { LimitBesideGap }
{}

/// `reserve` isn't refused while a run fits within the limit.
pub fn limit_beside_run()
    ensures { LimitBesideRun }
{}

/// `ldstale` can't always answer `yes`.
pub fn stale_without_flip()
    ensures { StaleWithoutFlip }
{}

/// `ldstale` can't always answer `no`.
pub fn fresh_after_move()
    ensures { FreshAfterMove }
{}

/// `get` can't hand out a block at its old place.
pub fn get_of_old_place()
    ensures { GetOfOldPlace }
{}

/// A weak reference isn't splatted while its target is in a slot.
pub fn splat_of_reachable()
    ensures { SplatOfReachable }
{}

/// One registration gives one message.
pub fn two_posts_for_one()
    ensures { TwoPostsForOne }
{}

/// A block in which an area word lies isn't moved.
pub fn move_of_pinned()
    ensures { MoveOfPinned }
{}

/// A block that only a waiting message holds isn't freed.
pub fn free_of_waiting()
    ensures { FreeOfWaiting }
{}

/// A block doesn't stay if there is room for it.
pub fn stay_beside_room()
    ensures { StayBesideRoom }
{}

/// A block of a copying pool isn't marked where it lies.
pub fn marked_in_place()
    ensures { MarkedInPlace }
{}

/// A collection logs each block that it frees.
pub fn unknown_free()
    ensures { UnknownFree }
{}

/// No block is moved after a splat.
pub fn move_after_splat()
    ensures { MoveAfterSplat }
{}

/// `collect` collects.
pub fn collect_without_moves()
    ensures { CollectWithoutMoves }
{}

/// `start` begins a collection, and doesn't do the whole of it.
pub fn start_does_all()
    ensures { StartDoesAll }
{}

/// If one unit is asked, two segments aren't reclaimed.
pub fn two_units_for_one()
    ensures { TwoUnitsForOne }
{}

/// Segments aren't reclaimed in descending order.
pub fn reclaimed_downwards()
    ensures { ReclaimedDownwards }
{}

/// A unit scans no weak object as an exact one.
pub fn weak_scanned_as_exact()
    ensures { WeakScannedAsExact }
{}

/// A clamped arena polls nothing.
pub fn poll_where_clamped()
    ensures { PollWhereClamped }
{}

/// A weak reference isn't splatted while an object that a collection is known to keep refers to its target: here an
/// object in which an area word lies. The script, beside the two after it: `arena 8 8; table t 3; pool p ams front; ap x
/// p exact; reserve x f:2:0; commit x t.0; pool w awl front; ap y w weak; reserve y f:2:1; init y 1 t.0; commit y t.1;
/// area a 1; poke a.0 0x3000; pool q amc front; ap v q exact; reserve v f:2:1; init v 1 t.0; commit v t.2; clear t.2;
/// clear t.0; collect`.
pub fn splat_of_kept_target()
    ensures { SplatOfKeptTarget }
{}

/// No message is posted for a registered block while an object that a collection is known to keep refers to it.
pub fn post_of_kept_target()
    ensures { PostOfKeptTarget }
{}

/// A block isn't freed while an object that a collection is known to keep refers to it.
pub fn free_of_kept_target()
    ensures { FreeOfKeptTarget }
{}

/// A whole collection posts a message for a registered block to which a weak reference alone leads. The script: `arena 8
/// 8; table t 3; pool p ams front; ap x p exact; reserve x f:2:0; commit x t.0; pool w awl front; ap y w weak; reserve y
/// f:2:1; init y 1 t.0; commit y t.1; finalize t.0; clear t.0; collect`.
pub fn registered_without_post()
    ensures { RegisteredWithoutPost }
{}

/// A whole collection frees that block if it isn't registered.
pub fn dead_block_stays()
    ensures { DeadBlockStays }
{}

/// A unit doesn't scan a block of a copying pool that nothing keeps. The script: `arena 8 8; table t 4; pool p amc front;
/// ap x p exact; reserve x f:2:0; commit x t.0; reserve x f:2:1; init x 1 t.0; commit x t.0; pool w awl front; ap y w
/// weak; reserve y f:2:1; init y 1 t.0; commit y t.1; clear t.0; start; step 1`.
pub fn scan_of_white()
    ensures { ScanOfWhite }
{}

/// Nor does a read barrier. The same script, with `reserve x f:2:1; commit x t.0; area a 1; pin a.0 t.0; start; get t.2
/// t.0 1` in place of its last two lines.
pub fn barrier_over_white()
    ensures { BarrierOverWhite }
{}

/// Where blocks are placed, in a few worlds.
pub fn placements_compute()
    ensures { PlacementsCompute }
{}

/// A whole collection posts a block that was registered twice once.
pub fn posts_are_exact()
    ensures { PostsAreExact }
{}

/// A history in which a reference is tagged and an object is labelled is legal. The script: `arena 8 8; table t 4; pool p amc front; ap x p
/// exact; reserve x f:3:1; commit x t.0; put t.0 1 t.0; tag t.0 1; settag t.0 1 5; tag t.0 1; settag t.0 1 9; tag t.0 1; tag t.0 2; get t.1
/// t.0 1; intern b; intern d; label t.0 b; label t.2 b; label t.0 t; table b 1`.
pub fn labelled_is_legal()
    ensures { LabelledIsLegal }
{}

/// Its log of version 2 replays to the object and two interned names.
pub fn labelled_is_replayed()
    ensures { LabelledIsReplayed }
{}

/// An `intern` doesn't answer another number than that of the labels before it, nor a `label` another number or place than its own.
pub fn others_are_no_labels()
    ensures { OthersAreNoLabels }
{}

/// A reference that is splatted keeps its tag.
pub fn no_tag_is_lost()
    ensures { NoTagIsLost }
{}

/// A history in which a splat clears the reference of a dependent too is legal. The script: `arena 8 8; table t 3; pool w awl front; ap x w
/// exact; ap y w weak; reserve x f:2:0; commit x t.0; reserve x f:2:1; commit x t.2; put t.2 1 t.2; reserve y f:2:1; init y 1 t.0; commit y
/// t.1; depend t.1 t.2; clear t.0; collect; get t.0 t.2 1; null t.0; undepend t.1; undepend t.1; depend t.2 t.1`.
pub fn dependent_is_legal()
    ensures { DependentIsLegal }
{}

/// The splat doesn't leave the reference of the dependent.
pub fn no_value_is_left()
    ensures { NoValueIsLeft }
{}

/// A new object at the address of a freed one doesn't have its dependent.
pub fn no_pair_outlives_its_holder()
    ensures { NoPairOutlivesItsHolder }
{}

/// A history in which references to an object are replaced by references to another is legal. The script: `arena 8 8; table t 4; area a 1;
/// pool p ams front; ap x p exact; reserve x f:2:1; commit x t.0; reserve x f:2:0; commit x t.1; reserve x f:2:0; commit x t.2; put t.0 1
/// t.1; settag t.0 1 5; setnum t.2 1 9; transform z; transadd z t.1 t.2; park; transadd z t.1 t.2; transadd z t.1 t.0; clamp; park;
/// transadd z t.1 t.2; park; pin a.0 t.1; transapply z; poke a.0 0; transapply z; get t.3 t.0 1; num t.3 1; tag t.0 1; same t.1 t.2;
/// transapply z; transform z; transdrop z`.
pub fn transformed_is_legal()
    ensures { TransformedIsLegal }
{}

/// It isn't applied while an area word lies in the old object.
pub fn no_pinned_object_is_replaced()
    ensures { NoPinnedObjectIsReplaced }
{}

/// A `clamp` leaves no pair.
pub fn no_pair_is_left()
    ensures { NoPairIsLeft }
{}

/// An object that was replaced isn't replaced again, if another pair has its new object as the old one.
pub fn no_pair_follows_another()
    ensures { NoPairFollowsAnother }
{}

/// A history that allocates from a cache, frees into it and flushes it is legal. The script: `arena 8 8; pool v mvff; blocks b 4; cache q v
/// 16 2; calloc q 16 b.0; store b.0 3 7; cfree q b.0; live; calloc q 16 b.1; load b.1 3; cfree q b.1; cflush q; live; committed`.
pub fn cached_is_legal()
    ensures { CachedIsLegal }
{}

/// A cached block doesn't come back with its words.
pub fn no_old_word_comes_back()
    ensures { NoOldWordComesBack }
{}

/// The block that was cached first doesn't come back first: it is the one that a flush frees.
pub fn the_first_cached_stays()
    ensures { TheFirstCachedStays }
{}

/// A flush doesn't free the block first that was cached first.
pub fn no_flush_in_order()
    ensures { NoFlushInOrder }
{}

/// A history that pushes two frames of a pool and pops both is legal. The script: `arena 8 8; pool s snc; blocks b 4; alloc s 4 b.0;
/// push s; alloc s 4 b.1; push s; alloc s 4 b.2; pop s 0; live; load b.1 0; alloc s 4 b.1; free b.1; pop s 0`.
pub fn framed_is_legal()
    ensures { FramedIsLegal }
{}

/// A history is legal whose pop gives back two segments. The script: `arena 8 8; pool s snc; blocks b 4; push s; alloc s 512 b.0;
/// alloc s 512 b.1; pop s 0; committed; live`.
pub fn frame_segments_is_legal()
    ensures { FrameSegmentsIsLegal }
{}

/// A pop frees no block that was made before its push.
pub fn no_pop_frees_one_more()
    ensures { NoPopFreesOneMore }
{}

/// A pop leaves no block that was made since its push.
pub fn no_pop_frees_one_less()
    ensures { NoPopFreesOneLess }
{}

/// A pop doesn't free the first block first.
pub fn no_pop_in_order()
    ensures { NoPopInOrder }
{}

/// A pop keeps no segment in which nothing is left.
pub fn no_pop_keeps_a_segment()
    ensures { NoPopKeepsASegment }
{}
