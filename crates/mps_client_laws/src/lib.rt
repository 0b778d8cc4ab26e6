//! Laws that a runtime's author cites: what may be concluded from a few of a client's calls, whatever other steps come between them.
//! Each function is a theorem: its contract is the statement.
#![tactic(auto)]

ghost use Rattle.mps_client_laws.specs.Objects.{ObjectsKeepTheirIdentity, CellsStay, WordsStay};
ghost use Rattle.mps_client_laws.specs.Addresses.{ObjectsLiveOn, AddressesStay, NoTwoHaveOneAddress, ManualBlocksStay};
ghost use Rattle.mps_client_laws.specs.Collecting.{CollectLeavesWhatIsReached, LastingCellsStay, WhatDependentsReachStays, WhatIsNotReachedIsGone};
ghost use Rattle.mps_client_laws.specs.Complete.{LiveObjectsAreReached, OthersWereKeptByMoves, PinnedObjectsStay, ReachedObjectsAreLive, RegisteredObjectsAreLive, SegmentsHaveLiveBlocks, StillReachedObjectsAreLive, TargetsAreLive};
ghost use Rattle.mps_client_laws.specs.Committing.{CommitMakesTheObject, FlippedMakesNone};
ghost use Rattle.mps_client_laws.specs.Dependents.{ValuesGoWithTheirKeys};
ghost use Rattle.mps_client_laws.specs.Initialising.{InitWritesTheNumber, InitWritesTheReference};
ghost use Rattle.mps_client_laws.specs.Numbers.{NumbersStayWords, ReachedNumbersAreWords};
ghost use Rattle.mps_client_laws.specs.Pinning.{AddressesLieInside, PeekAnswersWhatIsShown, PinnedObjectsLieStill, PokeShowsItsNumber, ShownNumbersStay};
ghost use Rattle.mps_client_laws.specs.Places.{AllocShowsZeros, AllocsShowAlike, CacheAllocShowsZeros, CacheFreeShowsNothing, FreeShowsNothing, FreesShowAlike};
ghost use Rattle.mps_client_laws.specs.Popping.{PopFreesWhatWasMadeSince};
ghost use Rattle.mps_client_laws.specs.ReadingBack.{GetGivesWhatWasPut, NumAnswersWhatWasSet, LoadAnswersWhatWasStored};
ghost use Rattle.mps_client_laws.specs.Refusals.{RefusalsAreListed, RefusedStepsAreListed, NoneIsOutOfMemory, RefusedStepsMakeNoMoves, RefusedStepsChangeNothing, RefusedStepsLeaveTheirMoves, RefusedPollsHaveNoPlace};
ghost use Rattle.mps_client_laws.specs.Reservations.{ReserveOpens, ReservationsStay, InitOfDoomedLeavesTheGraph, CommitAnswersByFlips, CommitSpendsTheReservation};
ghost use Rattle.mps_client_laws.specs.Substituting.{NoChangesNothing, NoReferenceIsToOld, NoSlotRefersToOld, YesIsNotBlocked, YesIsTheSubstitution};
ghost use Rattle.mps_client_laws.specs.Slots.{SlotsStay, CopyGivesTheSameObject, ClearLeavesNull, YesIsTheSameObject, NoIsAnotherObject, YesIsNoObject, NoIsAnObject};

/// No object is lost. Over any steps an object keeps its pool, its kind, its size, its head and its weakness. A cell is
/// what it was, unless a `put`, `setnum` or `settag` of this cell or a splat writes it; a word of a manual block, unless
/// a `store` of this word does. A splat writes a reference of a weak object, and that in the same cell of its dependent.
/// So over a legal step no move writes a cell of an object that is neither.
pub fn no_object_is_lost()
    ensures identity { ObjectsKeepTheirIdentity }
    ensures cells { CellsStay }
    ensures lasting { LastingCellsStay }
    ensures words { WordsStay }
{}

/// An object lives on unless a move frees it, and stays at its address unless a move moves it: both name its address, so
/// no move of another object counts. No two live objects have one address. In a legal history a manual block lives on and stays at its
/// address over any steps whose calls aren't `free`, `cfree`, `cflush` or `pop`.
pub fn addresses_change_by_moves()
    ensures live { ObjectsLiveOn }
    ensures address { AddressesStay }
    ensures different { NoTwoHaveOneAddress }
    ensures manual { ManualBlocksStay }
{}

/// A read gives what was written: `get` after `put`, `num` after `setnum`, `load` after `store`. Any steps may come between them
/// that don't write the same cell or word, so a collection may begin, move the object and end meanwhile.
pub fn a_read_gives_what_was_written()
    ensures get { GetGivesWhatWasPut }
    ensures num { NumAnswersWhatWasSet }
    ensures load { LoadAnswersWhatWasStored }
{}

/// A slot has what it had, null or the same object, over any steps that don't write this slot or drop its table: wherever the
/// object is moved meanwhile.
pub fn slots_stay()
    ensures { SlotsStay }
{}

/// A call is answered, or refused by one of its own list: in any world, and so in each legal step. No list has out of memory.
pub fn refusals_are_listed()
    ensures acts { RefusalsAreListed }
    ensures steps { RefusedStepsAreListed }
    ensures memory { NoneIsOutOfMemory }
{}

/// A refused step makes no moves and changes nothing, from any world on, unless its call polls: a `reserve` for which there is no
/// place in what is held. What is refused otherwise than for the place didn't poll. A step that polls leaves what its poll did, and
/// nothing else.
pub fn a_refused_call_changes_nothing()
    ensures moves { RefusedStepsMakeNoMoves }
    ensures world { RefusedStepsChangeNothing }
    ensures polls { RefusedPollsHaveNoPlace }
    ensures after_poll { RefusedStepsLeaveTheirMoves }
{}

/// `copy`, `clear`, `same` and `null` are about the objects in slots. After a `copy` the target refers to the source's object, and
/// after a `clear` to none. `same` answers yes exactly if both slots refer to one object or both are null, and `null` exactly if
/// the slot refers to none: wherever the objects lie, and while a collection moves them.
pub fn slots_are_equal_by_object()
    ensures copy { CopyGivesTheSameObject }
    ensures clear { ClearLeavesNull }
    ensures same { YesIsTheSameObject }
    ensures not_same { NoIsAnotherObject }
    ensures null { YesIsNoObject }
    ensures not_null { NoIsAnObject }
{}

/// What can be reached before a `collect` is live after it: by a path from slots, area words and messages, through reference cells of
/// objects that are neither weak nor dependents. Each such object has the cells that it had. If no collection ran, what is reached
/// through dependents is live after it too, and what isn't reached is gone. Then objects in which area words lie are roots too,
/// and those that the `collect` posts.
pub fn what_is_reached_stays()
    ensures reached { CollectLeavesWhatIsReached }
    ensures dependents { WhatDependentsReachStays }
    ensures gone { WhatIsNotReachedIsGone }
{}

/// An accepted `collect` of a legal history is complete. Each object that is live and automatic after it is reached, from what the client
/// holds or from an object in which an area word lies. What is reached is live: by the references that there were at the flip if no
/// collection ran before it, and else by those that are left. Registered objects are live, and so are the targets of live ones, weak
/// ones too. What is live of a copying pool, and had no area word at the flip, was moved since then or made to stay. An object in which an
/// area word lay then is live, where it was. In each held segment lies a live block, but for those of pools of blocks of one size.
pub fn a_collect_is_complete()
    ensures live { LiveObjectsAreReached }
    ensures reached { ReachedObjectsAreLive }
    ensures still_reached { StillReachedObjectsAreLive }
    ensures registered { RegisteredObjectsAreLive }
    ensures targets { TargetsAreLive }
    ensures moved { OthersWereKeptByMoves }
    ensures pinned { PinnedObjectsStay }
    ensures segments { SegmentsHaveLiveBlocks }
{}

/// Area words pin objects, as the words of a runtime's stack do. After a `poke` a word shows its number, and so it does until a step writes
/// it or drops its area, whatever is moved meanwhile: a `peek` answers it. The address of an object lies in it. An object in which the
/// number lies, and which the client holds at some moment, lives on from there and stays where it is, also if the client drops it.
pub fn area_words_pin_objects()
    ensures poke { PokeShowsItsNumber }
    ensures shown { ShownNumbersStay }
    ensures peek { PeekAnswersWhatIsShown }
    ensures inside { AddressesLieInside }
    ensures pinned { PinnedObjectsLieStill }
{}

/// An accepted `commit` makes one new object, with the head and just the cells of the reservation, and its slot refers to it. One that
/// answers `flipped` makes none.
pub fn a_commit_makes_the_object()
    ensures made { CommitMakesTheObject }
    ensures flipped { FlippedMakesNone }
{}

/// A `commit` into a slot that there is answers `flipped` if a step after its `reserve` and before it has a flip, and else `ok`. An
/// accepted `reserve` opens a reservation, which stays open until its point commits, and is doomed exactly by a flip. An `init` of a
/// doomed one leaves the object graph as it was. A `commit` that answers `ok` or `flipped` leaves no reservation.
pub fn a_commit_answers_by_flips()
    ensures opened { ReserveOpens }
    ensures stays { ReservationsStay }
    ensures doomed { InitOfDoomedLeavesTheGraph }
    ensures answer { CommitAnswersByFlips }
    ensures spent { CommitSpendsTheReservation }
{}

/// An accepted `init` of a reservation that no flip ended writes its cell: the number, or the object of the slot. The other cells and the
/// head are as before.
pub fn an_init_writes_its_cell()
    ensures number { InitWritesTheNumber }
    ensures reference { InitWritesTheReference }
{}

/// A `transapply` that answers yes leaves the substitution, once: each slot and each reference of an object, weak or not, that was to an
/// old object of a pair is to its new one, and all others are what they were. So after it none is to an old object that isn't a new one
/// too. It answers yes if no area word lies in an old object. If one does it answers no, and the graph is as it was.
pub fn a_transapply_replaces_once()
    ensures substitution { YesIsTheSubstitution }
    ensures not_blocked { YesIsNotBlocked }
    ensures slots { NoSlotRefersToOld }
    ensures references { NoReferenceIsToOld }
    ensures blocked { NoChangesNothing }
{}

/// A value goes with its key. A weak object may have a dependent, whose reference in a cell is the value of the key in the same cell. In
/// each world that a legal history reaches, and after any moves from there, a value that was null with its key is so after one move more.
pub fn values_go_with_their_keys()
    ensures { ValuesGoWithTheirKeys }
{}

/// An accepted `pop` of a legal history frees exactly the blocks of its pool that were made since the frame was opened. Every other
/// object lies where it lay, with its cells and words. The places of these blocks are empty then, and no other place changes.
pub fn a_pop_frees_what_was_made_since()
    ensures { PopFreesWhatWasMadeSince }
{}

/// What places of tables of blocks show doesn't depend on allocation caches. After an accepted `alloc` or `calloc` of n words its place
/// shows n zeros, after an accepted `free` or `cfree` nothing, and each other place what it showed. So a `calloc` and an `alloc` of as
/// many words into one place, of one world, leave the same to be seen, and so do a `cfree` and a `free` of one place.
pub fn places_change_alike()
    ensures alloc { AllocShowsZeros }
    ensures calloc { CacheAllocShowsZeros }
    ensures free { FreeShowsNothing }
    ensures cfree { CacheFreeShowsNothing }
    ensures allocs { AllocsShowAlike }
    ensures frees { FreesShowAlike }
{}

/// Numbers stay words. If each number that the calls of some steps write is below 2^64, as a number of 64 bits is, so is after them
/// each head and number of an object or a reservation, each word of a manual block and each number in an area that was so before: from
/// any world on, and so in each world that such calls reach. The premise is needed, since the definitions of calls take any number.
pub fn numbers_stay_words()
    ensures steps { NumbersStayWords }
    ensures reached { ReachedNumbersAreWords }
{}
