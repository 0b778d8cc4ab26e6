// What a whole collection posts and leaves.

ghost use Rattle.mps_abstract.specs.WholeLaws.{AWholeCollectionIsExact};

/// A full collection that goes from its flip to its end without a call of the client posts exactly the registered
/// objects that weren't widely reachable, in order, and leaves exactly the objects that were, or that a posted one keeps. Its moves
/// are due, and each is legal.
pub fn a_whole_collection_is_exact()
    ensures { AWholeCollectionIsExact }
{}
