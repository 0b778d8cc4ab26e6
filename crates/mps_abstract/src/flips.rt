// How a collection begins.

ghost use Rattle.mps_abstract.specs.FlipLaws.{AFlipBeginsRunning, AFlipLeavesFewUnits};
ghost use Rattle.mps_abstract.specs.Remembered.{RememberedIsEnough, SummariesRemember};

/// The act of a flip: it fixes what slots and messages hold by the moves of the model, which are legal, and the invariant
/// holds after it, for a full flip and for one of the younger generations of a chain. A flip that condemns nothing ends
/// at once, in a world at rest.
pub fn a_flip_begins_running()
    ensures { AFlipBeginsRunning }
{}

/// After the act of a flip that condemns something, at most one unit is left for each object that it condemned or has still
/// to scan, for each registration, and for each condemned segment.
pub fn a_flip_leaves_few_units()
    ensures { AFlipLeavesFewUnits }
{}

/// If the summaries of segments have the zones of what live objects refer to, what a flip neither condemns nor remembers refers to
/// nothing that it condemns. Then what it remembers is all that it has to scan besides what it condemns.
pub fn summaries_remember()
    ensures remember { SummariesRemember }
    ensures enough { RememberedIsEnough }
{}
