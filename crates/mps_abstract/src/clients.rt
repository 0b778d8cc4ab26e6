// What the client's calls keep of a collection in progress.

ghost use Rattle.mps_abstract.specs.ClientLaws.{ClientsKeepRunning};

/// Every call keeps the invariant of a running collection: if it holds after the collector's part of a step, it holds after
/// the whole step, with the same colours. An object that is made isn't white, wherever it lies.
pub fn clients_keep_running()
    ensures { ClientsKeepRunning }
{}
