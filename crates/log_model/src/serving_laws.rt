// The laws of batches and clients.
ghost use Rattle.log_model.specs.serving.Serving.{AcksArePoints, BatchesAreLinked, BatchesGrow, ClientTakesAll, ClientTakesRun, KeepsTheRest, ServesInTurn};

/// A session keeps, of the batches that it was given, those above its acknowledged event, and that event is the index before the
/// first of them.
pub fn keeps_the_rest()
    ensures { KeepsTheRest }
{}

/// The batches of a session follow one another, from its id on.
pub fn batches_are_linked()
    ensures { BatchesAreLinked }
{}

/// As the log grows, the batches that a session was given stay.
pub fn batches_grow()
    ensures { BatchesGrow }
{}

/// What an open session acknowledged is its id or the index of one of its batches, so that a client may start there.
pub fn acks_are_points()
    ensures { AcksArePoints }
{}

/// Whatever batches of its session a client is offered, it takes an unbroken run of them from its start, each once.
pub fn client_takes_run()
    ensures { ClientTakesRun }
{}

/// A client that starts at the acknowledged event and is served what is kept takes it all.
pub fn client_takes_all()
    ensures { ClientTakesAll }
{}

/// The batches that a session keeps are served one after the other.
pub fn serves_in_turn()
    ensures { ServesInTurn }
{}
