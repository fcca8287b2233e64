//! What follows from the definitions. Each function does nothing: what counts is its contract.
ghost use Rattle.link_laws.specs.one_run.InOrder.{NothingIsLost};
ghost use Rattle.link_laws.specs.one_run.OneRun.{RunsAreOne, RunsStayWithin, TurnsAreOne};
ghost use Rattle.link_laws.specs.one_run.Speaking.{DoneIsTaken, MessagesAreTaken, OpenedSpeaks, SaidSpeaks};
ghost use Rattle.link_laws.specs.world.Sound.{SoundWithoutFlips};

/// A world has one next turn, and commands have one run, where the service's handlers are ruled: either a whole one, or a
/// beginning that meets the limit of deliveries.
pub fn one_run()
    ensures turns { TurnsAreOne }
    ensures runs { RunsAreOne }
    ensures within { RunsStayWithin }
{}

/// In a run in which no frame is damaged each packet that arrives at one end was sent by the other, whatever frames are
/// lost, repeated and kept back.
pub fn sound_without_flips()
    ensures { SoundWithoutFlips }
{}

/// Over a link that loses nothing, all packets that each end sent have arrived at the other when the end comes, in order.
pub fn nothing_is_lost()
    ensures { NothingIsLost }
{}

/// A call that a client has opened takes messages, and then the end of its stream: so what a command says as it starts is
/// never refused for another cause than a full journal.
pub fn opened_calls_take_messages()
    ensures opened { OpenedSpeaks }
    ensures said { SaidSpeaks }
    ensures messages { MessagesAreTaken }
    ensures done { DoneIsTaken }
{}
