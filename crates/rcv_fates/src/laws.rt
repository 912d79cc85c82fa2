// Laws of the definitions on what became of the events of a journal.

ghost use Rattle.rcv_fates.specs.Laws.{StampsGrow, EventsStandOnce, KeptEventsStand, EachRecvHasOneSend};

/// The stamps of one role's events grow along a legal journal, even those of undone events.
pub fn stamps_grow()
    ensures { StampsGrow }
{}

/// So an event stands at one place.
pub fn events_stand_once()
    ensures { EventsStandOnce }
{}

/// Each kept event is the event of an entry.
pub fn kept_events_stand()
    ensures { KeptEventsStand }
{}

/// In a legal journal each Recv has one Send, even a Recv that receives a message again.
pub fn each_recv_has_one_send()
    ensures { EachRecvHasOneSend }
{}
