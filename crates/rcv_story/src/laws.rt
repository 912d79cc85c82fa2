// Laws of the definitions on what a journal's Recovers undo.

ghost use Rattle.rcv_story.specs.Laws.{EventsHaveOneFate, RecoversUndo, RolesGoBackOrStay};
ghost use Rattle.rcv_story.specs.Laws.{KeptPlacesAreKept, RecoversKeepAsTheySay, UndoneIsByARecover};

/// Each event is kept at the end or undone, and one Recover undoes it.
pub fn events_have_one_fate()
    ensures { EventsHaveOneFate }
{}

/// Only a later Recover undoes an event.
pub fn recovers_undo()
    ensures { RecoversUndo }
{}

/// By a Recover each role goes back or stays.
pub fn roles_go_back_or_stay()
    ensures { RolesGoBackOrStay }
{}

/// In a legal journal what a role keeps is what the session keeps of it.
pub fn kept_places_are_kept()
    ensures { KeptPlacesAreKept }
{}

/// So a concerned role keeps after a Recover as many events as the Recover says.
pub fn recovers_keep_as_they_say()
    ensures { RecoversKeepAsTheySay }
{}

/// In a legal journal what isn't kept at the end is what some Recover undoes.
pub fn undone_is_by_a_recover()
    ensures { UndoneIsByARecover }
{}
