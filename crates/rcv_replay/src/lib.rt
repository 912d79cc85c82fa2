// Whether a journal that stands after its bundle is legal, and closes as its entries leave it.
#![tactic(auto)]

ghost use Rattle.rcv_replay.specs.Laws.{OneReplay, ReplaysExist, LegalReplaysAreJournals};

pub mod cut;
pub mod lines;
pub mod replay;
pub mod replayed;

/// One thing is said of an input.
pub fn one_replay()
    ensures { OneReplay }
{}

/// And something is said of each input.
pub fn replays_exist()
    ensures { ReplaysExist }
{}

/// If the bundle is taken as a session, a replay is legal exactly if the text after it is that of a legal and final
/// journal of this session.
pub fn legal_replays_are_journals()
    ensures { LegalReplaysAreJournals }
{}
