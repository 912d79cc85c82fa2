// What holds of each dialogue.

ghost use Rattle.rcv_talk.specs.Laws.{HistoriesGoOnBehindSnapshots};

/// After the lines that restored a session, its history goes on by what is told.
pub fn histories_go_on_behind_snapshots()
    ensures { HistoriesGoOnBehindSnapshots }
{}
