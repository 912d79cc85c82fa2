// What holds of snapshots of any session.

ghost use Rattle.rcv_guided.specs.Laws.{SnapshotsRestore, SnapshotsAreTaken, ToldSessionsAreRestorable};

/// What a snapshot restores is the session.
pub fn snapshots_restore()
    ensures { SnapshotsRestore }
{}

/// Each line of a snapshot of a restorable session is taken, by a session that begins anew.
pub fn snapshots_are_taken()
    ensures { SnapshotsAreTaken }
{}

/// Sessions that were told lines from their start on are restorable.
pub fn told_sessions_are_restorable()
    ensures { ToldSessionsAreRestorable }
{}
