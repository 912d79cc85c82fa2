// Laws: the crash lines may be taken out of a text, and what is left is the session without them.
#![tactic(auto)]

ghost use Rattle.rcv_calm.specs.Laws.{PlansWithoutCrashLinesAreRead, SameBytesSayTheSame};
ghost use Rattle.rcv_calm.specs.Laws.{TextsWithoutCrashLinesAreCalm};

/// If a text is taken as a session, the text without its crash lines is taken as the session without them.
pub fn texts_without_crash_lines_are_calm()
    ensures { TextsWithoutCrashLinesAreCalm }
{}

/// If a plan was read, its items without its crash lines are read too, as its other lines.
pub fn plans_without_crash_lines_are_read()
    ensures { PlansWithoutCrashLinesAreRead }
{}

/// What has the same bytes as the protocol part and the scripts part of a text that is taken says the same.
pub fn same_bytes_say_the_same()
    ensures { SameBytesSayTheSame }
{}
