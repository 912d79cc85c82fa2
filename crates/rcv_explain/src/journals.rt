// What the codes of a journal after an input say: 50 and 51.

use crate::explanation::Explanation;

/// Code 50.
pub const NO_JOURNAL: Explanation = Explanation {
    name: b"NoJournal",
    rule: b"A line that is exactly `%% journal` stands between an input and its journal. If there is none, this refusal comes
before each other refusal of the input, and its line is that of the input's end.",
    example: b"    $ rcv-show journal
    module m;
    global protocol P(role A, role B) { m() from A to B; }
    send A 1 m 0 @1
    recv B 1 m 0 @2 <1
    role A kept 1 raw 1 done
    role B kept 1 raw 1 done
    completed
",
    refusal: b"refused 50 NoJournal line 8",
    repair: b"write the line before the journal, with no space before or after it.",
    repaired: b"    $ rcv-show journal
    module m;
    global protocol P(role A, role B) { m() from A to B; }
    %% journal
    send A 1 m 0 @1
    recv B 1 m 0 @2 <1
    role A kept 1 raw 1 done
    role B kept 1 raw 1 done
    completed
",
};

/// Code 51.
pub const JOURNAL: Explanation = Explanation {
    name: b"Journal",
    rule: b"A journal is what `rcv run` writes for the protocol before it: entries, a line for each role in order of declaration,
and the last line. The line of a refusal is the first up to which the lines begin no such text. It is counted over the
whole input.",
    example: b"    $ rcv-show journal
    module m;
    global protocol P(role A, role B) { m() from A to B; }
    %% journal
    send A 1 n 0 @1
    recv B 1 m 0 @2 <1
    role A kept 1 raw 1 done
    role B kept 1 raw 1 done
    completed
",
    refusal: b"refused 51 Journal line 4",
    repair: b"take the journal as it was written, of the same protocol, with its last line and the line end after it.",
    repaired: b"    $ rcv-show journal
    module m;
    global protocol P(role A, role B) { m() from A to B; }
    %% journal
    send A 1 m 0 @1
    recv B 1 m 0 @2 <1
    role A kept 1 raw 1 done
    role B kept 1 raw 1 done
    completed
",
};
