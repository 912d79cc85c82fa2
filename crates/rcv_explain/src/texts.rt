// What the codes of a protocol's text say: 10 to 19, and 29.

use crate::explanation::Explanation;

/// Code 10.
pub const LETTER: Explanation = Explanation {
    name: b"Letter",
    rule: b"Each word, number, text, mark and comment is whole, and no other letter stands between them. A word has at most 64
bytes, and so has a text between its quotes. A text ends on its line, and a comment at its `*/`. A bad letter in the
scripts or in the plan has this code too: only the line tells which part it is in.",
    example: b"    module m;
    global protocol P(role A, role B) {
      m(x: Int) from A to B;
    }
",
    refusal: b"refused 10 Letter line 3",
    repair: b"take the letter out. End a comment by `*/`, and a text by `\"` on its line. Shorten a word or a text that is
too long. Payloads have no names, and there is no `/`, no `&&` and no `||`. The lines that begin scripts and plan are
exactly `%% scripts` and `%% plan`.",
    repaired: b"    module m;
    global protocol P(role A, role B) {
      m(Int) from A to B;
    }
",
};

/// Code 11.
pub const TOKEN: Explanation = Explanation {
    name: b"Token",
    rule: b"The words and marks of a protocol stand in the order of the grammar, up to its last `}`.",
    example: b"    module m;
    global protocol P(role A, role B) {
      m() of A to B;
    }
",
    refusal: b"refused 11 Token line 3",
    repair: b"compare the line with the grammar (docs/FORMATS.md); `rcv-show points` says what was found and what may stand
there. If a `;` is missing, the line is that of the next word, which may stand lines below. If the end is refused,
something is missing, mostly a `}`; the line is then the one after the last line end, and nothing stands on it.",
    repaired: b"    module m;
    global protocol P(role A, role B) {
      m() from A to B;
    }
",
};

/// Code 12.
pub const DEEP: Explanation = Explanation {
    name: b"Deep",
    rule: b"Blocks stand inside each other at most 32 deep, and the protocol's own block counts. If a call brings the 33rd block,
the line is that of the `do` in the first protocol; the called protocol's own block doesn't count there.",
    example: b"    module m;
    global protocol P(role A, role B) {
      rec X { rec X { rec X { rec X { rec X { rec X { rec X { rec X {
      rec X { rec X { rec X { rec X { rec X { rec X { rec X { rec X {
      rec X { rec X { rec X { rec X { rec X { rec X { rec X { rec X {
      rec X { rec X { rec X { rec X { rec X { rec X { rec X { rec X { m() from A to B;
      } } } } } } } } } } } } } } } } } } } } } } } } } } } } } } } }
    }
",
    refusal: b"refused 12 Deep line 6",
    repair: b"nest fewer blocks.",
    repaired: b"    module m;
    global protocol P(role A, role B) {
      rec X { rec X { rec X { rec X { rec X { rec X { rec X { rec X {
      rec X { rec X { rec X { rec X { rec X { rec X { rec X { rec X {
      rec X { rec X { rec X { rec X { rec X { rec X { rec X { rec X {
      rec X { rec X { rec X { rec X { rec X { rec X { rec X { m() from A to B;
      } } } } } } } } } } } } } } } } } } } } } } } } } } } } } } }
    }
",
};

/// Code 13.
pub const NAME: Explanation = Explanation {
    name: b"Name",
    rule: b"A role that a statement names is declared in the head of its protocol. A `continue` names a `rec` of its protocol that
encloses the `continue`. A `do` names a protocol of the module.",
    example: b"    module m;
    global protocol P(role A, role B) {
      m() from A to C;
    }
",
    refusal: b"refused 13 Name line 3",
    repair: b"declare the role, name an enclosing `rec`, or write the protocol that is called.",
    repaired: b"    module m;
    global protocol P(role A, role B, role C) {
      m() from A to C;
    }
",
};

/// Code 14.
pub const TWICE: Explanation = Explanation {
    name: b"Twice",
    rule: b"No role is declared twice in a protocol, and no alias and no protocol twice in a module. A list of receivers names
each of them once, and so does the list of roles of a `do`.",
    example: b"    module m;
    global protocol P(role A, role B) {
      m() from A to B, B;
    }
",
    refusal: b"refused 14 Twice line 3",
    repair: b"use each name once. Two messages to one role are two statements.",
    repaired: b"    module m;
    global protocol P(role A, role B) {
      m() from A to B; m() from A to B;
    }
",
};

/// Code 15.
pub const SELF_MESSAGE: Explanation = Explanation {
    name: b"SelfMessage",
    rule: b"A message goes to another role than its sender.",
    example: b"    module m;
    global protocol P(role A, role B) {
      m() from A to A;
    }
",
    refusal: b"refused 15 SelfMessage line 3",
    repair: b"name another role, or leave the message out: what a role does alone is no message.",
    repaired: b"    module m;
    global protocol P(role A, role B) {
      m() from A to B;
    }
",
};

/// Code 16.
pub const AFTER_CONTINUE: Explanation = Explanation {
    name: b"AfterContinue",
    rule: b"Nothing follows a `continue` in its block: no way would lead to it.",
    example: b"    module m;
    global protocol P(role A, role B) {
      rec X { m() from A to B; continue X; n() from A to B; }
    }
",
    refusal: b"refused 16 AfterContinue line 3",
    repair: b"take it out, put it before the `continue`, or put it into a block that leaves the `rec`.",
    repaired: b"    module m;
    global protocol P(role A, role B) {
      rec X { choice at A { m() from A to B; continue X; } or { n() from A to B; } }
    }
",
};

/// Code 17.
pub const UNGUARDED: Explanation = Explanation {
    name: b"Unguarded",
    rule: b"Each way from the `{` of a `rec` to a `continue` of it has a message, or a `do`, which brings one. Otherwise the
session would go round for ever and do nothing.",
    example: b"    module m;
    global protocol P(role A, role B) {
      rec X { choice at A { m() from A to B; } or { continue X; } }
    }
",
    refusal: b"refused 17 Unguarded line 3",
    repair: b"put a message between the `{` of the `rec` and the `continue`, on each way.",
    repaired: b"    module m;
    global protocol P(role A, role B) {
      rec X { choice at A { m() from A to B; } or { n() from A to B; continue X; } }
    }
",
};

/// Code 18.
pub const TOO_MANY: Explanation = Explanation {
    name: b"TooMany",
    rule: b"A protocol has at most 8 roles and 256 points. Its points are its messages, counted for each receiver. A module has at
most 64 protocols. If calls bring the 257th point, the line is that of the `do` in the first protocol by whose end the
point has come. If the point comes after the last `do`, the line is that of the last one.",
    example: b"    module m;
    global protocol P(role A, role B, role C, role D, role E, role F, role G, role H, role I) {
      m() from A to B;
    }
",
    refusal: b"refused 18 TooMany line 2",
    repair: b"write a smaller protocol, or fewer calls.",
    repaired: b"    module m;
    global protocol P(role A, role B, role C, role D, role E, role F, role G, role H) {
      m() from A to B;
    }
",
};

/// Code 19.
pub const NOT_YET: Explanation = Explanation {
    name: b"NotYet",
    rule: b"`par` stands in the first protocol's own block. In other blocks it isn't built yet.",
    example: b"    module m;
    global protocol P(role A, role B, role C, role D) {
      rec X { par { m() from A to B; } and { n() from C to D; } continue X; }
    }
",
    refusal: b"refused 19 NotYet line 3",
    repair: b"write the blocks one after the other, those without a choice first; each role waits only for its own
messages. Two blocks with a choice in a loop wait for each other: make each a protocol and a session of its own, or let
their deciders tell each other what they chose. Or write the `par` in the first protocol's own block; its blocks may have
calls and loops of their own.",
    repaired: b"    module m;
    global protocol P(role A, role B, role C, role D) {
      rec X { m() from A to B; n() from C to D; continue X; }
    }
",
};

/// Code 29.
pub const SHARED: Explanation = Explanation {
    name: b"Shared",
    rule: b"A role stands in only one block of a `par`. A role that a `do` names stands there, too.",
    example: b"    module m;
    global protocol P(role A, role B, role C) {
      par { m() from A to B; } and { n() from B to C; }
    }
",
    refusal: b"refused 29 Shared line 3",
    repair: b"write the messages of the role into one block, or write the blocks one after the other; each role waits only
for its own messages.",
    repaired: b"    module m;
    global protocol P(role A, role B, role C) {
      m() from A to B; n() from B to C;
    }
",
};
