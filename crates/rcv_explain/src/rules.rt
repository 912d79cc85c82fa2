// What the codes of a protocol that was read say, 20 to 26 and 28, and that of a role that isn't declared, 27.

use crate::explanation::Explanation;

/// Code 20.
pub const SUBJECT: Explanation = Explanation {
    name: b"Subject",
    rule: b"The role that a choice is at sends the first message of each of its blocks. Otherwise another role would decide.",
    example: b"    module m;
    global protocol P(role A, role B) {
      choice at A {
        m() from B to A;
      } or {
        n() from A to B;
      }
    }
",
    refusal: b"refused 20 Subject A 1",
    repair: b"let that role speak first in each block.",
    repaired: b"    module m;
    global protocol P(role A, role B) {
      choice at A {
        ask() from A to B;
        m() from B to A;
      } or {
        n() from A to B;
      }
    }
",
};

/// Code 21.
pub const MIXED: Explanation = Explanation {
    name: b"Mixed",
    rule: b"A role's next points are the first of its messages on each way that goes on. It sends all of them, or it receives all
of them. Otherwise it couldn't tell whether to wait.",
    example: b"    module m;
    global protocol P(role A, role B, role C) {
      choice at A {
        x() from A to B;
        y() from B to C;
      } or {
        z() from A to B;
        w() from C to B;
      }
    }
",
    refusal: b"refused 21 Mixed C 0",
    repair: b"let the role hear first on each way.",
    repaired: b"    module m;
    global protocol P(role A, role B, role C) {
      choice at A {
        x() from A to B;
        y() from B to C;
      } or {
        z() from A to B;
        go() from B to C;
        w() from C to B;
      }
    }
",
};

/// Code 22.
pub const SENDERS: Explanation = Explanation {
    name: b"Senders",
    rule: b"All next points that a role receives come from one role. Otherwise it couldn't tell whom to wait for.",
    example: b"    module m;
    global protocol P(role A, role B, role C) {
      choice at A {
        x() from A to B;
        y() from A to C;
      } or {
        z() from A to B;
        w() from B to C;
      }
    }
",
    refusal: b"refused 22 Senders C 0",
    repair: b"let one and the same role tell it in each block: the one that decides, or one that was told itself.",
    repaired: b"    module m;
    global protocol P(role A, role B, role C) {
      choice at A {
        x() from A to B;
        y() from A to C;
      } or {
        z() from A to B;
        tell() from A to C;
        w() from B to C;
      }
    }
",
};

/// Code 23.
pub const LABELS: Explanation = Explanation {
    name: b"Labels",
    rule: b"The next points that a role receives have different labels, and so have those that it sends to one role. Otherwise it
couldn't tell which way was taken. One label in two blocks is refused even if both blocks go on alike.",
    example: b"    module m;
    global protocol P(role A, role B, role C) {
      choice at A {
        x() from A to B;
        done() from B to C;
      } or {
        y() from A to B;
        done() from B to C;
      }
    }
",
    refusal: b"refused 23 Labels C 0",
    repair: b"put the common message after the choice, as here; or give it a label of its own in each block.",
    repaired: b"    module m;
    global protocol P(role A, role B, role C) {
      choice at A {
        x() from A to B;
      } or {
        y() from A to B;
      }
      done() from B to C;
    }
",
};

/// Code 24.
pub const NOT_ENABLED: Explanation = Explanation {
    name: b"NotEnabled",
    rule: b"Between a role's last message, or the start, and its next send stands no choice of others. Otherwise it would send
before the way is decided, and that is refused even if it sends the same either way. If there are lanes (`par`), those
in which it has no part don't count.",
    example: b"    module m;
    global protocol P(role A, role B, role C) {
      choice at A {
        x() from A to B;
      } or {
        y() from A to B;
      }
      z() from C to B;
    }
",
    refusal: b"refused 24 NotEnabled C 0",
    repair: b"tell the role, as here: the one that decides sends it a message in each block, with a label of its own in
each. Or replace the choice by one message with a number. Or let the role hear from somebody after the choice before
it sends. Or put its message before the choice.",
    repaired: b"    module m;
    global protocol P(role A, role B, role C) {
      choice at A {
        x() from A to B, C;
      } or {
        y() from A to B, C;
      }
      z() from C to B;
    }
",
};

/// Code 25.
pub const MAYBE_DONE: Explanation = Explanation {
    name: b"MaybeDone",
    rule: b"If a role may still have to act, it acts, or is told, on each way to the end. Otherwise it would wait for a message
that may never come.",
    example: b"    module m;
    global protocol P(role A, role B, role C) {
      choice at A {
        x() from A to B;
        t() from B to C;
      } or {
        y() from A to B;
      }
    }
",
    refusal: b"refused 25 MaybeDone C 0",
    repair: b"tell the role on every other way to the end. For less, send it one message after the choice or the loop, from the
same sender, with a label of its own.",
    repaired: b"    module m;
    global protocol P(role A, role B, role C) {
      choice at A {
        x() from A to B;
        t() from B to C;
      } or {
        y() from A to B;
        end() from B to C;
      }
    }
",
};

/// Code 26.
pub const UNREACHABLE: Explanation = Explanation {
    name: b"Unreachable",
    rule: b"A way from the start leads to each point. Otherwise its message could never be sent.",
    example: b"    module m;
    global protocol P(role A, role B) {
      rec X {
        m() from A to B;
        continue X;
      }
      n() from A to B;
    }
",
    refusal: b"refused 26 Unreachable A 2",
    repair: b"give the loop a block that leaves it. What follows a loop comes only on a way without its `continue`.",
    repaired: b"    module m;
    global protocol P(role A, role B) {
      rec X {
        choice at A {
          m() from A to B;
          continue X;
        } or {
          n() from A to B;
        }
      }
    }
",
};

/// Code 27.
pub const NO_ROLE: Explanation = Explanation {
    name: b"NoRole",
    rule: b"The role that the command names is declared in the protocol.",
    example: b"    $ rcv project --role C
    module m;
    global protocol P(role A, role B) {
      m() from A to B;
    }
",
    refusal: b"refused 27 NoRole",
    repair: b"name a declared role.",
    repaired: b"    $ rcv project --role A
    module m;
    global protocol P(role A, role B) {
      m() from A to B;
    }
",
};

/// Code 28.
pub const LANE_END: Explanation = Explanation {
    name: b"LaneEnd",
    rule: b"What follows a `par` comes only when each of its blocks is at its end. A `par` comes only when what stands before it
is at its end. So from each message there a way leads to the end: of its block, or of what stands before the `par`.",
    example: b"    module m;
    global protocol P(role A, role B, role C, role D) {
      choice at A {
        x() from A to B;
        rec X {
          t() from A to B;
          continue X;
        }
      } or {
        y() from A to B;
      }
      par {
        u() from A to B;
      } and {
        v() from C to D;
      }
    }
",
    refusal: b"refused 28 LaneEnd A 1",
    repair: b"give the loop a block that leaves it, or put nothing after it.",
    repaired: b"    module m;
    global protocol P(role A, role B, role C, role D) {
      choice at A {
        x() from A to B;
        rec X {
          choice at A {
            t() from A to B;
            continue X;
          } or {
            s() from A to B;
          }
        }
      } or {
        y() from A to B;
      }
      par {
        u() from A to B;
      } and {
        v() from C to D;
      }
    }
",
};
