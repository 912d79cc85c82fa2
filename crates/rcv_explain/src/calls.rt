// What the codes of calls say that no text has, except for 13: 52 to 54.

use crate::explanation::Explanation;

/// Code 52.
pub const ARITY: Explanation = Explanation {
    name: b"Arity",
    rule: b"A `do` names as many roles as the called protocol declares: they stand for these, in order.",
    example: b"    module m;
    global protocol P(role A, role B, role C) {
      do Tell(A, B, C);
    }
    global protocol Tell(role X, role Y) {
      tell() from X to Y;
    }
",
    refusal: b"refused 52 Arity line 3",
    repair: b"name one role for each that the called protocol declares.",
    repaired: b"    module m;
    global protocol P(role A, role B, role C) {
      do Tell(A, B); do Tell(A, C);
    }
    global protocol Tell(role X, role Y) {
      tell() from X to Y;
    }
",
};

/// Code 53.
pub const RECURSIVE: Explanation = Explanation {
    name: b"Recursive",
    rule: b"No protocol calls itself, neither directly nor through other protocols: what such a call stands for would have no end.
A call within such a ring is refused; a call that only leads into it is not.",
    example: b"    module m;
    global protocol P(role A, role B) {
      m() from A to B;
      do P(B, A);
    }
",
    refusal: b"refused 53 Recursive line 4",
    repair: b"write a loop by `rec` and `continue`. If the call exchanges roles, write the turns into the loop, until each
role is in its first place again.",
    repaired: b"    module m;
    global protocol P(role A, role B) {
      rec X { do Turn(A, B); do Turn(B, A); continue X; }
    }
    global protocol Turn(role X, role Y) {
      m() from X to Y;
    }
",
};

/// Code 54.
pub const EMPTY_DO: Explanation = Explanation {
    name: b"EmptyDo",
    rule: b"A protocol that is called has a statement. Otherwise the call would stand for nothing.",
    example: b"    module m;
    global protocol P(role A, role B) {
      m() from A to B;
      do Log(B);
    }
    global protocol Log(role X) { }
",
    refusal: b"refused 54 EmptyDo line 4",
    repair: b"leave the call out, or write what it stands for.",
    repaired: b"    module m;
    global protocol P(role A, role B) {
      m() from A to B;
    }
    global protocol Log(role X) { }
",
};
