// What the codes of scripts say: 30 to 36.

use crate::explanation::Explanation;

/// Code 30.
pub const TOKEN: Explanation = Explanation {
    name: b"Token",
    rule: b"The words and marks of a script stand in the order of the grammar. A number is at most 9223372036854775807.
Comparisons stand only after `when`.",
    example: b"    module m;
    global protocol P(role A, role B) { m(Int) from A to B; }
    %% scripts
    role A { send m = 1 != 2; }
",
    refusal: b"refused 30 Token line 4",
    repair: b"compare the line with the grammar (docs/FORMATS.md); `rcv-show points` says what was found and what may stand
there. Say by a number what a comparison would say, or decide by a `pick`.",
    repaired: b"    module m;
    global protocol P(role A, role B) { m(Int) from A to B; }
    %% scripts
    role A { send m = 1 - 2; }
",
};

/// Code 31.
pub const ROLE: Explanation = Explanation {
    name: b"Role",
    rule: b"A script belongs to a declared role, and each role has at most one.",
    example: b"    module m;
    global protocol P(role A, role B) { m(Int) from A to B; }
    %% scripts
    role C { send m = 1; }
",
    refusal: b"refused 31 Role line 4",
    repair: b"name a declared role, and write all its lines into one script.",
    repaired: b"    module m;
    global protocol P(role A, role B) { m(Int) from A to B; }
    %% scripts
    role A { send m = 1; }
",
};

/// Code 32.
pub const LABEL: Explanation = Explanation {
    name: b"Label",
    rule: b"A `send` or a `pick` has the label of messages that the role sends. An `on` has the label of messages that it sends or
receives. A label has at most one `send` line.",
    example: b"    module m;
    global protocol P(role A, role B) { m(Int) from A to B; }
    %% scripts
    role B { send m = 1; }
",
    refusal: b"refused 32 Label line 4",
    repair: b"write the line into the script of the role that sends, or receives, the message. Write one `send` line in
place of two with the same label.",
    repaired: b"    module m;
    global protocol P(role A, role B) { m(Int) from A to B; }
    %% scripts
    role A { send m = 1; }
",
};

/// Code 33.
pub const VARIABLE: Explanation = Explanation {
    name: b"Variable",
    rule: b"A variable is declared once, before the lines that use it, and its name isn't `value` or `attempt`. The word `value`
stands only in `on` lines.",
    example: b"    module m;
    global protocol P(role A, role B) { m(Int) from A to B; }
    %% scripts
    role A { on m set x = 1; }
",
    refusal: b"refused 33 Variable line 4",
    repair: b"declare the variable by `var` before the line. If a `send` or a `pick` needs the number of a message, keep it
in a variable by an `on` line.",
    repaired: b"    module m;
    global protocol P(role A, role B) { m(Int) from A to B; }
    %% scripts
    role A { var x = 0; on m set x = 1; }
",
};

/// Code 34.
pub const ATTEMPT_IN_STATE: Explanation = Explanation {
    name: b"AttemptInState",
    rule: b"The word `attempt` stands only in `send` and `pick` lines: variables go back with their role, and the attempt doesn't.",
    example: b"    module m;
    global protocol P(role A, role B) { m(Int) from A to B; }
    %% scripts
    role A { var x = 0; on m set x = attempt; }
",
    refusal: b"refused 34 AttemptInState line 4",
    repair: b"use `attempt` in the `send` or the `pick` that needs it.",
    repaired: b"    module m;
    global protocol P(role A, role B) { m(Int) from A to B; }
    %% scripts
    role A { send m = attempt; }
",
};

/// Code 35.
pub const NO_PAYLOAD: Explanation = Explanation {
    name: b"NoPayload",
    rule: b"A message without sorts carries no number. So each message that a role sends with the label of its `send` line has
sorts. So has each of its messages with the label of an `on` line that has the word `value`.",
    example: b"    module m;
    global protocol P(role A, role B) { m() from A to B; }
    %% scripts
    role A { send m = 1; }
",
    refusal: b"refused 35 NoPayload line 4",
    repair: b"give the message a sort. If several messages of the role have the label, give each of them one.",
    repaired: b"    module m;
    global protocol P(role A, role B) { m(Int) from A to B; }
    %% scripts
    role A { send m = 1; }
",
};

/// Code 36.
pub const TOO_MANY: Explanation = Explanation {
    name: b"TooMany",
    rule: b"A script has at most 16 variables and 256 lines. In an expression, parentheses and signs stand inside each other at
most 32 deep.",
    example: b"    module m;
    global protocol P(role A, role B) { m(Int) from A to B; }
    %% scripts
    role A {
      var a = 0; var b = 0; var c = 0; var d = 0; var e = 0; var f = 0; var g = 0; var h = 0;
      var i = 0; var j = 0; var k = 0; var l = 0; var m = 0; var n = 0; var o = 0; var p = 0;
      var q = 0;
    }
",
    refusal: b"refused 36 TooMany line 7",
    repair: b"write a smaller script.",
    repaired: b"    module m;
    global protocol P(role A, role B) { m(Int) from A to B; }
    %% scripts
    role A {
      var a = 0; var b = 0; var c = 0; var d = 0; var e = 0; var f = 0; var g = 0; var h = 0;
      var i = 0; var j = 0; var k = 0; var l = 0; var m = 0; var n = 0; var o = 0; var p = 0;
    }
",
};
