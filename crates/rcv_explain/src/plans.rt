// What the codes of plans say: 40 to 43.

use crate::explanation::Explanation;

/// Code 40.
pub const TOKEN: Explanation = Explanation {
    name: b"Token",
    rule: b"The items of a plan are `every R n`, `crash R n`, `limit n`, `room n` and `host h = R, R`, with a role for R and
digits for n.",
    example: b"    module m;
    global protocol P(role A, role B) { m() from A to B; }
    %% plan
    crash 1 A
",
    refusal: b"refused 40 Token line 4",
    repair: b"write the item so; `rcv-show points` says what was found and what may stand there. The role stands before the
number, a number has no sign, and a host has at least two roles.",
    repaired: b"    module m;
    global protocol P(role A, role B) { m() from A to B; }
    %% plan
    crash A 1
",
};

/// Code 41.
pub const ROLE: Explanation = Explanation {
    name: b"Role",
    rule: b"The roles of a plan are declared in the protocol.",
    example: b"    module m;
    global protocol P(role A, role B) { m() from A to B; }
    %% plan
    crash C 1
",
    refusal: b"refused 41 Role line 4",
    repair: b"name a declared role.",
    repaired: b"    module m;
    global protocol P(role A, role B) { m() from A to B; }
    %% plan
    crash B 1
",
};

/// Code 42.
pub const TWICE: Explanation = Explanation {
    name: b"Twice",
    rule: b"A plan says each thing once. A role has one `every`, and the plan has one `limit` and one `room`. The crashes of a
role have different numbers. Hosts have different names. A role stands in at most one host, and only once.",
    example: b"    module m;
    global protocol P(role A, role B) { m() from A to B; }
    %% plan
    limit 10
    limit 20
",
    refusal: b"refused 42 Twice line 5",
    repair: b"keep the one that is meant; give each crash of a role a number of its own.",
    repaired: b"    module m;
    global protocol P(role A, role B) { m() from A to B; }
    %% plan
    limit 20
",
};

/// Code 43.
pub const RANGE: Explanation = Explanation {
    name: b"Range",
    rule: b"The number of `every` or `limit` is 1 to 100,000, that of `crash` 0 to 100,000, and that of `room` 1 to 1,024.",
    example: b"    module m;
    global protocol P(role A, role B) { m() from A to B; }
    %% plan
    room 0
",
    refusal: b"refused 43 Range line 4",
    repair: b"write a number in the range, without commas.",
    repaired: b"    module m;
    global protocol P(role A, role B) { m() from A to B; }
    %% plan
    room 1
",
};
