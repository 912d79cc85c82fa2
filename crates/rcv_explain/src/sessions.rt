// What the code of several sessions says: 55.

use crate::explanation::Explanation;

/// Code 55.
pub const TOO_MUCH: Explanation = Explanation {
    name: b"TooMuch",
    rule: b"Several sessions have at most 3,200,000 events together: roles times `limit` times sessions. If the plan says no
`limit`, it is 10,000.",
    example: b"    $ rcv run --sessions 64
    module m;
    global protocol P(role A, role B) { m() from A to B; }
    %% plan
    limit 100000
",
    refusal: b"refused 55 TooMuch",
    repair: b"write a smaller `limit`, if no role comes to it. Or run fewer sessions at a time, the later ones with greater
counts in the `crash` lines.",
    repaired: b"    $ rcv run --sessions 64
    module m;
    global protocol P(role A, role B) { m() from A to B; }
    %% plan
    limit 25000
",
};
