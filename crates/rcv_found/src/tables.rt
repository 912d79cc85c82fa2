// What each grammar has words and kinds for.

ghost use Rattle.std.specs.Prelude.{◌≡◌};
ghost use Rattle.rcv_found.specs.Tables.{protocol_things, script_things, plan_things};

use crate::thing::Thing;

/// Those of protocols.
pub fn protocol_things() -> [Thing; 29]
    ensures { result ≡ protocol_things }
{
    [
        Thing::name(),
        Thing::word(b"module"),
        Thing::free_word(b"type"),
        Thing::free_word(b"data"),
        Thing::free_word(b"as"),
        Thing::word(b"global"),
        Thing::word(b"protocol"),
        Thing::word(b"role"),
        Thing::word(b"from"),
        Thing::word(b"to"),
        Thing::word(b"choice"),
        Thing::word(b"at"),
        Thing::word(b"or"),
        Thing::word(b"rec"),
        Thing::word(b"continue"),
        Thing::word(b"par"),
        Thing::word(b"and"),
        Thing::word(b"do"),
        Thing::mark(b"{"),
        Thing::mark(b"}"),
        Thing::mark(b"("),
        Thing::mark(b")"),
        Thing::mark(b","),
        Thing::mark(b";"),
        Thing::mark(b"."),
        Thing::mark(b"<"),
        Thing::mark(b">"),
        Thing::text(),
        Thing::end(),
    ]
}

/// Those of scripts.
pub fn script_things() -> [Thing; 25]
    ensures { result ≡ script_things }
{
    [
        Thing::name(),
        Thing::number(),
        Thing::free_word(b"role"),
        Thing::free_word(b"var"),
        Thing::free_word(b"send"),
        Thing::free_word(b"pick"),
        Thing::free_word(b"when"),
        Thing::free_word(b"on"),
        Thing::free_word(b"set"),
        Thing::mark(b"{"),
        Thing::mark(b"}"),
        Thing::mark(b"("),
        Thing::mark(b")"),
        Thing::mark(b";"),
        Thing::mark(b"="),
        Thing::mark(b"<"),
        Thing::mark(b"<="),
        Thing::mark(b"=="),
        Thing::mark(b"!="),
        Thing::mark(b">"),
        Thing::mark(b">="),
        Thing::mark(b"+"),
        Thing::mark(b"-"),
        Thing::mark(b"*"),
        Thing::end(),
    ]
}

/// Those of plans.
pub fn plan_things() -> [Thing; 10]
    ensures { result ≡ plan_things }
{
    [
        Thing::name(),
        Thing::number(),
        Thing::free_word(b"every"),
        Thing::free_word(b"crash"),
        Thing::free_word(b"limit"),
        Thing::free_word(b"room"),
        Thing::free_word(b"host"),
        Thing::mark(b"="),
        Thing::mark(b","),
        Thing::end(),
    ]
}
