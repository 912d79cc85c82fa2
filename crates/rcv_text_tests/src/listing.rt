// Listings of a protocol that is accepted, of one that a rule refuses, and of inputs that aren't read.

use rcv_listing::{Listing, points_text};
use std::alloc::Global;
use std::test::Fail;

// The listing of an input: whether it is refused, and the text.
fn listed(alloc: Global, input: &[u8]) -> Result<(bool, Vec<u8>), Fail> {
    if input.len() > 4096 {
        return Err(Fail::new("too long"));
    }
    match points_text(alloc, input) {
        Ok(Listing::Accepted(text)) => Ok((false, text)),
        Ok(Listing::RuledOut(text) | Listing::HalfRead(text) | Listing::Unread(text)) => Ok((
            true, text,
        )),
        Err(_error) => Err(Fail::new("no memory")),
    }
}

#[test]
fn each_receiver_has_its_line(rt: HostRuntime) -> Result<(), Fail> {
    let input =
        b"module m;\ntype <s> \"to\" from \"to B;\" as T; // to B\nglobal protocol P(role A, role B, role C) {\n  \
m(T, T) from A to B,\n    C; n() from B to A;\n}\n%% plan\ncrash A 1";
    let (refused, text) = listed(rt.alloc(), input)?;
    assert!(rt; !refused);
    assert!(rt;
        text.as_slice()
            == b"1 line 4 m from A to B\n2 line 5 m from A to C\n3 line 5 n from B to A\n".as_slice()
    );
    Ok(())
}

#[test]
fn each_call_has_its_line(rt: HostRuntime) -> Result<(), Fail> {
    let input =
        b"module m;\nglobal protocol Main(role A, role B, role C) {\n  start() from C to A,\n    B;\n  do Twice(A, B);\n\
  do Once(B, C); }\nglobal protocol Twice(role X, role Y) {\n  do Once(X, Y);\n  do Once(Y, X);\n}\n\
global protocol Once(role X, role Y) {\n  ping() from X to\n    Y;\n}\n";
    let (refused, text) = listed(rt.alloc(), input)?;
    assert!(rt; !refused);
    assert!(rt;
        text.as_slice()
            == b"1 line 3 start from C to A\n2 line 4 start from C to B\n\
3 line 13 ping from A to B do line 5 do line 8\n4 line 13 ping from B to A do line 5 do line 9\n\
5 line 13 ping from B to C do line 6\n"
                .as_slice()
    );
    Ok(())
}

#[test]
fn a_refused_call_is_not_listed(rt: HostRuntime) -> Result<(), Fail> {
    let input = b"module m;\nglobal protocol Main(role A, role B) {\n  do Half(A);\n}\n\
global protocol Half(role X, role Y) {\n  ping() from X to Y;\n}\n";
    let (refused, text) = listed(rt.alloc(), input)?;
    assert!(rt; refused);
    assert!(rt;
        text.as_slice()
            .starts_with(b"refused 52 Arity line 3\nA `do` names as many roles")
    );
    Ok(())
}

#[test]
fn a_wrong_word_is_named(rt: HostRuntime) -> Result<(), Fail> {
    let input = b"module m;\nglobal protocol P(role A, role B) {\n  m(Int) form A to B;\n}\n";
    let (refused, text) = listed(rt.alloc(), input)?;
    assert!(rt; refused);
    assert!(rt;
        text.as_slice().starts_with(
            b"refused 11 Token line 3\nfound \"form\" at line 3, column 10\nmay stand here: \"from\"\n"
        )
    );
    Ok(())
}

#[test]
fn a_bad_letter_is_named(rt: HostRuntime) -> Result<(), Fail> {
    let input = b"module m;\nglobal protocol P(role A, role B) {\n  m(Int) # A to B;\n}\n";
    let (refused, text) = listed(rt.alloc(), input)?;
    assert!(rt; refused);
    assert!(rt;
        text.as_slice().starts_with(
            b"refused 10 Letter line 3\nfound \"#\" at line 3, column 10\nmay stand here: \"from\"\n"
        )
    );
    Ok(())
}

#[test]
fn nothing_may_stand_after_a_wrong_word(rt: HostRuntime) -> Result<(), Fail> {
    let input = b"module m;\nglobal protocol P(role A, role B) {\n  m(Int) form A \"B;\n}\n";
    let (refused, text) = listed(rt.alloc(), input)?;
    assert!(rt; refused);
    assert!(rt;
        text.as_slice().starts_with(
            b"refused 10 Letter line 3\nfound a text in quotes that doesn't end on its line, or is too long at \
line 3, column 17\nEach word"
        )
    );
    Ok(())
}

#[test]
fn the_end_is_named(rt: HostRuntime) -> Result<(), Fail> {
    let input = b"module m;\nglobal protocol P(role A, role B) {\n  m(Int) from A to B;\n";
    let (refused, text) = listed(rt.alloc(), input)?;
    assert!(rt; refused);
    assert!(rt;
        text.as_slice().starts_with(
            b"refused 11 Token line 4\nfound the end of the text at line 4, column 1\n\
may stand here: a name, \"choice\", \"rec\", \"continue\", \"par\", \"do\", \"}\"\n"
        )
    );
    Ok(())
}

#[test]
fn a_plan_is_refused_after_the_points(rt: HostRuntime) -> Result<(), Fail> {
    let input =
        b"module m;\nglobal protocol P(role A, role B) { m(Int) from A to B; }\n%% plan\ncrash 1 A\n";
    let (refused, text) = listed(rt.alloc(), input)?;
    assert!(rt; refused);
    assert!(rt;
        text.as_slice().starts_with(
            b"1 line 2 m from A to B\n\nrefused 40 Token line 4\nfound \"1\" at line 4, column 7\n\
may stand here: a name\n"
        )
    );
    Ok(())
}

#[test]
fn a_rule_tells_its_place(rt: HostRuntime) -> Result<(), Fail> {
    let input =
        b"module m;\nglobal protocol P(role A, role B, role C) {\n  a() from C to A;\n  choice at A {\n    \
x() from A to B;\n  } or {\n    y() from A to B;\n  }\n  z() from C to B;\n}\n";
    let (refused, text) = listed(rt.alloc(), input)?;
    assert!(rt; refused);
    assert!(rt;
        text.as_slice().starts_with(
            b"1 line 3 a from C to A\n2 line 5 x from A to B\n3 line 7 y from A to B\n4 line 9 z from C to B\n\n\
refused 24 NotEnabled C 1\nC is after its point 1, line 3. Its next points there:\n4 line 9 z from C to B\n\
The choice whose first message is point 2, line 5, stands in its way. There A decides.\nBetween a "
        )
    );
    Ok(())
}
