// The JSON of a protocol that is accepted, of one that a rule refuses, and of inputs that aren't read.

use rcv_points_json::{Listing, points_json};
use std::alloc::Global;
use std::test::Fail;

// The JSON of an input: whether it is refused, and the line.
fn listed(alloc: Global, input: &[u8]) -> Result<(bool, Vec<u8>), Fail> {
    if input.len() > 4096 {
        return Err(Fail::new("too long"));
    }
    match points_json(alloc, input) {
        Ok(Listing::Accepted(text)) => Ok((false, text)),
        Ok(Listing::RuledOut(text) | Listing::HalfRead(text) | Listing::Unread(text)) => Ok((
            true, text,
        )),
        Err(_error) => Err(Fail::new("no memory")),
    }
}

#[test]
fn a_point_has_its_calls(rt: HostRuntime) -> Result<(), Fail> {
    let input =
        b"module m;\nglobal protocol Order(role B, role S) {\n  buy() from B to S;\n  do Answer(S, B);\n}\n\
global protocol Answer(role X, role Y) {\n  sold() from X to Y;\n}\n";
    let (refused, text) = listed(rt.alloc(), input)?;
    assert!(rt; !refused);
    assert!(rt;
        text.as_slice()
            == b"{\"points\":[{\"calls\":[],\"from\":\"B\",\"label\":\"buy\",\"line\":3,\"point\":1,\"to\":\"S\"},\
{\"calls\":[4],\"from\":\"S\",\"label\":\"sold\",\"line\":7,\"point\":2,\"to\":\"B\"}],\"protocol\":\"Order\",\
\"refused\":null,\"roles\":[\"B\",\"S\"]}\n"
                .as_slice()
    );
    Ok(())
}

#[test]
fn a_rule_tells_its_place(rt: HostRuntime) -> Result<(), Fail> {
    let input =
        b"module m;\nglobal protocol P(role A, role B, role C) {\n  choice at A {\n    x() from A to B;\n  } or {\n    \
y() from A to B;\n  }\n  z() from C to B;\n}\n";
    let (refused, text) = listed(rt.alloc(), input)?;
    assert!(rt; refused);
    assert!(rt;
        text.as_slice().ends_with(
            b"],\"protocol\":\"P\",\"refused\":{\"code\":24,\"place\":0,\"role\":\"C\"},\"roles\":[\"A\",\"B\",\"C\"]}\n"
        )
    );
    Ok(())
}

#[test]
fn a_rule_tells_its_point(rt: HostRuntime) -> Result<(), Fail> {
    let input =
        b"module m;\nglobal protocol P(role A, role B) {\n  choice at A {\n    x() from B to A;\n  } or {\n    \
y() from B to A;\n  }\n}\n";
    let (refused, text) = listed(rt.alloc(), input)?;
    assert!(rt; refused);
    assert!(rt;
        text.as_slice().ends_with(
            b"],\"protocol\":\"P\",\"refused\":{\"code\":20,\"point\":1,\"role\":\"A\"},\"roles\":[\"A\",\"B\"]}\n"
        )
    );
    Ok(())
}

#[test]
fn a_wrong_word_is_found(rt: HostRuntime) -> Result<(), Fail> {
    let input = b"module m;\nglobal protocol P(role A, role B) {\n  m(Int) form A to B;\n}\n";
    let (refused, text) = listed(rt.alloc(), input)?;
    assert!(rt; refused);
    assert!(rt;
        text.as_slice()
            == b"{\"points\":[],\"refused\":{\"code\":11,\"column\":10,\"found\":\"form\",\"line\":3,\
\"may\":[\"\\\"from\\\"\"]},\"roles\":[]}\n"
                .as_slice()
    );
    Ok(())
}

#[test]
fn a_call_is_refused_at_its_line(rt: HostRuntime) -> Result<(), Fail> {
    let input = b"module m;\nglobal protocol Main(role A, role B) {\n  do Half(A);\n}\n\
global protocol Half(role X, role Y) {\n  ping() from X to Y;\n}\n";
    let (refused, text) = listed(rt.alloc(), input)?;
    assert!(rt; refused);
    assert!(rt;
        text.as_slice()
            == b"{\"points\":[],\"refused\":{\"code\":52,\"line\":3},\"roles\":[]}\n".as_slice()
    );
    Ok(())
}

#[test]
fn a_plan_is_refused_with_the_points(rt: HostRuntime) -> Result<(), Fail> {
    let input =
        b"module m;\nglobal protocol P(role A, role B) { m(Int) from A to B; }\n%% plan\ncrash 1 A\n";
    let (refused, text) = listed(rt.alloc(), input)?;
    assert!(rt; refused);
    assert!(rt;
        text.as_slice()
            == b"{\"points\":[{\"calls\":[],\"from\":\"A\",\"label\":\"m\",\"line\":2,\"point\":1,\"to\":\"B\"}],\
\"protocol\":\"P\",\"refused\":{\"code\":40,\"column\":7,\"found\":\"1\",\"line\":4,\"may\":[\"a name\"]},\
\"roles\":[\"A\",\"B\"]}\n"
                .as_slice()
    );
    Ok(())
}

#[test]
fn a_bad_letter_is_found(rt: HostRuntime) -> Result<(), Fail> {
    let input = b"module m;\nglobal protocol P(role A, role B) {\n  m(Int) # A to B;\n}\n";
    let (refused, text) = listed(rt.alloc(), input)?;
    assert!(rt; refused);
    assert!(rt;
        text.as_slice()
            == b"{\"points\":[],\"refused\":{\"code\":10,\"column\":10,\"found\":\"#\",\"line\":3,\
\"may\":[\"\\\"from\\\"\"]},\"roles\":[]}\n"
                .as_slice()
    );
    Ok(())
}
