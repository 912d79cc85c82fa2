// Parts of an input, and the tokens of one with the places at which they stand.

use crate::token::{Kind, Span};
use crate::{split, tokens};
use std::test::Fail;

#[test]
fn tokens_of_the_middle_part(rt: HostRuntime) -> Result<(), Fail> {
    let bundle = b"ab;\n%% scripts\n /**/x1\n<= 12%% plan\n";
    let parts = split(bundle);
    assert!(rt; parts.scripts == Span { start: 15, end: 36 });
    let list = tokens(
        rt.alloc(),
        b"ab\n /**/x1\n<= 12",
        Span { start: 2, end: 16 },
    )?;
    assert!(rt; list.len() == 3);
    let mark = list.get(1).ok_or("none")?;
    assert!(rt; mark.kind() == Kind::Mark);
    assert!(rt; mark.span() == Span { start: 11, end: 13 });
    assert!(rt; mark.line() == 3);
    Ok(())
}
