// What fields say.

ghost use Rattle.std.specs.Prelude.{◌≡◌, IfOk, IfSome, IfNone};
ghost use Rattle.rcv_journal.specs.Recorded.{bare};
ghost use Rattle.rcv_lines.specs.Cutting.{texts};
ghost use Rattle.rcv_lines.specs.Fields.{line_fields, SayNothing};
ghost use Rattle.rcv_lines.specs.Line.{IsFormedLine};
ghost use Rattle.rcv_lines.specs.Said.{view_of};

use crate::entries::entry;
use crate::line::Line;
use crate::roles::{end, role_line};
use rcv_accept::accepted::Accepted;
use std::alloc::{AllocError, Global};

// What the fields say. Fails if memory runs out.
#[tactic(auto, using(crate::proofs::Saying::no_line))]
pub fn said(
    alloc: Global,
    accepted: &Accepted,
    fields: &[&[u8]],
) -> Result<Option<Line>, AllocError>
    ensures formed { IfOk result (λ read. IfSome read
        (λ said. IsFormedLine (bare accepted.now.protocol) (view_of said))) }
    ensures some { IfOk result (λ read. IfSome read
        (λ said. texts fields.now ≡ line_fields (bare accepted.now.protocol) (view_of said))) }
    ensures none { IfOk result (λ read. IfNone read (SayNothing (bare accepted.now.protocol) (texts fields.now))) }
{
    if let Some(entry) = entry(accepted, fields) {
        return Ok(Some(Line::Entry(entry)));
    }
    if let Some(line) = role_line(accepted, fields) {
        return Ok(Some(Line::Role(line)));
    }
    match end(alloc, accepted, fields)? {
        Some(roles) => Ok(Some(Line::End(roles))),
        None => Ok(None),
    }
}
