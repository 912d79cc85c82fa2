// What one line of a journal says.

ghost use Rattle.std.specs.Prelude.{◌≡◌, IfOk, IfSome, IfNone};
ghost use Rattle.rcv_journal.specs.Recorded.{bare};
ghost use Rattle.rcv_lines.specs.Line.{LineView, SaysLine};
ghost use Rattle.rcv_lines.specs.Said.{view_of};

use crate::fields::fields_of;
use crate::said::said;
use rcv_accept::accepted::Accepted;
use rcv_journal::line::RoleLine;
use rcv_tree::entry::Entry;
use rcv_tree::role::RoleId;
use std::alloc::{AllocError, Global};

/// What a line of a journal says: an entry, how a role ended, or how the session ended. The last is the roles at the
/// limit in order, or none if the session is completed.
#[derive(Drop)]
pub enum Line {
    Entry(Entry),
    Role(RoleLine),
    End(Vec<RoleId>),
}

/// What a line of a journal of this protocol says. The line is given with its line feed. None if no line of the form
/// has this text. Fails if memory runs out.
#[tactic(auto, using(crate::proofs::Texts::other_end, crate::proofs::Texts::no_end))]
pub fn read_line(
    alloc: Global,
    accepted: &Accepted,
    line: &[u8],
) -> Result<Option<Line>, AllocError>
    ensures some { IfOk result (λ read. IfSome read
        (λ said. SaysLine (bare accepted.now.protocol) line.now (view_of said))) }
    ensures none { IfOk result (λ read. IfNone read
        ((said : LineView) → SaysLine (bare accepted.now.protocol) line.now said → ⊥)) }
{
    // Tells the proof that the protocol is accepted.
    let _protocol = accepted.protocol();
    let Some((last, text)) = line.split_last() else {
        return Ok(None);
    };
    if *last != b'\n' {
        return Ok(None);
    }
    let fields = fields_of(alloc, text)?;
    said(alloc, accepted, fields.as_slice())
}
