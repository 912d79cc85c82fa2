// How the roles of a journal ended.

ghost use Rattle.std.specs.Prelude.{◌≡◌, IfOk};
ghost use Rattle.rcv_scene.specs.Ends.{end_in, ends_in};

use rcv_journal::line::{RoleLine, RoleWord};
use rcv_tree::role::RoleId;
use std::alloc::{AllocError, Global};

/// How a role ended.
#[derive(Clone, Copy, Debug, PartialEq, Eq)]
pub enum End {
    /// Nothing is next for it.
    Done,
    /// It made as many events as the limit allows.
    Limit,
    /// Neither: it waits for a message, or for room in a channel.
    Waits,
    /// It crashed, and didn't recover.
    Down,
}

/// Where a role is at the end: how many of its events it kept, of how many that it made.
#[derive(Clone, Copy, Debug, PartialEq, Eq)]
pub struct RoleEnd {
    pub role: RoleId,
    pub kept: u32,
    pub raw: u32,
    pub end: End,
}

// What a line of a journal says.
fn end_of(line: &RoleLine) -> RoleEnd
    ensures { result ≡ end_in line.now }
{
    RoleEnd {
        role: line.role,
        kept: line.kept,
        raw: line.raw,
        end: match line.word {
            RoleWord::Done => End::Done,
            RoleWord::Limit => End::Limit,
            RoleWord::Waits => End::Waits,
        },
    }
}

/// What these lines of a journal say. Fails if memory runs out.
pub fn ends_of(alloc: Global, lines: &[RoleLine]) -> Result<Vec<RoleEnd>, AllocError>
    ensures { IfOk result (λ ends. ends.items ≡ ends_in lines.now) }
{
    let mut ends = Vec::new(alloc);
    for line in lines {
        ends.push(end_of(line))?;
    }
    Ok(ends)
}
