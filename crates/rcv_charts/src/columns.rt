// A column for each role, with its name as the heading.

use crate::shapes::middle_text;
use rcv_picture::letters::{Letters, width_of};
use rcv_picture::look::Look;
use rcv_picture::name_lines::lines_of_name;
use rcv_picture::pixels::Pixels;
use rcv_picture::shape::Shape;
use rcv_tree::name::Names;
use rcv_tree::role::RoleId;
use std::alloc::{AllocError, Global};

/// A protocol has at most so many roles.
pub const ROLES: usize = 8;

/// The headings of roles, which are their names in lines: how wide the widest is, and how high they are.
#[derive(Clone, Copy, Drop)]
pub struct Headings<'a> {
    roles: &'a Names,
    pub width: Pixels,
    pub height: Pixels,
}

/// Columns beside each other: where the first starts, and how wide each is.
#[derive(Clone, Copy, Drop)]
pub struct Columns {
    pub left: Pixels,
    pub width: Pixels,
    /// Which columns have a gap in front of them, and how much of a gap belongs to what is left of it and to what is
    /// right of it.
    pub gaps: [bool; ROLES],
    pub behind: Pixels,
    pub before: Pixels,
}

impl Columns {
    /// Columns without gaps.
    pub fn close(left: Pixels, width: Pixels) -> Columns {
        Columns {
            left,
            width,
            gaps: [false; ROLES],
            behind: Pixels(0),
            before: Pixels(0),
        }
    }

    /// Where the column of a role starts.
    pub fn start(self, role: RoleId) -> Pixels {
        let mut start = self.left + self.width * u32::from(role.0);
        for column in 0..ROLES {
            if self.gaps[column] && column <= role.0 as usize {
                start = start + self.behind + self.before;
            }
        }
        start
    }

    /// Where it ends.
    pub fn end(self, role: RoleId) -> Pixels {
        self.start(role) + self.width
    }

    /// The middle of the column of a role.
    pub fn middle(self, role: RoleId) -> Pixels {
        self.start(role) + self.width.half()
    }
}

impl<'a> Headings<'a> {
    /// The headings of these roles. Fails if memory runs out.
    pub fn of(alloc: Global, roles: &'a Names) -> Result<Headings<'a>, AllocError> {
        let mut width = Pixels(0);
        let mut most = 0;
        for name in roles.as_slice() {
            let lines = lines_of_name(alloc, name.as_slice())?;
            for line in lines.as_slice() {
                width = width.max(width_of(line, Letters::Head));
            }
            most = lines.len().max(most);
        }
        Ok(Headings {
            roles,
            width,
            height: Pixels::of(most) * 15 + Pixels(8),
        })
    }

    /// The lines of the heading of a role. Fails if memory runs out.
    pub fn lines(&self, alloc: Global, role: RoleId) -> Result<Vec<&'a [u8]>, AllocError> {
        lines_of_name(alloc, self.roles.name(role))
    }

    /// Adds the shapes of the heading of a role, below this line. Fails if memory runs out.
    pub fn draw(
        &self,
        alloc: Global,
        shapes: &mut Vec<Shape>,
        columns: Columns,
        role: RoleId,
        top: Pixels,
        look: Look,
    ) -> Result<(), AllocError> {
        let x = columns.middle(role);
        let mut y = top;
        for line in self.lines(alloc, role)?.as_slice() {
            y = y + Pixels(15);
            let words = Vec::from_slice(alloc, line)?;
            shapes.push(middle_text(x, y, look, words))?;
        }
        Ok(())
    }
}
