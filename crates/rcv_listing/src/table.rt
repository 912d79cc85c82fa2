// The points of a text by line.

ghost use Rattle.std.specs.Prelude.{◌≡◌, ◌≤◌, ◌++◌, length, OnOk};
ghost use Rattle.rcv_tree.specs.Names.{name_at};
ghost use Rattle.rcv_points.specs.Follow.{net_in};
ghost use Rattle.rcv_accept.specs.Lists.{AreInText};
ghost use Rattle.rcv_listing.specs.Lines.{line_of, calls_of, calls_text, message_text, point_text, points_text, all_text};

use crate::written::PointLines;
use rcv_points::points::Points;
use rcv_text::writer::Writer;
use rcv_tree::name::Names;
use rcv_tree::point::Point;
use rcv_tree::role::RoleId;
use std::alloc::AllocError;

/// The points of a text, the names of its roles, and the lines of each point.
#[derive(Drop)]
pub struct Table<'a> {
    pub points: &'a Points,
    pub roles: &'a Names,
    pub lines: &'a [PointLines],
}

// Writes the lines of calls. Fails if memory runs out.
fn write_calls(text: &mut Writer, lines: &[u32]) -> Result<(), AllocError>
    ensures { OnOk result (text.new ≡ text.old ++ calls_text lines.now) }
{
    for line in lines {
        text.word(b" do line ")?;
        text.large_number(*line as u64)?;
    }
    Ok(())
}

impl Table<'_> {
    /// The name of a role; the empty one if there is no such role.
    pub fn name(&self, role: RoleId) -> &[u8]
        ensures { result.now ≡ name_at self.now.roles.now role }
    {
        self.roles.name(role)
    }

    /// The line of a point; 0 if there is no such point.
    pub fn line(&self, point: Point) -> u32
        ensures { result ≡ line_of self.now.lines.now point }
    {
        match self.lines.get((point.0 as usize).saturating_sub(1)) {
            Some(lines) => lines.line,
            None => 0,
        }
    }

    /// The lines of the calls through which a point came; none if there is no such point.
    pub fn calls(&self, point: Point) -> &[u32]
        ensures { result.now ≡ calls_of self.now.lines.now point }
    {
        match self.lines.get((point.0 as usize).saturating_sub(1)) {
            Some(lines) => lines.calls.as_slice(),
            None => &[],
        }
    }

    // Writes the message of a point. Fails if memory runs out.
    fn write_message(&self, text: &mut Writer, point: Point) -> Result<(), AllocError>
        requires first { 1 ≤ point }
        requires last { point ≤ length self.now.points.now.messages }
        ensures { OnOk result (text.new ≡ text.old
            ++ message_text self.now.roles.now (net_in self.now.points.now) self.now.lines.now point) }
    {
        text.number(point.0)?;
        text.word(b" line ")?;
        text.large_number(self.line(point) as u64)?;
        text.word(b" ")?;
        text.word(self.points.label(point))?;
        text.word(b" from ")?;
        text.word(self.name(self.points.sender(point)))?;
        text.word(b" to ")?;
        text.word(self.name(self.points.receiver(point)))
    }

    /// Writes the line of a point, with the lines of its calls. Fails if memory runs out.
    pub fn write_point(&self, text: &mut Writer, point: Point) -> Result<(), AllocError>
        requires first { 1 ≤ point }
        requires last { point ≤ length self.now.points.now.messages }
        ensures { OnOk result (text.new ≡ text.old
            ++ point_text self.now.roles.now (net_in self.now.points.now) self.now.lines.now point) }
    {
        self.write_message(text, point)?;
        write_calls(text, self.calls(point))?;
        text.word(b"\n")
    }

    /// Writes the lines of these points. Fails if memory runs out.
    pub fn write_points(&self, text: &mut Writer, points: &[Point]) -> Result<(), AllocError>
        requires { AreInText (net_in self.now.points.now) points.now }
        ensures { OnOk result (text.new ≡ text.old
            ++ points_text self.now.roles.now (net_in self.now.points.now) self.now.lines.now points.now) }
    {
        for point in points {
            self.write_point(text, *point)?;
        }
        Ok(())
    }

    /// Writes the lines of all points. Fails if memory runs out.
    pub fn write_all(&self, text: &mut Writer) -> Result<(), AllocError>
        ensures { OnOk result (text.new ≡ text.old
            ++ all_text self.now.roles.now (net_in self.now.points.now) self.now.lines.now) }
    {
        for before in 0..self.points.count() {
            self.write_point(text, Point(before + 1))?;
        }
        Ok(())
    }
}
