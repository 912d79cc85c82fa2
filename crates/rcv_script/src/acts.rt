// Which `send` and `on` lines of a script are for a point's label, found once, so that no event looks for them by
// its label. (A choice looks for its `pick` line's label once a choice.)

ghost use Rattle.std.specs.Prelude.{◌≡◌, ◌≤◌, ◌-◌, Some, length, map, slice_get, IfOk};
ghost use Rattle.rcv_script.specs.Lines.{line_of};
ghost use Rattle.rcv_script.specs.Acts.{acts_by_point, on_places, send_place};

use crate::line::Line;
use rcv_lexer::is;
use rcv_points::points::Message;
use rcv_tree::point::Point;
use std::alloc::{AllocError, Global};
use std::marker::Model;

/// The lines of a script that are for a label, by their places in text order from 0.
#[derive(Drop)]
pub struct Acts {
    /// Those that set a variable.
    pub on: Vec<usize>,
    /// The one that says which number is sent; if none does, the place after the last line.
    pub send: usize,
}

impl Model for Acts {
    ghost use Rattle.rcv_script.specs.Acts.{ActsView};

    ghost Value = { ActsView };

    ghost view = { λ a. record { on = a.on.items; send = a.send } };
}

/// The lines of a script that are for each point.
#[derive(Drop)]
pub struct ActsByPoint {
    // By point, less 1.
    acts: Vec<Acts>,
}

impl Model for ActsByPoint {
    ghost use Rattle.std.specs.Prelude.{List};
    ghost use Rattle.rcv_script.specs.Acts.{ActsView};

    ghost Value = { List ActsView };

    ghost view = { λ a. a.acts.items };
}

impl ActsByPoint {
    /// Those of these lines that are for each point, by its message. Fails if memory runs out.
    pub fn of(
        alloc: Global,
        lines: &[Line],
        messages: &[Message],
    ) -> Result<ActsByPoint, AllocError>
        ensures { IfOk result (λ acts. acts ≡ acts_by_point messages.now (map line_of lines.now)) }
    {
        let mut acts = Vec::new(alloc);
        for message in messages {
            let on = on_places(alloc, lines, message.label.as_slice())?;
            let send = send_place(lines, message.label.as_slice());
            acts.push(Acts { on, send })?;
        }
        Ok(ActsByPoint { acts })
    }

    /// The lines that are for a point of the text. It takes no memory.
    #[inline(always)]
    pub fn at(&self, point: Point) -> &Acts
        requires first { 1 ≤ point }
        requires last { point ≤ length self.now }
        ensures { slice_get self.now (point - 1) ≡ Some result.now }
    {
        &self.acts[point.0 as usize - 1]
    }
}

// The places of the lines that set a variable on a label.
fn on_places(alloc: Global, lines: &[Line], label: &[u8]) -> Result<Vec<usize>, AllocError>
    ensures { IfOk result (λ places. places.items ≡ on_places label.now 0 (map line_of lines.now)) }
{
    let mut places = Vec::new(alloc);
    for (place, line) in lines.iter().enumerate() {
        if let Line::On { label: other, .. } = line {
            if is(other.as_slice(), label) {
                places.push(place)?;
            }
        }
    }
    Ok(places)
}

// The place of the first line that sends with a label, or else that after the last line.
fn send_place(lines: &[Line], label: &[u8]) -> usize
    ensures { result ≡ send_place label.now 0 (map line_of lines.now) }
{
    for (place, line) in lines.iter().enumerate() {
        if let Line::Send { label: other, .. } = line {
            if is(other.as_slice(), label) {
                return place;
            }
        }
    }
    lines.len()
}
