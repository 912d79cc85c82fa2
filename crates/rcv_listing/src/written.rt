// The lines of the points of an expansion.

ghost use Rattle.std.specs.Prelude.{◌≡◌, IfOk};
ghost use Rattle.rcv_listing.specs.Written.{receiver_line, call_lines, lines_of_point, lines_of_points};

use rcv_module::{Called, Origin};
use rcv_tree::module::Lines;
use std::alloc::{AllocError, Global};

/// Where a point is written: the line of its receiver, and those of the calls through which it came, the outermost first.
#[derive(Drop)]
pub struct PointLines {
    pub line: u32,
    pub calls: Lines,
}

// The line of the receiver of a point that came from there, if the receivers of each protocol stand at these lines; 0
// if none of them is its.
fn receiver_line(receivers: &[Lines], origin: &Origin) -> u32
    ensures { result ≡ receiver_line receivers.now origin.now }
{
    let before = (origin.point.0 as usize).saturating_sub(1);
    match receivers.get(origin.protocol) {
        Some(lines) => lines.as_slice().get(before).copied().unwrap_or(0),
        None => 0,
    }
}

// The lines of these calls, if the words `do` stand at these lines.
fn call_lines(alloc: Global, dos: &[u32], calls: &[Called]) -> Result<Lines, AllocError>
    ensures { IfOk result (λ lines. lines ≡ call_lines dos.now calls.now) }
{
    let mut lines = Lines::new(alloc);
    for call in calls {
        lines.push(dos.get(call.number).copied().unwrap_or(0))?;
    }
    Ok(lines)
}

/// The lines of points that came from there, if the receivers of each protocol stand at these lines, and the words `do`
/// of the module at those. Fails if memory runs out.
pub fn lines_of_points(
    alloc: Global,
    receivers: &[Lines],
    dos: &[u32],
    origins: &[Origin],
) -> Result<Vec<PointLines>, AllocError>
    ensures { IfOk result (λ lines. lines.items ≡ lines_of_points receivers.now dos.now origins.now) }
{
    let mut lines = Vec::new(alloc);
    for origin in origins {
        lines.push(PointLines {
            line: receiver_line(receivers, origin),
            calls: call_lines(alloc, dos, origin.calls.as_slice())?,
        })?;
    }
    Ok(lines)
}
