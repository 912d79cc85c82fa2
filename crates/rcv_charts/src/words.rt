// Words that several pictures have: labels of points, and how they are shown.

ghost use Rattle.std.specs.Prelude.{◌≡◌, ◌≤◌, length, IfOk};
ghost use Rattle.rcv_points.specs.Follow.{net_in};
ghost use Rattle.rcv_tables.specs.TableText.{is_own};
ghost use Rattle.rcv_charts.specs.StateTitles.{shown_label};

use rcv_picture::letters::{Letters, width_of};
use rcv_picture::pixels::Pixels;
use rcv_picture::short_name::{LABEL, shortened};
use rcv_points::points::Points;
use rcv_text::writer::Writer;
use rcv_tree::point::Point;
use rcv_tree::role::RoleId;
use std::alloc::{AllocError, Global};

/// Whether the role sends or receives a point of the text.
pub fn owns(points: &Points, role: RoleId, point: Point) -> bool
    requires first { 1 ≤ point }
    requires last { point ≤ length points.now.messages }
    ensures { result ≡ is_own (net_in points.now) role point }
{
    points.sender(point) == role || points.receiver(point) == role
}

/// The label of a point, or nothing if the text has no such point.
pub fn label(points: &Points, point: Point) -> &[u8] {
    if 1 <= point.0 && point.0 <= points.count() {
        points.label(point)
    } else {
        b""
    }
}

/// Whether a label is cut.
pub fn is_cut(label: &[u8]) -> bool {
    label.len() > LABEL
}

/// A label as it is shown: a long one as its first ten letters, three dots and its last five. Fails if memory runs out.
#[tactic(auto, using(crate::proofs::Cutting::is_shown))]
pub fn cut(alloc: Global, label: &[u8]) -> Result<Vec<u8>, AllocError>
    ensures { IfOk result (λ shown. shown.items ≡ shown_label label.now) }
{
    let shown = shortened(alloc, label, LABEL)?;
    Ok(shown)
}

/// A point with its label, as it is shown. Fails if memory runs out.
pub fn point_label(alloc: Global, points: &Points, point: Point) -> Result<Vec<u8>, AllocError> {
    let mut words = Writer::new(alloc);
    words.number(point.0)?;
    words.word(b" ")?;
    words.word(cut(alloc, label(points, point))?.as_slice())?;
    Ok(words.finish())
}

/// Words, one after the other. Fails if memory runs out.
pub fn joined(alloc: Global, first: &[u8], second: &[u8]) -> Result<Vec<u8>, AllocError> {
    let mut words = Vec::from_slice(alloc, first)?;
    words.extend_from_slice(second)?;
    Ok(words)
}

/// The width of the widest of these texts.
pub fn widest(texts: &[Vec<u8>], kind: Letters) -> Pixels {
    let mut most = Pixels(0);
    for text in texts {
        most = most.max(width_of(text.as_slice(), kind));
    }
    most
}
