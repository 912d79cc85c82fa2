// Notes at the foot of a picture.

use crate::shapes::text;
use crate::words::{is_cut, label, widest};
use rcv_picture::letters::Letters;
use rcv_picture::look::Look;
use rcv_picture::pixels::Pixels;
use rcv_picture::shape::Shape;
use rcv_points::points::Points;
use rcv_text::writer::Writer;
use rcv_tree::point::Point;
use std::alloc::{AllocError, Global};

/// Lines at the foot of a picture.
#[derive(Drop)]
pub struct Notes {
    lines: Vec<Vec<u8>>,
}

impl Notes {
    /// No lines. It takes no memory.
    pub fn new(alloc: Global) -> Notes {
        Notes {
            lines: Vec::new(alloc),
        }
    }

    /// Adds a line with a point and the words that stand after it, in full. Fails if memory runs out.
    pub fn add(&mut self, alloc: Global, point: Point, words: &[u8]) -> Result<(), AllocError> {
        let mut line = Writer::new(alloc);
        line.word(b"point ")?;
        line.number(point.0)?;
        line.word(b": ")?;
        line.word(words)?;
        for piece in line.finish().as_slice().chunks(100) {
            self.lines.push(Vec::from_slice(alloc, piece)?)?;
        }
        Ok(())
    }

    /// Adds the label of a point if it is cut elsewhere. Fails if memory runs out.
    pub fn add_cut(
        &mut self,
        alloc: Global,
        points: &Points,
        point: Point,
    ) -> Result<(), AllocError> {
        let whole = label(points, point);
        if is_cut(whole) {
            self.add(alloc, point, whole)?;
        }
        Ok(())
    }

    /// The width of the widest line.
    pub fn width(&self) -> Pixels {
        widest(self.lines.as_slice(), Letters::Small)
    }

    /// How high they are.
    pub fn height(&self) -> Pixels {
        Pixels::of(self.lines.len()) * 14
    }

    /// Adds the shapes of the lines, below this. Fails if memory runs out.
    pub fn draw(
        &self,
        alloc: Global,
        shapes: &mut Vec<Shape>,
        x: Pixels,
        top: Pixels,
    ) -> Result<(), AllocError> {
        let mut y = top;
        for line in self.lines.as_slice() {
            y = y + Pixels(14);
            let words = Vec::from_slice(alloc, line.as_slice())?;
            shapes.push(text(x, y, Look::Note, words))?;
        }
        Ok(())
    }
}
