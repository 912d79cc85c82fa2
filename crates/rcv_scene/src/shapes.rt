// Lists of shapes that grow.

ghost use Rattle.std.specs.Prelude.{◌≡◌, [], ◌∷◌, ◌++◌, OnOk};
ghost use Rattle.rcv_scene.specs.Seen.{Stroke, Frame, Disc, Way, Words, seen, drawn_in, cross, strike_seen, label_seen, labels_seen};

use crate::spans::{at, back, further};
use rcv_picture::look::Look;
use rcv_picture::pixels::{At, Pixels};
use rcv_picture::shape::{Anchor, Shape};
use std::alloc::{AllocError, Global};

/// Shapes, in order. Each call that adds one fails if memory runs out.
#[derive(Drop)]
pub struct Shapes {
    alloc: Global,
    items: Vec<Shape>,
}

/// A text beside a mark, with a line through it or without one.
#[derive(Drop)]
pub struct Label {
    pub place: At,
    pub anchor: Anchor,
    pub look: Look,
    pub text: Vec<u8>,
    /// From where to where the line goes.
    pub strike: Option<(At, At)>,
}

impl Shapes {
    /// No shapes.
    pub fn new(alloc: Global) -> Shapes
        ensures { drawn_in result ≡ [] }
    {
        Shapes {
            alloc,
            items: Vec::new(alloc),
        }
    }

    /// The shapes.
    pub fn finish(self) -> Vec<Shape>
        ensures { seen result.items ≡ drawn_in self }
    {
        let Shapes { alloc: _, items } = self;
        items
    }

    /// Adds a line.
    #[tactic(auto, using(crate::proofs::Seeing::one_more))]
    pub fn line(&mut self, from: At, to: At, look: Look) -> Result<(), AllocError>
        ensures { OnOk result (drawn_in self.new ≡ drawn_in self.old ++ Stroke from to look ∷ []) }
    {
        self.items.push(Shape::Line { from, to, look })?;
        Ok(())
    }

    /// Adds a cross around a place, so large to each side.
    pub fn cross(&mut self, center: At, size: u32) -> Result<(), AllocError>
        ensures { OnOk result (drawn_in self.new ≡ drawn_in self.old ++ cross center size) }
    {
        let left = back(center.x, size);
        let right = further(center.x, size);
        let top = back(center.y, size);
        let bottom = further(center.y, size);
        self.line(at(left, top), at(right, bottom), Look::Crash)?;
        self.line(at(left, bottom), at(right, top), Look::Crash)
    }

    /// Adds a rectangle with corners so round.
    #[tactic(auto, using(crate::proofs::Seeing::one_more))]
    pub fn rect(
        &mut self,
        corner: At,
        width: Pixels,
        height: Pixels,
        round: Pixels,
        look: Look,
    ) -> Result<(), AllocError>
        ensures { OnOk result (drawn_in self.new ≡ drawn_in self.old ++ Frame corner width height round look ∷ []) }
    {
        self.items.push(Shape::Rect {
            corner,
            width,
            height,
            round,
            look,
        })?;
        Ok(())
    }

    /// Adds a circle.
    #[tactic(auto, using(crate::proofs::Seeing::one_more))]
    pub fn circle(&mut self, center: At, radius: Pixels, look: Look) -> Result<(), AllocError>
        ensures { OnOk result (drawn_in self.new ≡ drawn_in self.old ++ Disc center radius look ∷ []) }
    {
        self.items.push(Shape::Circle {
            center,
            radius,
            look,
        })?;
        Ok(())
    }

    /// Adds lines from place to place.
    #[tactic(auto, using(crate::proofs::Seeing::one_more))]
    pub fn path(&mut self, places: Vec<At>, look: Look) -> Result<(), AllocError>
        ensures { OnOk result (drawn_in self.new ≡ drawn_in self.old ++ Way places.items look ∷ []) }
    {
        self.items.push(Shape::Path { places, look })?;
        Ok(())
    }

    /// Adds a text.
    #[tactic(auto, using(crate::proofs::Seeing::one_more))]
    pub fn text(
        &mut self,
        at: At,
        anchor: Anchor,
        look: Look,
        text: Vec<u8>,
    ) -> Result<(), AllocError>
        ensures { OnOk result (drawn_in self.new ≡ drawn_in self.old ++ Words at anchor look text.items ∷ []) }
    {
        self.items.push(Shape::Text {
            place: at,
            anchor,
            look,
            text,
        })?;
        Ok(())
    }

    /// Adds words as a text.
    pub fn words(
        &mut self,
        at: At,
        anchor: Anchor,
        look: Look,
        words: &[u8],
    ) -> Result<(), AllocError>
        ensures { OnOk result (drawn_in self.new ≡ drawn_in self.old ++ Words at anchor look words.now ∷ []) }
    {
        let text = Vec::from_slice(self.alloc, words)?;
        self.text(at, anchor, look, text)
    }

    // Adds a line through a text, if there is one.
    fn strike(&mut self, strike: Option<(At, At)>) -> Result<(), AllocError>
        ensures { OnOk result (drawn_in self.new ≡ drawn_in self.old ++ strike_seen strike) }
    {
        match strike {
            Some((from, to)) => self.line(from, to, Look::Strike),
            None => Ok(()),
        }
    }

    // Adds a label.
    fn some_label(&mut self, label: Label) -> Result<(), AllocError>
        ensures { OnOk result (drawn_in self.new ≡ drawn_in self.old ++ label_seen label) }
    {
        self.text(label.place, label.anchor, label.look, label.text)?;
        self.strike(label.strike)
    }

    /// Adds a label, if there is one.
    pub fn label(&mut self, label: Option<Label>) -> Result<(), AllocError>
        ensures { OnOk result (drawn_in self.new ≡ drawn_in self.old ++ labels_seen label) }
    {
        match label {
            Some(label) => self.some_label(label),
            None => Ok(()),
        }
    }
}
