// A drawing that grows: groups with titles, and shapes below and above them.

ghost use Rattle.std.specs.Prelude.{◌≡◌, ◌≤◌, ◌<◌, [], ◌∷◌, ◌++◌, IfOk, OnOk, IsTrue};
ghost use Rattle.rcv_charts.specs.Titles.{is_titled, has_title, titled_of};
ghost use Rattle.rcv_charts.specs.Drawn.{DrawingView, with_groups};
ghost use Rattle.rcv_charts.specs.Chart.{IsBelow, Moves};

use rcv_picture::group::{Group, Says};
use rcv_picture::picture::Picture;
use rcv_picture::pixels::Pixels;
use rcv_picture::shape::Shape;
use std::alloc::{AllocError, Global};
use std::marker::Model;

/// What was drawn so far, and how far down. Contracts see the groups with a title, and how far down.
#[derive(Drop)]
pub struct Drawing {
    below: Vec<Shape>,
    groups: Vec<Group>,
    above: Vec<Shape>,
    down: Pixels,
}

impl Model for Drawing {
    ghost use Rattle.rcv_charts.specs.Drawn.{DrawingView};
    ghost use Rattle.rcv_charts.specs.Titles.{titled_in};

    ghost Value = { DrawingView };

    ghost view = { λ a. record { groups = titled_in a.groups.items; down = a.down.0 } };
}

impl Drawing {
    /// The empty drawing. It takes no memory.
    pub fn new(alloc: Global) -> Drawing
        ensures { result ≡ record { groups = []; down = 0 } }
    {
        Drawing {
            below: Vec::new(alloc),
            groups: Vec::new(alloc),
            above: Vec::new(alloc),
            down: Pixels(0),
        }
    }

    /// An empty drawing that begins as far down as this one has come. It takes no memory.
    pub fn inner(&self, alloc: Global) -> Drawing
        ensures { result ≡ record { groups = []; down = self.now.down } }
    {
        let mut inner = Drawing::new(alloc);
        inner.down = self.down;
        inner
    }

    /// How far down it goes.
    pub fn down(&self) -> Pixels
        ensures { result.0 ≡ self.now.down }
    {
        self.down
    }

    /// It goes on so far further down.
    pub fn skip(&mut self, more: Pixels)
        ensures moves { Moves self.old self.new }
        ensures below { 0 < more.0 → IsBelow self.old.down self.new.down }
    {
        self.down = Pixels(self.down.0.saturating_add(more.0));
    }

    /// It goes on so far down, which may be further up than it has come.
    pub fn go_to(&mut self, down: Pixels)
        ensures { self.new ≡ record { groups = self.old.groups; down = down.0 } }
    {
        self.down = down;
    }

    /// Adds a shape below the groups. Fails if memory runs out.
    pub fn put_below(&mut self, shape: Shape) -> Result<(), AllocError>
        ensures { self.new ≡ self.old }
    {
        self.below.push(shape)?;
        Ok(())
    }

    /// Adds shapes below the groups. Fails if memory runs out.
    pub fn put_all_below(&mut self, mut shapes: Vec<Shape>) -> Result<(), AllocError>
        ensures { self.new ≡ self.old }
    {
        self.below.append(&mut shapes)
    }

    /// Adds a shape above the groups. Fails if memory runs out.
    pub fn put_above(&mut self, shape: Shape) -> Result<(), AllocError>
        ensures { self.new ≡ self.old }
    {
        self.above.push(shape)?;
        Ok(())
    }

    /// Adds a group that has a title. Fails if memory runs out.
    pub fn put_group(&mut self, group: Group) -> Result<(), AllocError>
        requires { IsTrue (has_title group) }
        ensures { OnOk result (self.new ≡ with_groups self.old (group ∷ [])) }
    {
        self.groups.push(group)?;
        Ok(())
    }

    /// After a frame, adds what was drawn inside it, and goes on so far down. Fails if memory runs out.
    pub fn put_inner(&mut self, mut inner: Drawing, down: Pixels) -> Result<(), AllocError>
        ensures { OnOk result (self.new ≡ record { groups = self.old.groups ++ inner.groups; down = down.0 }) }
    {
        self.below.append(&mut inner.below)?;
        self.groups.append(&mut inner.groups)?;
        self.above.append(&mut inner.above)?;
        self.down = down;
        Ok(())
    }

    /// The picture of what was drawn, so wide and as high as the drawing goes down, with some shapes below it all.
    /// Fails if memory runs out.
    pub fn picture(
        mut self,
        alloc: Global,
        width: Pixels,
        title: Vec<u8>,
        description: Vec<u8>,
        ground: Vec<Shape>,
    ) -> Result<Picture, AllocError>
        ensures groups { IfOk result (λ picture. titled_of picture ≡ self.groups) }
        ensures height { IfOk result (λ picture. picture.height.0 ≡ self.down) }
    {
        let mut groups = Vec::new(alloc);
        groups.push(untitled(alloc, ground))?;
        groups.push(untitled(alloc, self.below))?;
        groups.append(&mut self.groups)?;
        groups.push(untitled(alloc, self.above))?;
        Ok(Picture {
            width,
            height: self.down,
            title,
            description,
            groups,
        })
    }
}

/// Shapes of this title.
pub fn titled(title: Vec<u8>, shapes: Vec<Shape>) -> Group
    requires { IsTrue (is_titled title.items) }
    ensures title { result.title ≡ title }
    ensures shapes { result.shapes ≡ shapes }
    ensures titled { IsTrue (has_title result) }
{
    Group {
        says: Says::Nothing,
        title,
        shapes,
    }
}

// Shapes that have no title.
fn untitled(alloc: Global, shapes: Vec<Shape>) -> Group
    ensures { result.title.items ≡ [] }
{
    Group {
        says: Says::Nothing,
        title: Vec::new(alloc),
        shapes,
    }
}
