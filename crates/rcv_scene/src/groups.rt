// The groups of a picture. Each says one thing.

ghost use Rattle.std.specs.Prelude.{◌≡◌, [], ◌∷◌, IfOk, OnOk};
ghost use Rattle.rcv_core.specs.Book.{BookView};
ghost use Rattle.rcv_fates.specs.Record.{journal_of};
ghost use Rattle.rcv_scene.specs.Seen.{seen};
ghost use Rattle.rcv_scene.specs.Grid.{Scene, scene_of};
ghost use Rattle.rcv_scene.specs.Feet.{AddsGroup};
ghost use Rattle.rcv_scene.specs.Drawn.{IsDrawn};
ghost use Rattle.rcv_scene.specs.Told.{Adds, IsTitle};

use crate::folds::fold_shapes;
use crate::layout::Layout;
use crate::line::line_at;
use crate::marks::mark_shapes;
use crate::routes::Routes;
use crate::wires::{wire_shapes, wire_title};
use rcv_fates::Record;
use rcv_picture::group::{Group, Says};
use rcv_picture::shape::Shape;
use std::alloc::{AllocError, Global};

// The shapes of what is said: those of a message take the way with this number.
fn shapes_of(
    layout: &Layout<'_>,
    routes: &Routes,
    number: usize,
    says: &Says,
) -> Result<Vec<Shape>, AllocError>
    ensures { IfOk result (λ shapes. IsDrawn (scene_of layout.now) says.now (seen shapes.items)) }
{
    match says {
        Says::Entry { place, undone } => mark_shapes(layout, routes, *place, *undone),
        Says::Fold { first, end, counts } => fold_shapes(layout, *first, *end, counts),
        Says::Arrow {
            send,
            receive,
            undone,
        } => wire_shapes(layout, *send, *receive, routes.lane(number), *undone),
        Says::Nothing => Ok(Vec::new(layout.alloc)),
    }
}

// The title of what is said.
fn title_of(alloc: Global, record: &Record<'_>, says: &Says) -> Result<Vec<u8>, AllocError>
    ensures { IfOk result (λ title. IsTitle (journal_of record.now) says.now title.items) }
{
    match says {
        Says::Entry { place, .. } => line_at(alloc, record, *place),
        Says::Arrow { send, receive, .. } => wire_title(alloc, *send, *receive),
        Says::Fold { .. } | Says::Nothing => Ok(Vec::new(alloc)),
    }
}

// Adds what says this.
fn add_one(
    groups: &mut Vec<Group>,
    alloc: Global,
    record: &Record<'_>,
    says: &Says,
    shapes: Vec<Shape>,
) -> Result<(), AllocError>
    ensures { OnOk result ((scene : Scene) → IsDrawn scene says.now (seen shapes.items)
        → Adds (journal_of record.now) scene groups.old.items groups.new.items (says.now ∷ [])) }
{
    let title = title_of(alloc, record, says)?;
    groups.push(Group {
        says: *says,
        title,
        shapes,
    })?;
    Ok(())
}

/// Adds a group for each of these, in order: each says what it stands for. Fails if memory runs out.
pub fn add_all(
    groups: &mut Vec<Group>,
    alloc: Global,
    record: &Record<'_>,
    layout: &Layout<'_>,
    routes: &Routes,
    all: &[Says],
) -> Result<(), AllocError>
    ensures { OnOk result (Adds (journal_of record.now) (scene_of layout.now) groups.old.items groups.new.items all.now) }
{
    for (number, says) in all.iter().enumerate() {
        let shapes = shapes_of(layout, routes, number, says)?;
        add_one(groups, alloc, record, says, shapes)?;
    }
    Ok(())
}

/// Adds a group that says nothing of its own. Fails if memory runs out.
pub fn add_silent(
    groups: &mut Vec<Group>,
    title: Vec<u8>,
    shapes: Vec<Shape>,
) -> Result<(), AllocError>
    ensures silent { OnOk result ((book : BookView) (scene : Scene) → Adds book scene groups.old.items groups.new.items []) }
    ensures grown { OnOk result (AddsGroup groups.old.items groups.new.items (seen shapes.items)) }
{
    groups.push(Group {
        says: Says::Nothing,
        title,
        shapes,
    })?;
    Ok(())
}
