// The picture of a journal.

ghost use Rattle.std.specs.Prelude.{◌≡◌, ◌++◌, [], IfOk, OnOk};
ghost use Rattle.rcv_core.specs.Book.{BookView};
ghost use Rattle.rcv_fates.specs.Record.{journal_of};
ghost use Rattle.rcv_scene.specs.Grid.{Scene, grid_of, scene_of};
ghost use Rattle.rcv_scene.specs.Feet.{HasFeet};
ghost use Rattle.rcv_scene.specs.Heads.{HasHeads};
ghost use Rattle.rcv_scene.specs.Drawn.{AreMarks, IsPlanOf, IsDrawnOnGrid};
ghost use Rattle.rcv_scene.specs.Told.{told, said, Adds, AreTitled};

use crate::bar::bar;
use crate::cast::Cast;
use crate::ends::RoleEnd;
use crate::feet::{feet, long_labels};
use crate::groups::{add_all, add_silent};
use crate::heads::heads;
use crate::layout::{FOOT, Layout, lay_out};
use crate::legend::legend;
use crate::life::lives;
use crate::line::line_at;
use crate::recoveries::zones;
use crate::routes::{Routes, find_routes};
use crate::wires::{loose_shapes, loose_title};
use crate::wording::{Piece, text_of};
use rcv_fates::Record;
use rcv_picture::group::{Group, Says};
use rcv_picture::picture::Picture;
use rcv_picture::pixels::Pixels;
use rcv_picture::shape::Shape;
use rcv_story::story::Story;
use std::alloc::{AllocError, Global};

// What lies behind all: the undone parts, and the lines of life.
fn add_background(groups: &mut Vec<Group>, layout: &Layout<'_>) -> Result<(), AllocError>
    ensures { OnOk result ((book : BookView) (scene : Scene) → Adds book scene groups.old.items groups.new.items []) }
{
    add_silent(groups, Vec::new(layout.alloc), zones(layout)?)?;
    add_silent(groups, Vec::new(layout.alloc), lives(layout)?)?;
    Ok(())
}

// The messages that aren't received. They come after so many wires.
fn add_loose(
    groups: &mut Vec<Group>,
    layout: &Layout<'_>,
    routes: &Routes,
    wires: usize,
) -> Result<(), AllocError>
    ensures { OnOk result ((book : BookView) (scene : Scene) → Adds book scene groups.old.items groups.new.items []) }
{
    for (number, route) in routes.routes.iter().enumerate().skip(wires) {
        let title = loose_title(layout.alloc, route)?;
        let shapes = loose_shapes(layout, route, routes.is_first_dropped(number))?;
        add_silent(groups, title, shapes)?;
    }
    Ok(())
}

// What stands above the columns: the title, the heads, and the bar.
fn add_above(groups: &mut Vec<Group>, layout: &Layout<'_>) -> Result<(), AllocError>
    ensures silent { OnOk result ((book : BookView) (scene : Scene) → Adds book scene groups.old.items groups.new.items []) }
    ensures heads { OnOk result (HasHeads layout.now.setup.now (grid_of layout.now) groups.new.items) }
{
    add_silent(groups, Vec::new(layout.alloc), heads(layout)?)?;
    add_silent(groups, Vec::new(layout.alloc), bar(layout)?)?;
    Ok(())
}

// What stands under them: the feet, and these shapes of the legend.
fn add_below(
    groups: &mut Vec<Group>,
    layout: &Layout<'_>,
    ends: &[RoleEnd],
    shapes: Vec<Shape>,
) -> Result<(), AllocError>
    ensures silent { OnOk result ((book : BookView) (scene : Scene) → Adds book scene groups.old.items groups.new.items []) }
    ensures feet { OnOk result (HasFeet (grid_of layout.now) ends.now groups.new.items) }
    ensures heads { OnOk result (HasHeads layout.now.setup.now (grid_of layout.now) groups.old.items
        → HasHeads layout.now.setup.now (grid_of layout.now) groups.new.items) }
{
    add_silent(groups, Vec::new(layout.alloc), feet(layout, ends)?)?;
    add_silent(groups, Vec::new(layout.alloc), shapes)?;
    Ok(())
}

// What the picture shows, in words: how many entries there are, and the recoveries that are shown.
fn description_of(
    alloc: Global,
    record: &Record<'_>,
    layout: &Layout<'_>,
) -> Result<Vec<u8>, AllocError> {
    let mut text = text_of(
        alloc,
        &[Piece::Number(layout.count()), Piece::Word(b" entries")],
    )?;
    for recovery in layout.story.recoveries.iter() {
        if layout.is_shown(recovery.place) {
            let line = line_at(alloc, record, recovery.place)?;
            text.extend_from_slice(b"; ")?;
            text.extend_from_slice(line.as_slice())?;
        }
    }
    Ok(text)
}

// The groups of a picture, and where it ends.
fn groups_of(
    alloc: Global,
    record: &Record<'_>,
    layout: &Layout<'_>,
    routes: &Routes,
    ends: &[RoleEnd],
    wires: &[Says],
    rows: &[Says],
) -> Result<(Vec<Group>, Pixels), AllocError>
    ensures adds { IfOk result (λ made. Adds (journal_of record.now) (scene_of layout.now) [] made.0.items (wires.now ++ rows.now)) }
    ensures feet { IfOk result (λ made. HasFeet (grid_of layout.now) ends.now made.0.items) }
    ensures heads { IfOk result (λ made. HasHeads layout.now.setup.now (grid_of layout.now) made.0.items) }
{
    let mut groups = Vec::new(alloc);
    add_background(&mut groups, layout)?;
    add_all(&mut groups, alloc, record, layout, routes, wires)?;
    add_loose(&mut groups, layout, routes, wires.len())?;
    add_all(&mut groups, alloc, record, layout, routes, rows)?;
    add_above(&mut groups, layout)?;
    let (shapes, end) = legend(layout, layout.end + FOOT + Pixels(18))?;
    add_below(&mut groups, layout, ends, shapes)?;
    let (shapes, end) = long_labels(layout, end + Pixels(10))?;
    add_silent(&mut groups, Vec::new(alloc), shapes)?;
    Ok((groups, end))
}

// For each entry whether its event isn't kept at the end.
fn undone_of(alloc: Global, record: &Record<'_>) -> Result<Vec<bool>, AllocError>
    ensures { IfOk result (λ undone. AreMarks record.now undone.items) }
{
    let mut undone = Vec::new(alloc);
    for place in 0..record.entries().len() {
        undone.push(record.is_undone(place))?;
    }
    Ok(undone)
}

// Where everything stands, and the ways of the messages. If something has no room on a grid, it fails as if memory ran
// out.
fn planned<'a>(
    alloc: Global,
    record: &'a Record<'_>,
    ends: &[RoleEnd],
    story: &'a Story,
    wires: &[Says],
    rows: &'a [Says],
) -> Result<(Layout<'a>, Routes), AllocError>
    ensures { IfOk result (λ made. IsPlanOf record.now story.now rows.now made.0) }
{
    let cast = Cast::of(alloc, record.setup())?;
    let undone = undone_of(alloc, record)?;
    let mut layout = lay_out(
        alloc,
        cast,
        record.setup(),
        record.entries(),
        undone,
        story,
        ends,
        rows,
    )?;
    let routes = find_routes(alloc, &layout, wires)?;
    layout.widen(routes.wider())?;
    if layout.is_proper(record.setup().roles()) {
        return Ok((layout, routes));
    }
    Err(AllocError)
}

/// The picture of a journal: what its roles did, from above to below, with an arrow for each of these wires and
/// a row for each of these entries and folds. `ends` says how the roles ended, and `story` is that of the journal.
/// Fails if memory runs out.
#[tactic(auto, using(crate::proofs::Telling::from_none, crate::proofs::Telling::titled_from_none, crate::proofs::Planning::on_grid))]
pub fn journal_picture(
    alloc: Global,
    record: &Record<'_>,
    ends: &[RoleEnd],
    story: &Story,
    wires: &[Says],
    rows: &[Says],
) -> Result<Picture, AllocError>
    ensures told { IfOk result (λ picture. told picture.groups.items ≡ said (wires.now ++ rows.now)) }
    ensures titled { IfOk result (λ picture. AreTitled (journal_of record.now) picture.groups.items) }
    ensures drawn { IfOk result (λ picture. IsDrawnOnGrid record.now story.now ends.now rows.now picture.groups.items) }
{
    let (layout, routes) = planned(alloc, record, ends, story, wires, rows)?;
    let (groups, end) = groups_of(alloc, record, &layout, &routes, ends, wires, rows)?;
    Ok(Picture {
        width: layout.width,
        height: end + Pixels(14),
        title: text_of(
            alloc,
            &[Piece::Word(b"Journal of "), Piece::Word(layout.cast.name)],
        )?,
        description: description_of(alloc, record, &layout)?,
        groups,
    })
}
