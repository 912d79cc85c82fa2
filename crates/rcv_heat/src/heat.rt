// The picture of what crashes cost.

ghost use Rattle.std.specs.Prelude.{◌≡◌, [], ◌∷◌, ◌<◌, ◌^◌, IfOk, length, map};
ghost use Rattle.rcv_costs.specs.Named.{AreNamedCosts};
ghost use Rattle.rcv_costs.specs.Rehearsal.{DiffersInCrashes};
ghost use Rattle.rcv_losses.specs.LossText.{cost_text};
ghost use Rattle.rcv_heat.specs.Heat.{titles_of, titled_in, ShowsCosts};
ghost use Rattle.rcv_heat.specs.Words.{SaysCosts};
ghost use Rattle.rcv_heat.specs.Shown.{IsFailuresPicture, HasWordsFirst};

use crate::cell::cells_of;
use crate::grid::{Grid, row};
use crate::labels::{counts_of, names_edge, picture_width, words_of};
use crate::words::{foot_text, title_text};
use rcv_core::setup::Setup;
use rcv_costs::Costs;
use rcv_losses::named_costs;
use rcv_picture::group::{Group, Says};
use rcv_picture::picture::Picture;
use rcv_picture::pixels::Pixels;
use rcv_picture::shape::Shape;
use rcv_tree::role::RoleId;
use std::alloc::{AllocError, Global};

// Shapes without a title.
fn untitled(alloc: Global, shapes: Vec<Shape>) -> Group
    ensures title { result.title.items ≡ [] }
    ensures shapes { result.shapes.items ≡ shapes.items }
{
    Group {
        says: Says::Nothing,
        title: Vec::new(alloc),
        shapes,
    }
}

// The groups of the picture: the words and the counts, which have no title, and the cells.
fn groups_of(
    alloc: Global,
    words: Vec<Shape>,
    counts: Vec<Shape>,
    mut cells: Vec<Group>,
) -> Result<Vec<Group>, AllocError>
    ensures cells { IfOk result (λ groups. titled_in groups.items ≡ titled_in cells.items) }
    ensures words { IfOk result (λ groups. HasWordsFirst words.items groups.items) }
{
    let mut groups = Vec::new(alloc);
    groups.push(untitled(alloc, words))?;
    groups.push(untitled(alloc, counts))?;
    groups.append(&mut cells)?;
    Ok(groups)
}

/// The picture of costs that were counted for a session: a row for each role, and in it a cell for each cost, with a bar as
/// high as the share of the kept events that the crash undoes. A cell has the line of its cost as its title. It is
/// tinted if the crash undoes events, and the worst one has a frame. Words say what the crashes of each role come to,
/// and what restarting everybody would cost. Fails if memory runs out.
pub fn losses_picture(alloc: Global, setup: &Setup, costs: &Costs) -> Result<Picture, AllocError>
    requires named { AreNamedCosts setup.now costs.now.list.items }
    requires few { length costs.now.list.items < 2 ^ 32 }
    requires step { 0 < costs.now.step }
    ensures titles { IfOk result (λ picture. titles_of picture ≡ map (cost_text setup.now) costs.now.list.items) }
    ensures cells { IfOk result (λ picture. ShowsCosts setup.now costs.now picture) }
    ensures words { IfOk result (λ picture. SaysCosts setup.now costs.now picture) }
{
    let grid = Grid::of(costs, names_edge(setup));
    let list = costs.list.as_slice();
    let title = title_text(alloc, setup)?;
    let foot = foot_text(alloc, setup, costs)?;
    let words = words_of(alloc, setup, grid, costs, title.as_slice(), foot.as_slice())?;
    let counts = counts_of(alloc, setup, grid, list)?;
    let cells = cells_of(alloc, setup, grid, list)?;
    let width = picture_width(grid, list, title.as_slice(), foot.as_slice());
    let groups = groups_of(alloc, words, counts, cells)?;
    Ok(Picture {
        width: Pixels(width),
        height: Pixels(row(RoleId(setup.roles())) + 26),
        title,
        description: foot,
        groups,
    })
}

/// The picture of what a session's crashes cost. The crash lines of the setup's plan don't count, and the setup gets a
/// plan with another one instead. Its time grows with the square of the session's events, as that of `costs_of` of
/// rcv_costs. Fails if memory runs out.
pub fn failures_picture(alloc: Global, setup: &mut Setup) -> Result<Picture, AllocError>
    ensures picture { IfOk result (IsFailuresPicture setup.old) }
    ensures setup { DiffersInCrashes setup.old setup.new }
{
    let costs = named_costs(alloc, setup)?;
    let picture = losses_picture(alloc, setup, &costs)?;
    Ok(picture)
}
