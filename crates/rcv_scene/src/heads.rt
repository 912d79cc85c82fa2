// What stands above the columns: the title, and the head of each role.

ghost use Rattle.std.specs.Prelude.{◌≡◌, ◌<◌, ◌++◌, codes, IfOk, OnOk};
ghost use Rattle.rcv_session.specs.Session.{roles_of};
ghost use Rattle.rcv_journal.specs.JournalText.{name_of};
ghost use Rattle.rcv_scene.specs.Seen.{further, seen, drawn_in};
ghost use Rattle.rcv_picture.specs.Names.{joined};
ghost use Rattle.rcv_scene.specs.Grid.{grid_of};
ghost use Rattle.rcv_scene.specs.Heads.{AddsLines, AddsHostName, AddsHost, AddsHead, AreHeads};

use crate::layout::Layout;
use crate::shapes::Shapes;
use crate::spans::{at, back, further};
use crate::wording::{Piece, text_of};
use rcv_journal::name::name_of;
use rcv_picture::look::Look;
use rcv_picture::name_lines::lines_of_name;
use rcv_picture::pixels::{At, Pixels, place};
use rcv_picture::shape::{Anchor, Shape};
use rcv_picture::short_name::shortened;
use rcv_tree::role::RoleId;
use std::alloc::{AllocError, Global};

// The most letters of a host's name in a head.
const HOST: usize = 16;

// Adds lines in a column, from this height downwards. Answers how low the next one would stand.
fn add_lines(
    shapes: &mut Shapes,
    x: Pixels,
    top: Pixels,
    lines: &[&[u8]],
) -> Result<Pixels, AllocError>
    ensures { IfOk result (λ under. AddsLines x top (joined lines.now) under (drawn_in shapes.old) (drawn_in shapes.new)) }
{
    let mut y = top;
    for line in lines.iter() {
        shapes.words(at(x, y), Anchor::Middle, Look::Head, line)?;
        y = further(y, 15);
    }
    Ok(y)
}

// Adds the name of a role, in lines. Answers how low a further line would stand.
fn add_name(
    shapes: &mut Shapes,
    layout: &Layout<'_>,
    x: Pixels,
    top: Pixels,
    role: RoleId,
) -> Result<Pixels, AllocError>
    requires { role < roles_of layout.now.setup.now }
    ensures { IfOk result (λ under. AddsLines x top (name_of layout.now.setup.now role) under (drawn_in shapes.old) (drawn_in shapes.new)) }
{
    let lines = lines_of_name(layout.alloc, name_of(layout.setup, role))?;
    let under = add_lines(shapes, x, top, lines.as_slice())?;
    Ok(under)
}

// `on`, and the name of a host.
fn host_text(alloc: Global, host: &[u8]) -> Result<Vec<u8>, AllocError>
    ensures { IfOk result (λ text. text.items ≡ codes "on " ++ host.now) }
{
    text_of(alloc, &[Piece::Word(b"on "), Piece::Word(host)])
}

// Adds the name of a host, made to fit, there.
fn add_host_name(
    shapes: &mut Shapes,
    alloc: Global,
    place: At,
    host: &[u8],
) -> Result<(), AllocError>
    ensures { OnOk result (AddsHostName place (drawn_in shapes.old) (drawn_in shapes.new)) }
{
    let short = shortened(alloc, host, HOST)?;
    let words = host_text(alloc, short.as_slice())?;
    shapes.text(place, Anchor::Middle, Look::Note, words)?;
    Ok(())
}

// Adds the host of a role, if the plan puts it on one, under a name that ends at this height.
#[tactic(auto, using(crate::proofs::Heading::host_there, crate::proofs::Heading::host_lacks))]
fn add_host(
    shapes: &mut Shapes,
    layout: &Layout<'_>,
    x: Pixels,
    under: Pixels,
    role: RoleId,
) -> Result<(), AllocError>
    ensures { OnOk result (AddsHost layout.now.setup.now role x under (drawn_in shapes.old) (drawn_in shapes.new)) }
{
    match layout.setup.plan().host(role) {
        Some(host) => {
            add_host_name(shapes, layout.alloc, at(x, back(under, 3)), host)?;
            Ok(())
        }
        None => Ok(()),
    }
}

// The head of a role: its name in lines, and its host.
fn add_head(
    shapes: &mut Shapes,
    layout: &Layout<'_>,
    top: Pixels,
    role: u8,
) -> Result<(), AllocError>
    requires { role < roles_of layout.now.setup.now }
    ensures { OnOk result (AddsHead layout.now.setup.now (grid_of layout.now) top role (drawn_in shapes.old) (drawn_in shapes.new)) }
{
    let x = layout.x(role);
    let corner = place(x - layout.column.half() + Pixels(6), layout.top);
    let height = layout.first - layout.top - Pixels(2);
    shapes.rect(
        corner,
        layout.column - Pixels(12),
        height,
        Pixels(6),
        Look::Box,
    )?;
    let under = add_name(shapes, layout, x, top, RoleId(role))?;
    add_host(shapes, layout, x, under, RoleId(role))?;
    Ok(())
}

/// The title and the heads. Fails if memory runs out.
pub fn heads(layout: &Layout<'_>) -> Result<Vec<Shape>, AllocError>
    ensures { IfOk result (λ shapes. AreHeads layout.now.setup.now (grid_of layout.now) (further layout.now.top 18)
        (roles_of layout.now.setup.now) (seen shapes.items)) }
{
    let mut shapes = Shapes::new(layout.alloc);
    shapes.words(
        place(Pixels(12), Pixels(26)),
        Anchor::Start,
        Look::Big,
        layout.title.as_slice(),
    )?;
    let top = further(layout.top, 18);
    for role in 0..layout.setup.roles() {
        add_head(&mut shapes, layout, top, role)?;
    }
    Ok(shapes.finish())
}
