// Draws the recovery table of a text.

ghost use Rattle.std.specs.Prelude.{◌≡◌, ◌≤◌, length, MatchResult};
ghost use Rattle.rcv_session.specs.Session.{SessionView, roles_of, net_for};
ghost use Rattle.rcv_input.specs.Input.{IsTaken};
ghost use Rattle.rcv_input.specs.Refusals.{IsRefused};
ghost use Rattle.rcv_tables.specs.Rows.{TableView, IsTable};
ghost use Rattle.rcv_charts.specs.RowTitles.{table_titles};
ghost use Rattle.rcv_charts.specs.Titles.{titles_of};
ghost use Rattle.rcv_picture.specs.declared.picture.Picture.{Picture};
ghost use Rattle.rcv_picture.specs.Drawn.{tree_of};
ghost use Rattle.rcv_picture.specs.Tree.{spelled};

use rcv_charts::table::table_picture;
use rcv_input::{InputError, read_input};
use rcv_picture::picture_text;
use rcv_tables::making::table;
use std::alloc::Global;

/// The recovery table of a text's protocol as an SVG that stands alone; or the text's first refusal. A text has at most
/// 1,048,576 bytes. `Memory` if memory runs out.
pub fn table_svg(alloc: Global, input: &[u8]) -> Result<Vec<u8>, InputError>
    requires { length input.now ≤ 1048576 }
    ensures { MatchResult result
        (λ svg. (session : SessionView) × (table : TableView) × (picture : Picture)
        × IsTaken input.now session × IsTable (net_for session) (roles_of session) table
        × (titles_of picture ≡ table_titles (net_for session) session.protocol.roles table)
        × (svg.items ≡ spelled (tree_of picture)))
        (IsRefused input.now) }
{
    let taken = read_input(alloc, input)?;
    let table = table(alloc, &taken.accepted)?;
    let picture = table_picture(alloc, &table, &taken.accepted)?;
    Ok(picture_text(alloc, &picture)?)
}
