// Where the cells stand: a row for each role, a column for each count.

ghost use Rattle.std.specs.Prelude.{◌≡◌, ◌<◌, ◌≤◌};
ghost use Rattle.rcv_heat.specs.Heat.{IsGrid, column_of, row_of, cell_height, bar_height};

use rcv_costs::{Cost, Costs};
use rcv_tree::role::RoleId;

/// The upper edge of the first row, and how far the rows are from each other.
const TOP: u32 = 80;

const ROW: u32 = 84;

/// How high a cell is.
pub const CELL: u32 = 48;

/// All columns together are so wide, if the bounds of one allow it.
const WIDTH: u32 = 1_200;

// A role makes at most so many events.
const MOST: u32 = 100_000;

/// The left edge of the first column, how wide each is, and every how many counts there is one. In pixels.
#[derive(Clone, Copy)]
pub struct Grid {
    pub left: u32,
    pub wide: u32,
    pub step: u32,
}

// How many columns there are.
fn columns(list: &[Cost], step: u32) -> u32
    requires { 0 < step }
{
    let mut most = 0;
    for cost in list {
        most = (cost.count / step).max(most);
    }
    most.min(MOST) + 1
}

impl Grid {
    /// The grid for these costs, right of this edge.
    pub fn of(costs: &Costs, left: u32) -> Grid
        requires { 0 < costs.now.step }
        ensures grid { IsGrid result }
        ensures step { result.step ≡ costs.now.step }
    {
        let columns = columns(costs.list.as_slice(), costs.step);
        Grid {
            left: left.min(1_000),
            wide: (WIDTH / columns.max(1)).max(8).min(40),
            step: costs.step,
        }
    }

    /// The left edge of the column of a count.
    pub fn column(self, count: u32) -> u32
        requires { IsGrid self }
        ensures value { result ≡ column_of self count }
        ensures most { result ≤ 4001000 }
    {
        self.left + (count / self.step).min(MOST) * self.wide
    }
}

/// The upper edge of the cells of a role.
pub fn row(role: RoleId) -> u32
    ensures value { result ≡ row_of role }
    ensures most { result ≤ 30000 }
{
    TOP + role.0 as u32 * ROW
}

/// How high the bar of a cost is: at most as high as a cell.
pub fn bar(cost: &Cost) -> u32
    ensures value { result ≡ bar_height cost.now.undone cost.now.kept }
    ensures most { result ≤ cell_height }
{
    if cost.kept == 0 {
        return 0;
    }
    (cost.undone as u64 * CELL as u64 / cost.kept).min(CELL as u64) as u32
}
