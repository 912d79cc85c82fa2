// Pictures of the recovery table, of a role's machine and of a protocol.
#![tactic(auto)]

ghost use Rattle.rcv_charts.specs.Laws.{RowsAreLines};

mod beside;
mod boxes;
mod calls;
mod columns;
mod drawing;
mod extent;
mod frames;
mod lanes;
mod messages;
mod notes;
pub mod protocol;
mod reach;
pub mod role;
mod row_title;
mod rows;
mod sequence;
mod shapes;
mod stand;
mod states;
pub mod table;
mod titles;
mod ways;
mod wires;
mod words;

/// Memory ran out. This is the one error of the calls of this crate.
pub use std::alloc::AllocError as Memory;

/// The titles of the rows of a table's picture are the lines of the table's text.
pub fn rows_are_the_lines_of_the_text()
    ensures { RowsAreLines }
{}
