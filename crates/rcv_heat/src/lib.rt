// The picture of what each crash would cost.
#![tactic(auto)]

ghost use Rattle.rcv_heat.specs.Laws.{RowsStandApart, ColumnsStandApart};

mod cell;
mod grid;
mod heat;
mod labels;
mod words;

pub use heat::{failures_picture, losses_picture};
/// Memory ran out. This is the one error of this crate.
pub use std::alloc::AllocError as Memory;

/// The cells of a role end above those of each later role.
pub fn rows_stand_apart()
    ensures { RowsStandApart }
{}

/// A column ends before each later one begins.
pub fn columns_stand_apart()
    ensures { ColumnsStandApart }
{}
