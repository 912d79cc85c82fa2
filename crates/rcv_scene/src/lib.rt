// The picture of a journal: where everything stands, and how it looks.
#![tactic(auto)]

ghost use Rattle.rcv_scene.specs.Laws.{ColumnsStandApart, RowsStandApart, LabelsAreNoMarks};

mod bar;
mod beside;
mod cast;
mod counts;
pub mod ends;
mod feet;
mod folds;
mod groups;
mod heads;
pub mod journal_picture;
mod label_text;
mod layout;
mod legend;
mod life;
mod line;
mod marks;
mod notes;
mod recoveries;
mod returns;
mod routes;
mod shapes;
mod spans;
mod wires;
mod wording;

/// On a proper grid the columns of two roles are at least the width of a mark apart.
pub fn columns_stand_apart()
    ensures { ColumnsStandApart }
{}

/// On a proper grid the middles of two rows are at least a row's least height apart.
pub fn rows_stand_apart()
    ensures { RowsStandApart }
{}

/// No part of what stands beside the mark of an event looks like a mark.
pub fn labels_are_no_marks()
    ensures { LabelsAreNoMarks }
{}
