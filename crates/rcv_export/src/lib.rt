// A protocol's recovery table and the machines of its roles, as JSON for other programs.
#![tactic(auto)]

ghost use Rattle.rcv_export.specs.Laws.{MachinesAreReadBack, TablesAreReadBack, WordsStayWhole};

pub mod line;
mod messages;
mod role;
mod steps;
mod table;
mod text;
pub mod words;

pub use role::role_json;
pub use table::table_json;

/// Memory ran out. This is the one error of the calls of this crate.
pub use std::alloc::AllocError as Memory;

/// A name that is a word is written whole.
pub fn words_stay_whole()
    ensures { WordsStayWhole }
{}

/// The JSON of a protocol's table is read as the table's value.
pub fn tables_are_read_back()
    ensures { TablesAreReadBack }
{}

/// The JSON of a role's machine is read as the machine's value.
pub fn machines_are_read_back()
    ensures { MachinesAreReadBack }
{}
