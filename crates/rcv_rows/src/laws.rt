// Laws of what is told: it is determined by what is shown, and it adds up.

ghost use Rattle.rcv_rows.specs.Laws.{RowsAreDetermined, WiresAreDetermined, RowsAddUp, SendsAddUp, CountsAddUp};

/// Which entries have rows of their own determines all rows.
pub fn rows_are_determined()
    ensures { RowsAreDetermined }
{}

/// Which entries are shown determines the wires, except for their order.
pub fn wires_are_determined()
    ensures { WiresAreDetermined }
{}

/// The rows of single entries, and the entries in folds, are as many as there are entries.
pub fn rows_add_up()
    ensures { RowsAddUp }
{}

/// The Sends that are shown, and those in folds, are all Sends.
pub fn sends_add_up()
    ensures { SendsAddUp }
{}

/// The counts of a fold, except for the undone ones, add up to its entries.
pub fn counts_add_up()
    ensures { CountsAddUp }
{}
