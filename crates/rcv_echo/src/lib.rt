// Laws: what a session of a taken input wrote is read back as its journal.
#![tactic(auto)]

ghost use Rattle.rcv_echo.specs.Laws.{TakenJsonIsReadBack, TakenTextsAreReadBack};

/// If a journal of a session that an input is taken as is legal and final, its text is read as its entries, the lines
/// of its roles, and those at the limit.
pub fn taken_texts_are_read_back()
    ensures { TakenTextsAreReadBack }
{}

/// The same holds for the JSON of each such journal.
pub fn taken_json_is_read_back()
    ensures { TakenJsonIsReadBack }
{}
