// The laws of journals that are read back.

ghost use Rattle.rcv_json_reader.specs.Laws.{LinesAreReadBack, TextsHaveOneJournal};

/// A text is read as at most one journal.
pub fn texts_have_one_journal()
    ensures { TextsHaveOneJournal }
{}

/// The line of a journal of the form is read as that journal.
pub fn lines_are_read_back()
    ensures { LinesAreReadBack }
{}
