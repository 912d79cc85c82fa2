// What holds of each session, even if most of what was told of it is forgotten.

ghost use Rattle.rcv_guide.specs.Line.{ForgettingMovesNoLine};
ghost use Rattle.rcv_guide.specs.History.{HistoriesBegin, HistoriesGoOn, HistoriesOutlastForgetting};

/// A session begins with no history.
pub fn histories_begin()
    ensures { HistoriesBegin }
{}

/// A history goes on by what is told.
pub fn histories_go_on()
    ensures { HistoriesGoOn }
{}

/// Forgetting changes no history.
pub fn histories_outlast_forgetting()
    ensures { HistoriesOutlastForgetting }
{}

/// Forgetting what is stable moves no role's stable line.
pub fn forgetting_moves_no_line()
    ensures { ForgettingMovesNoLine }
{}
