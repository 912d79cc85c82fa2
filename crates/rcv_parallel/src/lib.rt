// In the model's walks, points of lanes side by side stand in any order. Except for that order, the walks are walks in
// text order. These are laws alone; nothing stands on them but worked examples. Beside them stands a worked session
// with lanes (proofs/LaneSession.antt), to which the laws of the crates below are applied.
#![tactic(auto)]

ghost use Rattle.rcv_parallel.specs.ByStages.{TextOrderGoesByStages};
ghost use Rattle.rcv_parallel.specs.TextOrderLaws.{FormHasLanesInOrder, TextOrderIsAWalk, WalksSortIntoTextOrder};
ghost use Rattle.rcv_parallel.specs.TextOrderLaws.{TextOrderIsSorted, SortingKeepsEachRole, RunsFollowTextOrder};
ghost use Rattle.rcv_parallel.specs.TextOrderLaws.{NextFollowsTextOrder, OneLaneNeedsNoOrder, TextsWithoutParNeedNoOrder};

/// The lanes of a text with `HasForm` are in order.
pub fn form_has_lanes_in_order()
    ensures { FormHasLanesInOrder }
{}

/// Walks in text order are those that are told stage by stage.
pub fn text_order_goes_by_stages()
    ensures { TextOrderGoesByStages }
{}

/// Each walk in text order is a walk. It is ended as a walk exactly if it is ended in text order.
pub fn text_order_is_a_walk()
    ensures { TextOrderIsAWalk }
{}

/// Each walk, sorted by lanes, is a walk in text order. That is ended exactly if the walk is.
pub fn walks_sort_into_text_order()
    ensures { WalksSortIntoTextOrder }
{}

/// Walks in text order are the walks that are sorted.
pub fn text_order_is_sorted()
    ensures { TextOrderIsSorted }
{}

/// Sorting keeps what each role does in a walk, and its order.
pub fn sorting_keeps_each_role()
    ensures { SortingKeepsEachRole }
{}

/// Events are a run exactly if they follow a walk in text order.
pub fn runs_follow_text_order()
    ensures { RunsFollowTextOrder }
{}

/// A role's next points are those on walks in text order.
pub fn next_follows_text_order()
    ensures { NextFollowsTextOrder }
{}

/// If there is one lane, walks in text order are those of the lane.
pub fn one_lane_needs_no_order()
    ensures { OneLaneNeedsNoOrder }
{}

/// The same holds for a text without par.
pub fn texts_without_par_need_no_order()
    ensures { TextsWithoutParNeedNoOrder }
{}
