//! Laws of lanes: the contracts of these functions.

ghost use Rattle.vh_lane.specs.Laws.{CutInTwo, PointsMeanValues, IsGrained, FollowsLines};

/// A range that is cut in two sends the points of the whole.
pub fn cut_in_two()
    ensures { CutInTwo }
{}

/// The points that are sent, over the value before them, give the value at each offset, and behind them
/// the one of the last.
pub fn points_mean_values()
    ensures { PointsMeanValues }
{}

/// A lane's value is a multiple of its grain, quantised, and is a quantised value.
pub fn is_grained()
    ensures { IsGrained }
{}

/// Before the first breakpoint a lane has its value, from the last one on that one's, and between two the
/// straight line's, rounded down.
pub fn follows_lines()
    ensures { FollowsLines }
{}
