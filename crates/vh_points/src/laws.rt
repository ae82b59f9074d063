//! Laws of the definitions: the contracts of these functions.

ghost use Rattle.vh_points.specs.Laws.{StartsAsBefore, StaysBehind, CutInTwo};

/// Before a parameter's first point its value is the one before the block.
pub fn starts_as_before()
    ensures { StartsAsBefore }
{}

/// From a parameter's last point on its value stays.
pub fn stays_behind()
    ensures { StaysBehind }
{}

/// A block that is cut in two has the same values.
pub fn cut_in_two()
    ensures { CutInTwo }
{}
