//! Laws of the definitions: the contracts of these functions.

ghost use Rattle.vh_ids.specs.Laws.{ReadsBack, EitherCase};

/// The text of an identifier reads as the identifier.
pub fn reads_back()
    ensures { ReadsBack }
{}

/// Digits of either case read the same.
pub fn either_case()
    ensures { EitherCase }
{}
