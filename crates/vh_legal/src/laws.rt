//! Laws of legal journals and of values.

ghost use Rattle.vh_legal.specs.Laws.{LegalIsJournal, StopsCutNothing, LegalIsCutAsPlayed, ValueIsInPlace};

/// A legal journal keeps the rules that a journal's text keeps: it has at most 4096 entries of editors 0 to 7, each
/// on a parameter that can be set or to a node that is there, numbered by editor, whose gestures begin and end in turn.
pub fn legal_is_journal()
    ensures { LegalIsJournal }
{}

/// Stops at samples where blocks begin without them, or at the length, cut nothing.
pub fn stops_cut_nothing()
    ensures { StopsCutNothing }
{}

/// A rendering under a legal journal is cut as if its messages stopped nothing.
pub fn legal_is_cut_as_played()
    ensures { LegalIsCutAsPlayed }
{}

/// The value of a parameter is the one that its node's processor has at its place.
pub fn value_is_in_place()
    ensures { ValueIsInPlace }
{}
