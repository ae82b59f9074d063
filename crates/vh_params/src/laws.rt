//! Laws of the definitions: the contracts of these functions.

ghost use Rattle.vh_params.specs.Laws.{TextIsRead, TextStandsForOne, TextsDiffer};

/// The value that is read from a value's text has that text.
pub fn text_is_read()
    ensures { TextIsRead }
{}

/// A text stands for one value at most.
pub fn text_stands_for_one()
    ensures { TextStandsForOne }
{}

/// A parameter with steps has another text at each of its values.
pub fn texts_differ()
    ensures { TextsDiffer }
{}
