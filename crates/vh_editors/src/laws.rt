//! Laws of the definitions: the contracts of these functions.

ghost use Rattle.vh_editors.specs.Laws.{LegalIsBegun, NothingIsBegun, FrontIsBegun, LegalIsOn};

/// A legal journal is one that the editors have begun.
pub fn legal_is_begun()
    ensures { LegalIsBegun }
{}

/// A journal without entries is one that the editors have begun.
pub fn nothing_is_begun()
    ensures { NothingIsBegun }
{}

/// The front of a journal that the editors have begun is one too.
pub fn front_is_begun()
    ensures { FrontIsBegun }
{}

/// The entries of a legal journal are on nodes that are there, and on parameters that can be set.
pub fn legal_is_on()
    ensures { LegalIsOn }
{}
