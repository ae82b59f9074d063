//! A law of the definitions: the contract of this function.

ghost use Rattle.vh_link.specs.Laws.{WrittenIsRead};

/// A file that was written whole is read back, by another link, as its rounded frames.
pub fn written_is_read()
    ensures { WrittenIsRead }
{}
