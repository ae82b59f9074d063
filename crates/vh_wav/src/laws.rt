//! Laws of the definitions: the contracts of these functions.

ghost use Rattle.vh_wav.specs.Laws.{WrittenIsRead, HoldsItsFrames, BlockIsPart};

/// A written file is read back as its rounded frames.
pub fn written_is_read()
    ensures { WrittenIsRead }
{}

/// A file whose head is accepted has the frames of that head's data, and no others.
pub fn holds_its_frames()
    ensures { HoldsItsFrames }
{}

/// A block that was read is a part of the list of the file's frames.
pub fn block_is_part()
    ensures { BlockIsPart }
{}
