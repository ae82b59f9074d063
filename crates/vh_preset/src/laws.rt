//! Laws of the definitions: the contracts of these functions.

ghost use Rattle.vh_preset.specs.Laws.{PresetOrFault, WrittenIsRead};

/// Bytes without a fault are one preset, and bytes with a fault are none.
pub fn preset_or_fault()
    ensures { PresetOrFault }
{}

/// A written preset is read back with its class and chunks.
pub fn written_is_read()
    ensures { WrittenIsRead }
{}
