//! Laws of the definitions: the contracts of these functions.

ghost use Rattle.vh_instance.specs.Raised.{RaisedBySum, UndoneIsEven};
ghost use Rattle.vh_instance.specs.Laws.{WithoutPreset, WithoutPresets, LineOverPreset};
ghost use Rattle.vh_instance.specs.Saved.{SavedIsLoaded};

use vh_plugin::laws::bytes_are_taken_back;

/// A count of 64 bits that is raised several times is raised by the sum.
pub fn raised_by_sum()
    ensures { RaisedBySum }
{}

/// Where all that was made was ended again, made less ended is as before, and so are the calls.
pub fn undone_is_even()
    ensures { UndoneIsEven }
{}

/// A node without a preset begins with the values of `param` lines and its class's defaults, and in mode 0.
pub fn without_preset()
    ensures { WithoutPreset }
{}

/// Where no node of a session has a preset, no instance is refused, and what all of them begin with is what the
/// session alone says.
pub fn without_presets()
    ensures { WithoutPresets }
{}

/// The value of a `param` line goes over that of a preset.
pub fn line_over_preset()
    ensures { LineOverPreset }
{}

/// A preset with a node's states, loaded for a node of its class without `param` lines, is accepted and gives the same
/// first values and the same mode.
pub fn saved_is_loaded()
    ensures { SavedIsLoaded }
{
    bytes_are_taken_back();
}
