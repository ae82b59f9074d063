//! Laws about the sound of the built-in classes: the contracts of these functions.

ghost use Rattle.vh_builtin.specs.Laws.{PoleLiesBetween, UnityChangesNothing, CentreChangesNothing, DelayIsInputAgo, PeaksNeverFall, BypassPassesAll};

/// A one-pole's output lies between its state and its input.
pub fn pole_lies_between()
    ensures { PoleLiesBetween }
{}

/// A gain of 0.5 changes nothing.
pub fn unity_changes_nothing()
    ensures { UnityChangesNothing }
{}

/// A balance at its centre changes nothing.
pub fn centre_changes_nothing()
    ensures { CentreChangesNothing }
{}

/// A delay of some time, all mix and no feedback, gives what came in that long ago.
pub fn delay_is_input_ago()
    ensures { DelayIsInputAgo }
{}

/// A meter's peak never falls but by its message.
pub fn peaks_never_fall()
    ensures { PeaksNeverFall }
{}

/// A gate passes all where its bypass is on.
pub fn bypass_passes_all()
    ensures { BypassPassesAll }
{}
