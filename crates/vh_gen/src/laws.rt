//! Laws of the definitions: the contracts of these functions.

ghost use Rattle.vh_gen.specs.Sound.{SoundIsInput};

/// A sound that is drawn is the input that is drawn.
#[tactic(auto, using(crate::proofs::Heard::law_sound_is_input))]
pub fn sound_is_input()
    ensures { SoundIsInput }
{}
