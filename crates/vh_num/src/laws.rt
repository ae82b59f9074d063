//! Laws of the definitions: the contracts of these functions.

ghost use Rattle.vh_num.specs.Laws.{IndexOfNorm, QuantTwice, QuantWithin, ClampIsNearest, MixIsClampedSum, AnyOrder, HasRoom, FloorDivRoundsDown, FrameHasSamples, FramesAreInPlace};

/// The step of a step's value is that step.
pub fn index_of_norm()
    ensures { IndexOfNorm }
{}

/// To quantise twice is to quantise once.
pub fn quant_twice()
    ensures { QuantTwice }
{}

/// A quantised value is no more than 1.0.
pub fn quant_within()
    ensures { QuantWithin }
{}

/// The clamp of a number is a sample, and no sample is nearer.
pub fn clamp_is_nearest()
    ensures { ClampIsNearest }
{}

/// Each lane of a mix is the clamp of the exact sum over the sources.
pub fn mix_is_clamped_sum()
    ensures { MixIsClampedSum }
{}

/// The order of the sources changes no mix.
pub fn any_order()
    ensures { AnyOrder }
{}

/// A sum of 255 sources has room for one more.
pub fn has_room()
    ensures { HasRoom }
{}

/// A quotient that is rounded down is the whole number at or below the fraction, also below zero.
pub fn floor_div_rounds_down()
    ensures { FloorDivRoundsDown }
{}

/// A frame has one sample of each channel, and these stand at its place in each channel.
pub fn frame_has_samples()
    ensures { FrameHasSamples }
{}

/// The frames of samples that stand channel after channel are those of the places in turn.
pub fn frames_are_in_place()
    ensures { FramesAreInPlace }
{}
