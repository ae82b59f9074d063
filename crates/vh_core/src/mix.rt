//! What reaches a bus at a sample.

ghost use Rattle.std.specs.Prelude.{◌≡◌, ◌≤◌, ◌^◌, [], ◌∷◌, true, length, pos, neg_ℤ, ◌≤ℤ◌, if◌then◌else◌};
ghost use Rattle.std.specs.List.{list_any};
ghost use Rattle.vh_num.specs.Laws.{sum_of, in_lane};
ghost use Rattle.vh_meaning.specs.Mix.{reaches, brought, arriving, mix};
ghost use Rattle.vh_core.specs.Stage.{frames_in};

use vh_num::clamp;
use vh_session::{End, Wire};

/// Whether a wire leads to the main bus of this end, or to its aux bus.
fn reaches(to: End, aux: bool, wire: Wire) -> bool
    ensures { result ≡ reaches to aux wire }
{
    wire.aux == aux
        && match (wire.to, to) {
            (End::In, End::In) | (End::Out, End::Out) => true,
            (End::Node(node), End::Node(other)) => node == other,
            _ => false,
        }
}

/// Whether any of these wires does.
fn is_reached(wires: &[Wire], to: End, aux: bool) -> bool
    ensures { result ≡ list_any (reaches to aux) wires.now }
{
    wires.iter().any(|wire| reaches(to, aux, *wire))
}

/// The frame that a wire from this end brings.
fn brought<'a>(input: &'a [i32], frames: &'a [Vec<i32>], from: End) -> &'a [i32]
    ensures { result.now ≡ brought input.now (frames_in frames.now) from }
{
    match from {
        End::In => input,
        End::Out => &[],
        End::Node(node) => match frames.get(node as usize) {
            Some(frame) => frame,
            None => &[],
        },
    }
}

/// What a wire brings to a bus in one channel: nothing, where it leads elsewhere.
fn share(wire: Wire, input: &[i32], frames: &[Vec<i32>], to: End, aux: bool, channel: usize) -> i64
    ensures value { result ≡ sum_of (in_lane channel (arriving (wire ∷ []) input.now (frames_in frames.now) to aux)) }
    ensures low { neg_ℤ (pos (2 ^ 31)) ≤ℤ result }
    ensures high { result ≤ℤ pos (2 ^ 31) }
{
    if !reaches(to, aux, wire) {
        return 0;
    }
    let frame = brought(input, frames, wire.from);
    i64::from(frame.get(channel).copied().unwrap_or(0))
}

/// The exact sum of what wires bring to a bus, in one channel.
fn sum(
    wires: &[Wire],
    input: &[i32],
    frames: &[Vec<i32>],
    to: End,
    aux: bool,
    channel: usize,
) -> i64
    requires { length wires.now ≤ 256 }
    ensures { result ≡ sum_of (in_lane channel (arriving wires.now input.now (frames_in frames.now) to aux)) }
{
    let mut sum = 0;
    for wire in wires {
        sum += share(*wire, input, frames, to, aux, channel);
    }
    sum
}

/// Mixes what reaches a bus: in each channel the exact sum, clamped once. Samples are in 2^-23 of full scale.
pub(crate) fn mix(
    wires: &[Wire],
    input: &[i32],
    frames: &[Vec<i32>],
    to: End,
    aux: bool,
    out: &mut [i32],
)
    requires { length wires.now ≤ 256 }
    ensures { out.new ≡ mix (length out.old) (arriving wires.now input.now (frames_in frames.now) to aux) }
{
    for channel in 0..out.len() {
        out[channel] = clamp(sum(wires, input, frames, to, aux, channel));
    }
}

/// Of what was mixed for an aux bus: there are no samples where no wire leads to it.
pub(crate) fn aux_of<'a>(wires: &[Wire], to: End, mixed: &'a [i32]) -> &'a [i32]
    ensures { result.now ≡ (if list_any (reaches to true) wires.now then mixed.now else []) }
{
    if is_reached(wires, to, true) {
        mixed
    } else {
        &[]
    }
}
