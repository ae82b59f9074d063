//! What reaches a bus.

ghost use Rattle.std.specs.Prelude.{◌≡◌, ◌≤◌, ◌<◌, [], length, replicate, All, pos};
ghost use Rattle.vh_num.specs.Laws.{IsSample, mixed, summed};
ghost use Rattle.vh_engine.specs.Buses.{rows_of, IsSource, samples_of, sources_of, HaveRoom};

use vh_num::laws::has_room;
use vh_num::{mix_into, settle};
use vh_session::End;

/// The samples that a wire from this end brings, channel after channel.
fn samples<'a>(end: End, ins: &'a [i32], rows: &'a [Vec<i32>]) -> &'a [i32]
    requires source { IsSource (length rows.now) end }
    requires room { HaveRoom (length ins.now) (rows_of rows.now) }
    ensures { result.now ≡ samples_of ins.now (rows_of rows.now) (length ins.now) end }
{
    match end {
        End::Node(node) => &rows[node as usize][..ins.len()],
        _ => ins,
    }
}

/// The samples of a bus that these ends reach: those of the one wire where they lie, or the mix of several,
/// or silence. `sums` and `mixed` have room for as many samples as come in.
pub(crate) fn mix<'a>(
    ends: &[End],
    ins: &'a [i32],
    rows: &'a [Vec<i32>],
    sums: &mut [i64],
    room: &'a mut [i32],
) -> &'a [i32]
    requires few { length ends.now ≤ 256 }
    requires sources { All (IsSource (length rows.now)) ends.now }
    requires rows { HaveRoom (length ins.now) (rows_of rows.now) }
    requires sums { length sums.old ≡ length ins.now }
    requires room { length room.old ≡ length ins.now }
    ensures mix { result.now ≡ mixed (length ins.now) (sources_of ins.now (rows_of rows.now) (length ins.now) ends.now) }
    ensures sums { length sums.new ≡ length sums.old }
{
    match ends {
        [] => {
            room.fill(0);
            room
        }
        [end] => {
            let source = samples(*end, ins, rows);
            are_samples(source);
            source
        }
        _ => {
            sum(ends, ins, rows, sums);
            settle(sums, room);
            room
        }
    }
}

/// The samples of an aux bus: none where no wire reaches it.
pub(crate) fn mix_aux<'a>(
    ends: &[End],
    ins: &'a [i32],
    rows: &'a [Vec<i32>],
    sums: &mut [i64],
    room: &'a mut [i32],
) -> &'a [i32]
    requires few { length ends.now ≤ 256 }
    requires sources { All (IsSource (length rows.now)) ends.now }
    requires rows { HaveRoom (length ins.now) (rows_of rows.now) }
    requires sums { length sums.old ≡ length ins.now }
    requires room { length room.old ≡ length ins.now }
    ensures none { ends.now ≡ [] → result.now ≡ [] }
    ensures mix { 0 < length ends.now → result.now ≡ mixed (length ins.now) (sources_of ins.now (rows_of rows.now) (length ins.now) ends.now) }
    ensures sums { length sums.new ≡ length sums.old }
{
    if ends.is_empty() {
        &[]
    } else {
        mix(ends, ins, rows, sums, room)
    }
}

/// Sums what these ends bring.
fn sum(ends: &[End], ins: &[i32], rows: &[Vec<i32>], sums: &mut [i64])
    requires few { length ends.now ≤ 256 }
    requires sources { All (IsSource (length rows.now)) ends.now }
    requires rows { HaveRoom (length ins.now) (rows_of rows.now) }
    requires sums { length sums.old ≡ length ins.now }
    ensures { sums.new ≡ summed (replicate (length ins.now) (pos 0)) (sources_of ins.now (rows_of rows.now) (length ins.now) ends.now) }
{
    sums.fill(0);
    for &end in ends {
        let source = samples(end, ins, rows);
        are_samples(source);
        has_room();
        mix_into(sums, source);
    }
}

/// Each of these is a number of 32 bits, as the type says of each one that is read. The compiler removes the loop.
fn are_samples(source: &[i32])
    ensures { All IsSample source.now }
{
    for &sample in source {
        is_sample(sample);
    }
}

/// A number of 32 bits is one.
fn is_sample(sample: i32)
    ensures { IsSample sample }
{}
