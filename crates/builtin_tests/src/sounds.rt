ghost use Rattle.std.specs.Prelude.{◌≡◌, ◌≤◌, ◌<◌, ◌*◌, ◌⊎◌, length, true};
ghost use Rattle.vh_plugin.specs.Class.{AreValues};
ghost use Rattle.vh_plugin.specs.Blocks.{AreAux};
ghost use Rattle.vh_builtin.specs.Builtins.{builtin};
ghost use Rattle.vh_builtin.specs.Kinds.{kind_number};
ghost use Rattle.vh_builtin.specs.Sounds.{sound_number};

use crate::plain::{Pair, Plain};
use crate::random::Random;
use std::alloc::{AllocError, Global};
use std::test::Fail;
use vh_builtin::{Kind, Sound, defaults};
use vh_num::ONE;
use vh_params::Words;
use vh_points::Points;

/// The time of a delay of two samples.
const TIME: u32 = 8194;

/// A sample of a channel, or 0 where there is none.
fn sample_of(samples: &[i32], place: usize) -> i64 {
    i64::from(samples.get(place).copied().unwrap_or(0))
}

/// The frame at a place, of one channel or two of `n` samples.
fn pair_at(samples: &[i32], channels: u16, n: usize, place: usize) -> Pair {
    Pair {
        left: sample_of(samples, place),
        right: if channels == 2 {
            sample_of(samples, n.saturating_add(place))
        } else {
            0
        },
    }
}

/// The value of a parameter after a point at this offset, where there is one.
fn value_after(points: &Points, id: u32, offset: u32, before: i64) -> i64 {
    for i in 0..points.queues() {
        let (queue, size) = points.queue(i);
        for j in 0..size {
            let (at, value) = points.point(i, j);
            if queue == id && at == offset {
                return i64::from(value);
            }
        }
    }
    before
}

/// The value of a parameter, or 0 where there is none.
fn value_of(values: &[u32], id: usize) -> i64 {
    i64::from(values.get(id).copied().unwrap_or(0))
}

/// Whether a block is what the plain program gives, sample by sample.
fn block_agrees(
    sound: &mut Sound,
    values: &mut [u32],
    plain: &mut Plain,
    points: &Points,
    channels: u16,
    n: usize,
    main: &[i32],
    aux: &[i32],
    out: &mut [i32],
) -> Result<bool, AllocError>
    requires values { AreValues (builtin (sound_number sound.old)).params values.old }
    requires channels { (channels ≡ 1) ⊎ (channels ≡ 2) }
    requires main { length main.now ≡ channels * n }
    requires aux { AreAux (builtin (sound_number sound.old)) channels n aux.now }
    requires out { length out.old ≡ channels * n }
    ensures values { AreValues (builtin (sound_number sound.new)).params values.new }
    ensures kind { sound_number sound.new ≡ sound_number sound.old }
{
    let mut v = [
        value_of(values, 0),
        value_of(values, 1),
        value_of(values, 2),
    ];
    sound.play(values, points, channels, n, main, aux, out);
    for place in 0..n {
        let offset = u32::try_from(place).unwrap_or(0);
        v = [
            value_after(points, 0, offset, v[0]),
            value_after(points, 1, offset, v[1]),
            value_after(points, 2, offset, v[2]),
        ];
        let key = if aux.is_empty() {
            None
        } else {
            Some(pair_at(aux, channels, n, place))
        };
        let mut expected = plain.step(channels, v, pair_at(main, channels, n, place), key)?;
        if channels == 1 {
            expected.right = 0;
        }
        if pair_at(out, channels, n, place) != expected {
            return Ok(false);
        }
    }
    Ok(
        v == [
            value_of(values, 0),
            value_of(values, 1),
            value_of(values, 2),
        ],
    )
}

/// Whether a message, which is sent now and then, is answered as by the plain program.
fn reply_agrees(sound: &mut Sound, values: &[u32], plain: &mut Plain, random: &mut Random) -> bool
    requires { AreValues (builtin (sound_number sound.old)).params values.now }
    ensures { sound_number sound.new ≡ sound_number sound.old }
{
    if random.below(8) > 0 {
        return true;
    }
    let message = random.message();
    let value = values.first().copied().unwrap_or(0);
    sound.notify(values, &message) == plain.told(value, &message)
}

/// Whether what a meter shows is what the plain program does.
fn shown_agrees(sound: &Sound, plain: &Plain) -> bool {
    match sound {
        Sound::Meter(meter) => {
            [i64::from(meter.shown(0)), i64::from(meter.shown(1))] == plain.shown()
        }
        _ => true,
    }
}

/// So many aux samples, where the class has an aux bus.
fn side_of(kind: Kind, samples: usize) -> usize
    ensures { (result ≡ 0) ⊎ ((result ≡ samples) × ((builtin (kind_number kind)).aux ≡ true)) }
{
    match kind {
        Kind::Gate => samples,
        _ => 0,
    }
}

/// Whether so many blocks of random lengths and points agree, what is shown behind each, and the answers to
/// messages between them, for a class and a number of channels.
fn class_agrees(alloc: Global, kind: Kind, channels: u16, blocks: u32) -> Result<bool, AllocError>
    requires { (channels ≡ 1) ⊎ (channels ≡ 2) }
{
    let mut random = Random::new(7);
    let mut sound = Sound::new(alloc, kind)?;
    let mut values = defaults(alloc, kind)?;
    let mut plain = Plain::new(alloc, kind);
    let mut points = Points::new(alloc, 3, 200)?;
    for _ in 0..blocks {
        let n = random.below(60);
        random.fill(&mut points, u32::try_from(values.len()).unwrap_or(0), n);
        let n = n as usize;
        let main = random.samples(alloc, usize::from(channels) * n)?;
        let side = if random.below(2) == 0 {
            side_of(kind, usize::from(channels) * n)
        } else {
            0
        };
        let aux = random.samples(alloc, side)?;
        let mut out = vec![in alloc; 0i32; usize::from(channels) * n]?;
        if !block_agrees(
            &mut sound,
            &mut values,
            &mut plain,
            &points,
            channels,
            n,
            &main,
            &aux,
            &mut out,
        )? {
            return Ok(false);
        }
        if !shown_agrees(&sound, &plain) {
            return Ok(false);
        }
        if !reply_agrees(&mut sound, &values, &mut plain, &mut random) {
            return Ok(false);
        }
    }
    Ok(true)
}

#[test]
fn blocks_agree_with_a_plain_program(rt: HostRuntime) -> Result<(), Fail> {
    let alloc = rt.alloc();
    for number in 0..8 {
        assert!(rt; class_agrees(alloc, Kind::of_number(number), 1, 1000)?);
        assert!(rt; class_agrees(alloc, Kind::of_number(number), 2, 1000)?);
    }
    Ok(())
}

#[test]
fn a_delay_feeds_back(rt: HostRuntime) -> Result<(), Fail> {
    let alloc = rt.alloc();
    let points = Points::new(alloc, 1, 1)?;
    let (mut first, mut second) = ([0; 3], [0; 2]);
    let mut sound = Sound::new(alloc, Kind::Delay)?;
    let input = [1000, 0, 0];
    sound.play(
        &mut [TIME, ONE, ONE],
        &points,
        1,
        3,
        &input,
        &[],
        &mut first,
    );
    sound.play(
        &mut [TIME, ONE, ONE],
        &points,
        1,
        2,
        &[0, 0],
        &[],
        &mut second,
    );
    assert_eq!(rt; (first, second), ([0, 0, 1000], [0, 500]));
    Ok(())
}

#[test]
fn a_delay_that_is_told_is_silent(rt: HostRuntime) -> Result<(), Fail> {
    let alloc = rt.alloc();
    let points = Points::new(alloc, 1, 1)?;
    let mut sound = Sound::new(alloc, Kind::Delay)?;
    let mut out = [0; 3];
    sound.play(
        &mut [TIME, ONE, ONE],
        &points,
        1,
        1,
        &[1000],
        &[],
        &mut out[..1],
    );
    let _told = sound.notify(&[TIME, ONE, ONE], &Words::new(&[1]));
    sound.play(
        &mut [TIME, ONE, ONE],
        &points,
        1,
        3,
        &[0, 0, 0],
        &[],
        &mut out,
    );
    assert_eq!(rt; out, [0, 0, 0]);
    Ok(())
}

#[test]
fn a_crusher_cuts_downwards(rt: HostRuntime) -> Result<(), Fail> {
    let alloc = rt.alloc();
    let points = Points::new(alloc, 1, 1)?;
    let mut sound = Sound::new(alloc, Kind::Crusher)?;
    let mut out = [0; 2];
    sound.play(
        &mut [3_355_443, 0],
        &points,
        1,
        2,
        &[-1, 5000],
        &[],
        &mut out,
    );
    assert_eq!(rt; out, [-4096, 4096]);
    Ok(())
}

#[test]
fn a_meter_answers_its_peaks(rt: HostRuntime) -> Result<(), Fail> {
    let alloc = rt.alloc();
    let points = Points::new(alloc, 1, 1)?;
    let mut sound = Sound::new(alloc, Kind::Meter)?;
    let mut out = [0; 2];
    sound.play(&mut [0, 0], &points, 1, 2, &[-5, 3], &[], &mut out);
    assert_eq!(rt; (out, sound.shown(0)), ([-5, 3], 10));
    assert_eq!(rt;
        sound.notify(&[0, 0], &Words::new(&[1])),
        Words::new(&[5, 0])
    );
    assert_eq!(rt; sound.shown(0), 0);
    Ok(())
}

#[test]
fn a_tap_tells_what_it_saw(rt: HostRuntime) -> Result<(), Fail> {
    let alloc = rt.alloc();
    let points = Points::new(alloc, 1, 1)?;
    let mut sound = Sound::new(alloc, Kind::Tap)?;
    let mut out = [0; 4];
    sound.play(&mut [0], &points, 2, 2, &[1, -1, 2, 7], &[], &mut out);
    assert_eq!(rt; sound.notify(&[9], &Words::new(&[0])), Words::new(&[2]));
    assert_eq!(rt;
        sound.notify(&[9], &Words::new(&[1])),
        Words::new(&[4_294_967_295, 7])
    );
    assert_eq!(rt; sound.notify(&[9], &Words::new(&[2])), Words::new(&[9]));
    assert_eq!(rt; sound.notify(&[9], &Words::new(&[3])), Words::new(&[]));
    Ok(())
}
