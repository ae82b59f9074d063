//! Renderings by content. What is expected was worked out by hand from the definitions of the classes, of mixes and
//! of values.

ghost use Rattle.std.specs.Prelude.{◌≤◌, length};

use engine_part::{Heard, play};
use std::alloc::Global;
use std::test::Fail;
use vh_journal::Entry;
use vh_params::{Command, Reply, Words};

/// A rendering: the session's frames, channels and further lines, the input and the output, channel after channel,
/// what was done, and what was seen and answered.
#[derive(Clone, Copy)]
struct Row<'a> {
    length: u32,
    channels: u16,
    lines: &'a str,
    input: &'a [i32],
    output: &'a [i32],
    values: &'a [u32],
    entries: &'a [Entry],
    replies: &'a [Reply],
}

/// Plays a row's session in blocks of at most so many frames.
fn hear(alloc: Global, row: &Row, size: u32) -> Result<Heard, Fail> {
    let head = format!(in alloc;
        "vsthost session 1\nlength {}\nchannels {}\nbits 24\npattern 64\n",
        row.length, row.channels
    )?;
    let text = format!(in alloc; "{head}{}", row.lines)?;
    Ok(play(alloc, text.as_str(), row.input, size, row.entries)?.ok_or("no rendering")?)
}

/// An entry of the first editor.
fn entry(sample: u32, command: Command) -> Entry {
    Entry {
        sample,
        editor: 0,
        seq: 0,
        command,
    }
}

/// A gesture on a node's first parameter begins.
fn begin(sample: u32, node: u32) -> Entry {
    entry(sample, Command::Begin { node, id: 0 })
}

/// A node's parameter takes a value.
fn perform(sample: u32, node: u32, id: u32, value: u32) -> Entry {
    entry(sample, Command::Perform { node, id, value })
}

/// A gesture on a node's first parameter ends.
fn end(sample: u32, node: u32) -> Entry {
    entry(sample, Command::End { node, id: 0 })
}

/// A message of one word to the first node.
fn tell(sample: u32, word: u32) -> Entry {
    entry(
        sample,
        Command::Tell {
            node: 0,
            words: Words::new(&[word]),
        },
    )
}

/// The first node's answer.
fn reply(sample: u32, words: &[u32]) -> Reply
    requires { length words.now ≤ 4 }
{
    Reply {
        node: 0,
        sample,
        words: Words::new(words),
    }
}

#[test]
fn sessions_sound_as_by_hand(rt: HostRuntime) -> Result<(), Fail> {
    let rows = [
        // Half the level, rounded down, and then one sample later.
        Row {
            length: 5,
            channels: 1,
            lines: "node a gain\nnode d delay\nparam a 0 4194304\nparam d 0 4097\nparam d 1 16777216\nwire in a\nwire a d\nwire d out\n",
            input: &[100, -101, 7, 0, 8_388_607],
            output: &[0, 50, -51, 3, 0],
            values: &[4_194_304, 0, 4097, 16_777_216, 0],
            entries: &[],
            replies: &[],
        },
        // A sum that passes the range and comes back: the newest sample beside those of one and two samples ago.
        Row {
            length: 5,
            channels: 1,
            lines: "node d delay\nnode e delay\nnode m meter\nparam d 0 4097\nparam d 1 16777216\nparam e 0 8194\nparam e 1 16777216\nwire in d\nwire in e\nwire d m\nwire e m\nwire in m\nwire m out\n",
            input: &[2_147_483_647, 2_147_483_647, -2_147_483_648, 0, 0],
            output: &[
                2_147_483_647,
                2_147_483_647,
                2_147_483_646,
                -1,
                -2_147_483_648,
            ],
            values: &[4097, 16_777_216, 0, 8194, 16_777_216, 0, 16_777_216, 0],
            entries: &[],
            replies: &[],
        },
        // A gate whose key is half of what comes in: it opens at 100, and stays open one sample longer.
        Row {
            length: 8,
            channels: 1,
            lines: "node g gate\nnode k gain\nparam g 0 200\nparam g 1 4097\nparam k 0 4194304\nwire in g\nwire in k\nwire k g aux\nwire g out\n",
            input: &[300, 150, 10, 20, -200, 5, 6, 7],
            output: &[300, 150, 0, 0, -200, 5, 0, 0],
            values: &[200, 4097, 0, 4_194_304, 0],
            entries: &[],
            replies: &[],
        },
        // A level that rises by a quarter at each sample.
        Row {
            length: 8,
            channels: 1,
            lines: "node a gain\nwire in a\nwire a out\nlane a 0 0 0 0\npoint 8 16777216\n",
            input: &[4, 4, -4, 5, -5, 7, 100, -100],
            output: &[0, 1, -2, 3, -5, 8, 150, -175],
            values: &[16_777_216, 0],
            entries: &[],
            replies: &[],
        },
        // Two channels through a balance and, beside it, through a filter that goes half of the way.
        Row {
            length: 4,
            channels: 2,
            lines: "node b balance\nnode o onepole\nparam b 0 4194304\nparam o 0 8388608\nwire in b\nwire in o\nwire o out\nwire b out\n",
            input: &[100, -50, 7, 0, -3, 9, -9, 1000],
            output: &[150, -50, 10, 1, -4, 7, -8, 998],
            values: &[4_194_304, 8_388_608],
            entries: &[],
            replies: &[],
        },
        // A node that nothing reaches is silent, and one that leads nowhere is not heard.
        Row {
            length: 3,
            channels: 1,
            lines: "node t tap\nnode m meter\nwire in m\nwire t out\n",
            input: &[5, -7, 6],
            output: &[0, 0, 0],
            values: &[0, 14, 0],
            entries: &[],
            replies: &[],
        },
        // No frame: the end alone, where a lane has its value of sample 0.
        Row {
            length: 0,
            channels: 2,
            lines: "node a gain\nwire in a\nwire a out\nlane a 0 0 0 5000000\n",
            input: &[],
            output: &[],
            values: &[5_000_000, 0],
            entries: &[],
            replies: &[],
        },
    ];
    for row in &rows {
        for size in [1u32, 3, 64, 8192] {
            let heard = hear(rt.alloc(), row, size)?;
            assert_eq!(rt; heard.samples.as_slice(), row.output);
            assert_eq!(rt; heard.values.as_slice(), row.values);
            assert!(rt; heard.replies.is_empty());
        }
    }
    Ok(())
}

#[test]
fn entries_count_from_their_sample(rt: HostRuntime) -> Result<(), Fail> {
    let lane = "node a gain\nwire in a\nwire a out\nlane a 0 23 0 0\npoint 4 16777216\n";
    let slope = "node a gain\nwire in a\nwire a out\nlane a 0 0 0 0\npoint 8 16777216\n";
    let rows = [
        // A gesture holds the lane where it began, then performs, and the lane goes on behind it.
        Row {
            length: 4,
            channels: 1,
            lines: lane,
            input: &[25_600, 51_200, 76_800, 102_400],
            output: &[0, 0, 38_400, 102_400],
            values: &[16_777_216, 0],
            entries: &[begin(1, 0), perform(2, 0, 0, 4_194_304), end(3, 0)],
            replies: &[],
        },
        // Two gestures that overlap: the lane goes on behind the later end.
        Row {
            length: 4,
            channels: 1,
            lines: slope,
            input: &[8, 8, 8, 8],
            output: &[0, 8, 8, 6],
            values: &[8_388_608, 0],
            entries: &[
                begin(0, 0),
                begin(1, 0),
                perform(1, 0, 0, 8_388_608),
                end(2, 0),
                end(3, 0),
            ],
            replies: &[],
        },
        // Without a lane a value stays, and one with steps goes to the step.
        Row {
            length: 3,
            channels: 1,
            lines: "node a gain\nwire in a\nwire a out\n",
            input: &[1, 1, 1],
            output: &[1, 2, 1],
            values: &[16_777_216, 16_777_216],
            entries: &[perform(1, 0, 0, 16_777_216), perform(2, 0, 1, 9_000_000)],
            replies: &[],
        },
        // A tap tells how many frames it saw, the last one, and the value that came with a message.
        Row {
            length: 4,
            channels: 1,
            lines: "node t tap\nwire in t\nwire t out\n",
            input: &[10, -20, 30, 40],
            output: &[10, -20, 30, 40],
            values: &[777],
            entries: &[
                tell(2, 0),
                tell(2, 1),
                begin(2, 0),
                perform(2, 0, 0, 777),
                tell(2, 2),
                end(3, 0),
                tell(4, 0),
            ],
            replies: &[
                reply(2, &[2]),
                reply(2, &[4_294_967_276, 0]),
                reply(2, &[777]),
                reply(4, &[4]),
            ],
        },
        // A meter's peaks are told and begin anew.
        Row {
            length: 3,
            channels: 2,
            lines: "node m meter\nwire in m\nwire m out\n",
            input: &[5, -9, 3, 1, 2, -8],
            output: &[5, -9, 3, 1, 2, -8],
            values: &[6, 16],
            entries: &[tell(2, 1)],
            replies: &[reply(2, &[9, 2])],
        },
        // A delay is silenced at a message.
        Row {
            length: 4,
            channels: 1,
            lines: "node d delay\nparam d 0 4097\nparam d 1 16777216\nwire in d\nwire d out\n",
            input: &[100, 200, 300, 400],
            output: &[0, 100, 0, 300],
            values: &[4097, 16_777_216, 0],
            entries: &[tell(2, 1)],
            replies: &[reply(2, &[1])],
        },
    ];
    for row in &rows {
        for size in [1u32, 3, 64, 8192] {
            let heard = hear(rt.alloc(), row, size)?;
            assert_eq!(rt; heard.samples.as_slice(), row.output);
            assert_eq!(rt; heard.values.as_slice(), row.values);
            assert_eq!(rt; heard.replies.as_slice(), row.replies);
        }
    }
    Ok(())
}

/// Samples that look random, of 24 bits.
fn noise(alloc: Global, n: usize) -> Result<Vec<i32>, Fail> {
    let mut samples = Vec::new(alloc);
    let mut state = 7u32;
    for _ in 0..n {
        state = state.wrapping_mul(1_664_525).wrapping_add(1_013_904_223);
        samples.push((state / 256) as i32 - 8_388_608)?;
    }
    Ok(samples)
}

#[test]
fn the_cut_is_not_heard(rt: HostRuntime) -> Result<(), Fail> {
    let alloc = rt.alloc();
    let input = noise(alloc, 9000)?;
    let entries = [
        perform(10, 1, 2, 9_000_000),
        begin(700, 2),
        perform(701, 2, 0, 1_000_000),
        tell(1000, 0),
        perform(2047, 2, 0, 3_000_000),
        end(4000, 2),
        tell(4500, 1),
    ];
    let row = Row {
        length: 4500,
        channels: 2,
        lines: "node t tap\nnode d delay\nnode o onepole\nnode g gate\nnode m meter\nparam d 0 409700\nparam g 0 9000000\nparam g 1 40970\nwire in t\nwire in d\nwire t d\nwire d o\nwire o g\nwire in g aux\nwire g m\nwire d m\nwire m out\nwire in out\nlane o 0 12 5 100000\npoint 900 16000000\npoint 4000 500000\n",
        input: input.as_slice(),
        output: &[],
        values: &[],
        entries: &entries,
        replies: &[],
    };
    let whole = hear(alloc, &row, 8192)?;
    for size in [1u32, 3, 64, 1000] {
        let cut = hear(alloc, &row, size)?;
        assert!(rt; cut.samples == whole.samples, "in blocks of {size}");
        assert_eq!(rt; cut.values.as_slice(), whole.values.as_slice());
        assert_eq!(rt; cut.replies.as_slice(), whole.replies.as_slice());
    }
    Ok(())
}
