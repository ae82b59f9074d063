//! What comes of the number 7, as checks/gen_reference.py draws it.

use std::alloc::Global;
use std::test::Fail;
use vh_builtin::BuiltIn;
use vh_gen::{Generated, Sums, generate, summary};
use vh_journal::Entry;
use vh_params::{Command, Words};
use vh_plugin::PluginSet;

/// What is drawn from the number 7.
fn of_seven(alloc: Global) -> Result<Generated, Fail> {
    let set = BuiltIn::new(alloc)?;
    Ok(generate(alloc, 7, set.classes())?)
}

/// An entry of the first editor.
fn entry(sample: u32, seq: u32, command: Command) -> Entry {
    Entry {
        sample,
        editor: 0,
        seq,
        command,
    }
}

#[test]
fn seven_has_thirty_one_nodes(rt: HostRuntime) -> Result<(), Fail> {
    let alloc = rt.alloc();
    let made = of_seven(alloc)?;
    assert_eq!(rt; made.session.nodes.len(), 31);
    let text = made.session.print(alloc)?;
    let mut sum = 0u64;
    for &byte in &text {
        sum = sum.wrapping_add(u64::from(byte));
    }
    assert_eq!(rt; text.len(), 3518);
    assert_eq!(rt; sum, 239_735);
    Ok(())
}

#[test]
fn meters_are_told_and_others_edited(rt: HostRuntime) -> Result<(), Fail> {
    let made = of_seven(rt.alloc())?;
    let (node, id) = (1, 0);
    let first = [
        entry(0, 0, Command::Begin { node, id }),
        entry(
            0,
            1,
            Command::Perform {
                node,
                id,
                value: 5_751_808,
            },
        ),
        entry(0, 2, Command::End { node, id }),
        entry(
            384,
            3,
            Command::Tell {
                node: 29,
                words: Words::new(&[0]),
            },
        ),
    ];
    assert_eq!(rt; made.entries.len(), 456);
    assert_eq!(rt; made.entries.as_slice().get(..4), Some(first.as_slice()));
    assert_eq!(rt;
        made.entries.as_slice().last(),
        Some(&entry(64_896, 455, Command::End { node: 22, id }))
    );
    Ok(())
}

#[test]
fn left_is_drawn_before_right(rt: HostRuntime) -> Result<(), Fail> {
    let made = of_seven(rt.alloc())?;
    let samples = made.sound.samples.as_slice();
    let mut sum = 0i64;
    for &sample in samples {
        sum = sum.wrapping_add(i64::from(sample));
    }
    assert_eq!(rt; samples.get(..2), Some([-6_681_344, -3_216_384].as_slice()));
    assert_eq!(rt;
        samples.get(65_536..65_538),
        Some([1_597_696, 6_308_352].as_slice())
    );
    assert_eq!(rt; sum, -708_289_536);
    Ok(())
}

#[test]
fn summary_has_a_line_for_each_count(rt: HostRuntime) -> Result<(), Fail> {
    let sums = Sums {
        pieces: 88,
        sum: 4_287_746_446,
    };
    let text = summary(rt.alloc(), 7, 31, 456, sums)?;
    let told = "vsthost gen 7\nnodes 31\nentries 456\npieces 88\nsum 4287746446\nclose\n";
    assert_eq!(rt; text.as_slice(), told.as_bytes());
    Ok(())
}
