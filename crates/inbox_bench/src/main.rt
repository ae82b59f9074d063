//! `inbox_bench EDITORS COUNT CAPACITY`: so many editors put so many commands each into an inbox with this room, in
//! threads of their own, while a drain takes them. It prints how many entries came, and a sum over them. The
//! benchmark times it beside a queue under a lock.
#![tactic(auto)]

use inbox_tests::{one_node, pass_through};
use std::alloc::Global;
use std::env;
use std::process::ExitCode;
use std::sync::Wait;
use std::thread::Threads;
use vh_text::number;

/// How many entries came through an inbox, and the sum of their editors' numbers and places. None for want of
/// memory, or where the inbox can't be so.
fn run<R: Threads + Wait + Sync>(
    rt: &R,
    alloc: Global,
    editors: u32,
    count: u32,
    capacity: u32,
) -> Option<(usize, u64)> {
    if editors > 8 || count >= 1 << 28 || capacity == 0 || capacity > 4096 {
        return None;
    }
    let nodes = one_node(alloc)?;
    let passed = pass_through(
        rt,
        alloc,
        &nodes,
        capacity as usize,
        editors as usize,
        count,
    );
    let (journal, _) = passed.ok()?;
    let mut sum = 0u64;
    for entry in &journal {
        sum = sum
            .wrapping_add(u64::from(entry.editor))
            .wrapping_add(u64::from(entry.seq));
    }
    Some((journal.len(), sum))
}

/// The numbers of the words.
fn numbers(words: &[String]) -> Option<(u32, u32, u32)> {
    match words {
        [editors, count, capacity] => Some((
            number(editors.as_bytes())?,
            number(count.as_bytes())?,
            number(capacity.as_bytes())?,
        )),
        _ => None,
    }
}

fn main(rt: HostRuntime) -> ExitCode {
    let Ok(args) = env::args(&rt) else {
        return ExitCode::from(1);
    };
    let Ok(words) = args.skip(1).collect::<Vec<String>>(rt.alloc()) else {
        return ExitCode::from(1);
    };
    let Some((editors, count, capacity)) = numbers(words.as_slice()) else {
        return ExitCode::from(1);
    };
    match run(&rt, rt.alloc(), editors, count, capacity) {
        Some((entries, sum)) => {
            let _ = println!(rt; "{entries} {sum}");
            ExitCode::from(0)
        }
        None => ExitCode::from(1),
    }
}
