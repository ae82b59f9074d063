//! `journal_check FILE..`: says of each file what journal is read in it, under two nodes and a length of 1000, and prints
//! it anew. The checks compare both with a second reader.
#![tactic(auto)]

use std::alloc::Global;
use std::process::ExitCode;
use std::{env, fs};
use vh_ids::Tuid;
use vh_journal_text::{print, read};
use vh_num::Refusal;
use vh_params::{
    CAN_AUTOMATE, ClassInfo, IS_READ_ONLY, Label, NodeTable, ParamInfo, ParamTable, UnitInfo,
    is_name,
};

/// The length of the session, in frames.
const LENGTH: u32 = 1000;

/// A continuous parameter.
fn param(id: u32, flags: u32) -> ParamInfo {
    ParamInfo {
        id,
        title: Label::new(b""),
        units: Label::new(b""),
        steps: 0,
        first: 0,
        unit: 0,
        flags,
    }
}

/// The nodes `a` and `b_2`, each with two parameters that can be set and one that is only read.
fn make_nodes(alloc: Global) -> anyhow::Result<NodeTable> {
    let params = [param(0, CAN_AUTOMATE), param(7, 0), param(9, IS_READ_ONLY)];
    let class = ClassInfo {
        name: Label::new(b"gain"),
        component: Tuid([0; 16]),
        controller: Tuid([0; 16]),
        aux: false,
        params: ParamTable::new(alloc, &params, &[UnitInfo::root(Label::new(b"Root"))])?,
    };
    let mut nodes = NodeTable::new(alloc);
    for name in ["a", "b_2"] {
        let name = name.as_bytes();
        if name.len() <= 32 && is_name(name) && nodes.node(name).is_none() && nodes.len() < 64 {
            nodes.add(alloc, Label::new(name), &class)?;
        }
    }
    Ok(nodes)
}

/// Reads a file, and says its entries' number and its canonical text, or its first fault.
fn say_file(rt: &HostRuntime, nodes: &NodeTable, name: &str) -> anyhow::Result<()> {
    println!(rt; "file {name}")?;
    let bytes = fs::read(rt, name)?;
    match read(rt.alloc(), bytes.as_slice(), nodes, LENGTH) {
        Ok(journal) => {
            println!(rt; "entries {}", journal.entries.len())?;
            let text = print(rt.alloc(), &journal.entries, nodes)?;
            let text = String::from_utf8_lossy(rt.alloc(), text.as_slice())?;
            Ok(print!(rt; "{text}")?)
        }
        Err(Refusal::Fault(fault)) => {
            Ok(println!(rt; "refused {} {:?}", fault.line, fault.kind)?)
        }
        Err(Refusal::Memory) => Ok(println!(rt; "out of memory")?),
    }
}

fn say_files(rt: &HostRuntime) -> anyhow::Result<()> {
    let nodes = make_nodes(rt.alloc())?;
    let names = env::args(rt)?.skip(1).collect::<Vec<String>>(rt.alloc())?;
    for name in &names {
        say_file(rt, &nodes, name.as_str())?;
    }
    Ok(())
}

fn main(rt: HostRuntime) -> ExitCode {
    match say_files(&rt) {
        Ok(()) => ExitCode::from(0),
        Err(_) => ExitCode::from(1),
    }
}
