//! `preset_check FILE..`: says of each file what preset is read in it, and the file that is written anew with its class
//! and chunks. The checks compare both with a second reader.
#![tactic(auto)]

use std::process::ExitCode;
use std::{env, fs};
use vh_num::Refusal;
use vh_preset::{Chunks, Preset, read, write};

/// Says a preset, its entries, and its canonical file.
fn say_preset(rt: &HostRuntime, preset: &Preset) -> anyhow::Result<()> {
    let class = hex::encode_upper(rt.alloc(), preset.class.0)?;
    println!(rt; "preset {class} {}", preset.version)?;
    for entry in &preset.entries {
        let id = hex::encode_upper(rt.alloc(), entry.id)?;
        println!(rt; "chunk {id} {} {}", entry.at, entry.size)?;
    }
    let chunks = Chunks {
        comp: preset.chunk(*b"Comp"),
        cont: preset.chunk(*b"Cont"),
        prog: preset.chunk(*b"Prog"),
        info: preset.chunk(*b"Info"),
    };
    if chunks.fit() {
        let file = write(rt.alloc(), &preset.class, &chunks)?;
        let digits = hex::encode_upper(rt.alloc(), file.as_slice())?;
        println!(rt; "written {digits}")?;
    }
    Ok(())
}

/// Reads a file, and says its preset or its first fault.
fn say_file(rt: &HostRuntime, name: &str) -> anyhow::Result<()> {
    println!(rt; "file {name}")?;
    let bytes = fs::read(rt, name)?;
    match read(rt.alloc(), bytes) {
        Ok(preset) => say_preset(rt, &preset),
        Err(Refusal::Fault(fault)) => Ok(println!(rt; "refused {fault:?}")?),
        Err(Refusal::Memory) => Ok(println!(rt; "out of memory")?),
    }
}

fn say_files(rt: &HostRuntime) -> anyhow::Result<()> {
    let names = env::args(rt)?.skip(1).collect::<Vec<String>>(rt.alloc())?;
    for name in &names {
        say_file(rt, name.as_str())?;
    }
    Ok(())
}

fn main(rt: HostRuntime) -> ExitCode {
    match say_files(&rt) {
        Ok(()) => ExitCode::from(0),
        Err(_) => ExitCode::from(1),
    }
}
