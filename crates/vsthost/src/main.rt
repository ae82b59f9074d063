//! `vsthost`, the program: a host for audio plug-ins over real files and standard output.
#![tactic(auto)]

mod gate;

use gate::BlockGate;
use std::env::{self, Env};
use std::io::{self, ErrorKind};
use std::process::ExitCode;
use vh_builtin::BuiltIn;
use vh_files::{DiskFiles, OutSay};
use vh_host::{Status, run};
use vh_live_host::run_live;

/// The words of the command, without the program's name: none where one isn't text.
fn read_words(rt: &(impl Env + AllocGlobal)) -> io::Result<Vec<String>> {
    match env::args(rt) {
        Ok(args) => Ok(args.skip(1).collect(rt.alloc())?),
        Err(error) if error.kind() == ErrorKind::OutOfMemory => Err(error),
        Err(_) => Ok(Vec::new(rt.alloc())),
    }
}

/// Whether words ask for a live rendering.
fn are_live(words: &[String]) -> bool {
    match words.first() {
        Some(word) => word.as_str() == "live",
        None => false,
    }
}

fn main(rt: HostRuntime) -> ExitCode {
    let status = match (read_words(&rt), BuiltIn::new(rt.alloc())) {
        (Ok(words), Ok(mut set)) => {
            let mut files = DiskFiles::new(&rt);
            let mut say = OutSay::new(&rt);
            if are_live(&words) {
                run_live(
                    &rt,
                    rt.alloc(),
                    &words,
                    &mut files,
                    &mut say,
                    &mut set,
                    &BlockGate::new(),
                )
            } else {
                run(rt.alloc(), &words, &mut files, &mut say, &mut set)
            }
        }
        _ => Status::Memory,
    };
    ExitCode::from(status.number())
}
