//! Reads presets of files and loads them into the nodes of a session.

use std::alloc::{AllocError, Global};
use thiserror::Error;
use vh_answers::{Place, Status};
use vh_builtin::{BuiltIn, Kind};
use vh_files::MemFiles;
use vh_instance::{Band, MakeRefused, make, tear_down};
use vh_num::Refusal;
use vh_plugin::{Controller, PluginSet, Processor};
use vh_preset::{Chunks, PresetFault, PresetRefusal};
use vh_reading::read_presets;
use vh_session::SessionFault;

/// What the preset of a node holds: its class, and its chunks.
#[derive(Clone, Copy)]
pub struct Held {
    class: Kind,
    comp: Option<&'static [u8]>,
    cont: Option<&'static [u8]>,
}

/// The file of a node's preset: none is named, it isn't there, it has these bytes, or it is the preset with these chunks.
#[derive(Clone, Copy)]
enum Source {
    None,
    Missing,
    Bytes(&'static [u8]),
    Preset(Held),
}

/// What two gains come to: their first values and their modes, or the node whose preset is refused, or a file that can't
/// be read.
#[derive(Clone, Copy, Debug, PartialEq, Eq)]
pub enum Answer {
    Begun { first: [u32; 4], modes: [u32; 2] },
    Refused { node: u32, kind: PresetRefusal },
    Unread(Place),
}

/// Presets of two gains, and the `param` lines over them.
#[derive(Clone, Copy)]
pub struct Row {
    lines: &'static str,
    presets: [Source; 2],
    pub answer: Answer,
}

/// Level 0.25, and Bypass on.
const LOW: [u8; 20] = [1, 0, 0, 0, 0, 0, 0, 0, 0, 0, 64, 0, 1, 0, 0, 0, 0, 0, 0, 1];

/// Values are shown without a text, and bytes that no controller takes.
const BARE: [u8; 8] = [1, 0, 0, 0, 1, 0, 0, 0];

const OTHER: [u8; 8] = [1, 0, 0, 0, 2, 0, 0, 0];

fn preset_with(class: Kind, comp: Option<&'static [u8]>, cont: Option<&'static [u8]>) -> Source {
    Source::Preset(Held { class, comp, cont })
}

/// What two gains come to under presets and `param` lines.
pub fn rows() -> [Row; 11] {
    [
        Row {
            lines: "",
            presets: [
                preset_with(Kind::Gain, Some(&LOW), Some(&BARE)),
                Source::None,
            ],
            answer: Answer::Begun {
                first: [4194304, 16777216, 8388608, 0],
                modes: [1, 0],
            },
        },
        Row {
            lines: "param a 0 2097152\n",
            presets: [
                preset_with(Kind::Gain, Some(&LOW), Some(&BARE)),
                Source::None,
            ],
            answer: Answer::Begun {
                first: [2097152, 16777216, 8388608, 0],
                modes: [1, 0],
            },
        },
        Row {
            lines: "",
            presets: [
                Source::None,
                preset_with(Kind::Gain, Some(&LOW), Some(&OTHER)),
            ],
            answer: Answer::Begun {
                first: [8388608, 0, 4194304, 16777216],
                modes: [0, 0],
            },
        },
        Row {
            lines: "",
            presets: [
                preset_with(Kind::Gain, Some(&LOW), None),
                preset_with(Kind::Delay, Some(&LOW), None),
            ],
            answer: Answer::Refused {
                node: 1,
                kind: PresetRefusal::OtherClass,
            },
        },
        Row {
            lines: "",
            presets: [
                preset_with(Kind::Gain, Some(&BARE), None),
                preset_with(Kind::Delay, None, None),
            ],
            answer: Answer::Refused {
                node: 0,
                kind: PresetRefusal::BadState,
            },
        },
        Row {
            lines: "",
            presets: [
                preset_with(Kind::Delay, None, None),
                preset_with(Kind::Gain, Some(&BARE), None),
            ],
            answer: Answer::Refused {
                node: 0,
                kind: PresetRefusal::OtherClass,
            },
        },
        Row {
            lines: "",
            presets: [Source::None, preset_with(Kind::Gain, None, Some(&LOW))],
            answer: Answer::Refused {
                node: 1,
                kind: PresetRefusal::NoComp,
            },
        },
        Row {
            lines: "",
            presets: [Source::None, Source::None],
            answer: Answer::Begun {
                first: [8388608, 0, 8388608, 0],
                modes: [0, 0],
            },
        },
        Row {
            lines: "",
            presets: [
                preset_with(Kind::Gain, Some(&BARE), None),
                Source::Bytes(b"VST3"),
            ],
            answer: Answer::Refused {
                node: 1,
                kind: PresetRefusal::Fault(PresetFault::Short),
            },
        },
        Row {
            lines: "",
            presets: [Source::Missing, Source::Bytes(b"VST3")],
            answer: Answer::Unread(Place::Preset),
        },
        Row {
            lines: "",
            presets: [Source::Bytes(b"VST3"), Source::Missing],
            answer: Answer::Refused {
                node: 0,
                kind: PresetRefusal::Fault(PresetFault::Short),
            },
        },
    ]
}

/// Why nothing was loaded.
#[derive(Debug, Drop, Error)]
pub enum NotLoaded {
    #[error("{0}")]
    Text(#[from] Refusal<SessionFault>),
    #[error("out of memory")]
    Memory(#[from] AllocError),
}

/// The file of a preset.
fn file_of(alloc: Global, held: &Held) -> Result<Vec<u8>, AllocError> {
    let chunks = Chunks {
        comp: held.comp,
        cont: held.cont,
        prog: None,
        info: None,
    };
    if !chunks.fit() {
        return Err(AllocError);
    }
    vh_preset::write(alloc, &held.class.component(), &chunks)
}

/// Puts a node's file into a store, and adds its line.
fn add_source(
    alloc: Global,
    files: &mut MemFiles,
    lines: &mut String,
    node: &str,
    source: &Source,
) -> Result<(), AllocError> {
    let bytes = match source {
        Source::None => return Ok(()),
        Source::Missing => None,
        Source::Bytes(bytes) => Some(Vec::from_slice(alloc, bytes)?),
        Source::Preset(held) => Some(file_of(alloc, held)?),
    };
    let line = format!(in alloc; "preset {node} {node}.vstpreset\n")?;
    lines.push_str(&line)?;
    if let Some(bytes) = bytes {
        let name = format!(in alloc; "{node}.vstpreset")?;
        files.put(alloc, &name, bytes)?;
    }
    Ok(())
}

/// What the reading of presets answered.
fn unread(status: Status) -> Result<Answer, NotLoaded> {
    match status {
        Status::PresetRefused {
            node: Some(node),
            kind,
        } => Ok(Answer::Refused { node, kind }),
        Status::ReadFault(place) => Ok(Answer::Unread(place)),
        _ => Err(NotLoaded::Memory(AllocError)),
    }
}

/// What a band began with.
fn begun<P: Processor + Drop, C: Controller + Drop>(band: &Band<P, C>) -> Answer {
    let mut first = [0; 4];
    for (at, value) in first.iter_mut().zip(&band.first) {
        *at = *value;
    }
    let mut modes = [0; 2];
    for (at, edit) in modes.iter_mut().zip(&band.edits) {
        *at = edit.value().mode();
    }
    Answer::Begun { first, modes }
}

/// Reads the presets of a row, makes the band, looks at it, and takes it down.
pub fn load(alloc: Global, set: &mut BuiltIn, row: &Row) -> Result<Answer, NotLoaded> {
    let mut files = MemFiles::new(alloc)?;
    let mut lines = String::from_str(alloc, row.lines)?;
    add_source(alloc, &mut files, &mut lines, "a", &row.presets[0])?;
    add_source(alloc, &mut files, &mut lines, "b", &row.presets[1])?;
    let text = format!(in alloc;
        "vsthost session 1\nlength 8\nchannels 2\nbits 16\npattern 64\nnode a gain\nnode b gain\n{lines}"
    )?;
    let session = vh_session::read(alloc, text.as_bytes(), set.classes())?;
    let presets = match read_presets(alloc, &mut files, &session) {
        Ok(presets) => presets,
        Err(status) => return unread(status),
    };
    match make(alloc, set, &session, &presets, 64) {
        Ok(band) => {
            let answer = begun(&band);
            tear_down(set, band);
            Ok(answer)
        }
        Err(MakeRefused::Preset { node, kind }) => Ok(Answer::Refused { node, kind }),
        Err(MakeRefused::Memory) => Err(NotLoaded::Memory(AllocError)),
    }
}
