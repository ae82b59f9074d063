//! Reading presets.

ghost use Rattle.std.specs.Prelude.{◌≡◌, ◌<◌, Option, None, length, map, option_map, option_copied, IfOk, IfErr};
ghost use Rattle.vh_answers.specs.Each.{AllGive, OneHalts};
ghost use Rattle.vh_answers.specs.Outside.{store, OnlyReads};
ghost use Rattle.vh_answers.specs.Steps.{Gives, Halts};
ghost use Rattle.vh_params.specs.Nodes.{nodes_of};
ghost use Rattle.vh_preset.specs.Seen.{contents_of};
ghost use Rattle.vh_session.specs.Keeps.{IsFile};
ghost use Rattle.vh_session.specs.Names.{content_of};
ghost use Rattle.vh_reading.specs.Reading.{file_of, node_step, preset_step};

use crate::text::read_text;
use std::alloc::Global;
use vh_answers::{Place, Status};
use vh_files::Files;
use vh_num::Refusal;
use vh_preset::{PRESET_LIMIT, Preset, PresetRefusal};
use vh_session::Session;

/// Reads a preset: that of a node, or one that is no node's. One of more than 2^26 bytes is refused before it is read.
pub fn read_preset<F: Files>(
    alloc: Global,
    files: &mut F,
    name: &str,
    node: Option<u32>,
) -> Result<Preset, Status>
    ensures gives { IfOk result (λ preset. Gives (store F.Files files.old) (preset_step node name.now) (contents_of preset)) }
    ensures stop { IfErr result (Halts (store F.Files files.old) (store F.Files files.new) (preset_step node name.now)) }
    ensures only_read { OnlyReads (store F.Files files.old) (store F.Files files.new) }
{
    let long = Status::PresetRefused {
        node,
        kind: PresetRefusal::TooLong,
    };
    let bytes = read_text(alloc, files, name, Place::Preset, PRESET_LIMIT, long)?;
    match vh_preset::read(alloc, bytes) {
        Ok(preset) => Ok(preset),
        Err(Refusal::Fault(fault)) => Err(Status::PresetRefused {
            node,
            kind: PresetRefusal::Fault(fault),
        }),
        Err(Refusal::Memory) => Err(Status::Memory),
    }
}

/// The name of a file as text.
fn name_of(file: &[u8]) -> &str
    requires { IsFile file.now }
    ensures { result.now ≡ file.now }
{
    std::str::from_utf8(file).unwrap()
}

/// The file of a node's preset, where it has one.
fn file_of(session: &Session, node: u32) -> Option<&str>
    ensures { option_copied result ≡ file_of (content_of session.now) node }
{
    for preset in &session.presets {
        if preset.0 == node {
            return Some(name_of(&preset.1));
        }
    }
    None
}

/// Reads the preset of a node, where it has one.
fn read_of_node<F: Files>(
    alloc: Global,
    files: &mut F,
    session: &Session,
    node: u32,
) -> Result<Option<Preset>, Status>
    ensures gives { IfOk result (λ preset. Gives (store F.Files files.old) (node_step (content_of session.now) node) (option_map contents_of preset)) }
    ensures stop { IfErr result (Halts (store F.Files files.old) (store F.Files files.new) (node_step (content_of session.now) node)) }
    ensures only_read { OnlyReads (store F.Files files.old) (store F.Files files.new) }
{
    let Some(name) = file_of(session, node) else {
        return Ok(None);
    };
    match read_preset(alloc, files, name, Some(node)) {
        Ok(preset) => Ok(Some(preset)),
        Err(status) => Err(status),
    }
}

/// Reads the presets of a session: for each node its own, or none. They are read and refused by node.
pub fn read_presets<F: Files>(
    alloc: Global,
    files: &mut F,
    session: &Session,
) -> Result<Vec<Option<Preset>>, Status>
    ensures size { IfOk result (λ presets. length presets.items ≡ length (nodes_of session.now.nodes)) }
    ensures gives { IfOk result (λ presets. AllGive (store F.Files files.old) (node_step (content_of session.now)) (length (nodes_of session.now.nodes)) (map (option_map contents_of) presets.items)) }
    ensures stop { IfErr result (OneHalts (store F.Files files.old) (store F.Files files.new) (node_step (content_of session.now)) (length (nodes_of session.now.nodes))) }
    ensures only_read { OnlyReads (store F.Files files.old) (store F.Files files.new) }
{
    let count = session.nodes.len();
    let Ok(mut presets) = Vec::with_capacity(alloc, count as usize) else {
        return Err(Status::Memory);
    };
    for node in 0..count {
        match read_of_node(alloc, files, session, node) {
            Ok(preset) => presets.push_reserved(preset),
            Err(status) => return Err(status),
        }
    }
    Ok(presets)
}
