//! What a rendering is played from.

ghost use Rattle.std.specs.Prelude.{◌≡◌, ◌≤◌, ℕ, List, [], IfOk, IfErr, Some, None};
ghost use Rattle.vh_journal.specs.declared.entry.Entry.{Entry as Stored};
ghost use Rattle.vh_journal_text.specs.Items.{items_of};
ghost use Rattle.vh_journal_text.specs.Keeps.{AreEntries, AreThere};
ghost use Rattle.vh_params.specs.Nodes.{nodes_of};
ghost use Rattle.vh_session.specs.Names.{content_of};
ghost use Rattle.vh_meaning.specs.Scene.{Scene};
ghost use Rattle.vh_meaning.specs.Rendering.{stops};
ghost use Rattle.vh_answers.specs.Outside.{store, OnlyReads};
ghost use Rattle.vh_answers.specs.Steps.{Halted};
ghost use Rattle.vh_host.specs.Input.{Heard, IsHeard};
ghost use Rattle.vh_host.specs.Commands.{heard_steps, made_steps};
ghost use Rattle.vh_host.specs.Named.{render_of};
ghost use Rattle.vh_host.specs.Material.{AreGiven, IsGathered};

use crate::blocks::Blocks;
use crate::input::{Input, read_input};
use crate::journal::{read_journal, stops};
use crate::words::Render;
use std::alloc::Global;
use vh_answers::Status;
use vh_files::Files;
use vh_journal::Entry;
use vh_render::Score;
use vh_session::Session;

/// What a rendering is played from: the input, the entries, and the samples at which pieces stop.
#[derive(Drop)]
pub(crate) struct Material {
    pub(crate) input: Input,
    pub(crate) entries: Vec<Entry>,
    pub(crate) stops: Vec<u32>,
}

/// Reads the entries of a rendering's journal, where it has one.
fn read_entries<F: Files>(
    alloc: Global,
    files: &mut F,
    render: &Render<'_>,
    session: &Session,
) -> Result<Vec<Entry>, Status>
    ensures given { IfOk result (λ entries. AreGiven (store F.Files files.old) (content_of session.now) (render_of render.now).journal entries.items) }
    ensures journal { IfOk result (λ entries. AreEntries (nodes_of session.now.nodes) session.now.length (items_of entries.items)) }
    ensures there { IfOk result (λ entries. AreThere (nodes_of session.now.nodes) entries.items) }
    ensures stop { (scene : Scene) (modes : List ℕ) (heard : Heard) → IfErr result (Halted (store F.Files files.old) (store F.Files files.new) (heard_steps scene modes (render_of render.now) (content_of session.now) heard)) }
    ensures only_read { OnlyReads (store F.Files files.old) (store F.Files files.new) }
{
    match render.journal {
        Some(name) => read_journal(alloc, files, name, &session.nodes, session.length),
        None => Ok(Vec::new(alloc)),
    }
}

/// Reads what a session is rendered from.
pub(crate) fn read_material<F: Files>(
    alloc: Global,
    files: &mut F,
    render: &Render<'_>,
    session: &Session,
) -> Result<Material, Status>
    ensures gathered { IfOk result (λ material. (heard : Heard) × IsGathered (store F.Files files.old) (render_of render.now) (content_of session.now) heard material) }
    ensures journal { IfOk result (λ material. AreEntries (nodes_of session.now.nodes) session.now.length (items_of material.entries.items)) }
    ensures there { IfOk result (λ material. AreThere (nodes_of session.now.nodes) material.entries.items) }
    ensures stop { (scene : Scene) (modes : List ℕ) → IfErr result (Halted (store F.Files files.old) (store F.Files files.new) (made_steps scene modes (render_of render.now) (content_of session.now))) }
    ensures only_read { OnlyReads (store F.Files files.old) (store F.Files files.new) }
{
    let input = match read_input(alloc, files, render.input, session.channels, session.length) {
        Ok(input) => input,
        Err(status) => return Err(status),
    };
    let entries = match read_entries(alloc, files, render, session) {
        Ok(entries) => entries,
        Err(status) => return Err(status),
    };
    let Ok(stops) = stops(alloc, &entries) else {
        return Err(Status::Memory);
    };
    Ok(Material {
        input,
        entries,
        stops,
    })
}

impl Material {
    /// The score of a session that is played from this in these blocks.
    pub(crate) fn score<'a>(&'a self, blocks: &'a Blocks, session: &Session) -> Score<'a>
        ensures length { result.length ≡ session.now.length }
        ensures sound { result.sound.now ≡ self.now.input.sound }
        ensures pattern { result.pattern.now ≡ blocks.now.sizes.items }
        ensures entries { result.entries.now ≡ self.now.entries.items }
        ensures stops { result.stops.now ≡ self.now.stops.items }
        ensures bits { result.bits ≡ session.now.bits }
        ensures rate { result.rate ≡ self.now.input.rate }
    {
        Score {
            length: session.length,
            sound: &self.input.sound,
            pattern: &blocks.sizes,
            entries: &self.entries,
            stops: &self.stops,
            bits: session.bits,
            rate: self.input.rate,
        }
    }
}
