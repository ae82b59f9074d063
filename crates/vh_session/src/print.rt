//! The canonical text of a session.

ghost use Rattle.std.specs.Prelude.{◌≡◌, ◌<◌, ◌≤◌, ◌++◌, [], ◌∷◌, List, ℕ, length, map, All, OnOk, IfOk, codes};
ghost use Rattle.std.specs.Fmt.{decimal};
ghost use Rattle.vh_params.specs.Nodes.{nodes_of, node_at};
ghost use Rattle.vh_session.specs.Text.{node_words, preset_words, param_words, wire_words, end_word, point_words, script_words, settings_words, lane_words, lanes_words, scripts_words, session_text};
ghost use Rattle.vh_text.specs.Written.{line_text, further_text, lines_text, written};
ghost use Rattle.vh_params.specs.declared.class.ClassInfo.{ClassInfo as Class};
ghost use Rattle.vh_session.specs.Ended.{SaysSession};
ghost use Rattle.vh_session.specs.Keeps.{IsScriptWord, StandsUnder};
ghost use Rattle.vh_session.specs.Names.{NamesNodes, content_of};
ghost use Rattle.vh_session.specs.Parts.{preset_text, laned};
ghost use Rattle.vh_session.specs.Sound.{EndFits, WireFits};
ghost use Rattle.vh_session.specs.View.{script_word, script_text};
ghost use Rattle.vh_session.specs.Limits.{most_editors};

use crate::session::Session;
use crate::wire::{End, Wire};
use std::alloc::{AllocError, Global};
use vh_lane::Lane;
use vh_params::{Command, NodeTable, Word};
use vh_text::Writer;

/// Begins a line with this word and the name of a node.
fn begin_line(
    text: &mut Writer,
    word: &[u8],
    nodes: &NodeTable,
    node: u32,
) -> Result<(), AllocError>
    requires { node < length (nodes_of nodes.now) }
    ensures { OnOk result (written text.new ≡ written text.old ++ word.now ++ 32 ∷ (node_at (nodes_of nodes.now) node).name) }
{
    text.begin(word)?;
    text.word(nodes.name(node).text())
}

/// `param NODE ID VALUE`.
fn write_param(
    text: &mut Writer,
    nodes: &NodeTable,
    first: (u32, u32, u32),
) -> Result<(), AllocError>
    requires { first.0 < length (nodes_of nodes.now) }
    ensures { OnOk result (written text.new ≡ written text.old ++ line_text (param_words (nodes_of nodes.now) first)) }
{
    begin_line(text, b"param", nodes, first.0)?;
    text.number(first.1)?;
    text.number(first.2)?;
    text.end()
}

/// `length L`, `channels C` or `bits B`.
fn write_setting(text: &mut Writer, name: &[u8], value: u32) -> Result<(), AllocError>
    ensures { OnOk result (written text.new ≡ written text.old ++ line_text (name.now ∷ decimal value ∷ [])) }
{
    text.begin(name)?;
    text.number(value)?;
    text.end()
}

/// `pattern N ..`.
fn write_pattern(text: &mut Writer, sizes: &[u32]) -> Result<(), AllocError>
    ensures { OnOk result (written text.new ≡ written text.old ++ line_text (codes "pattern" ∷ map decimal sizes.now)) }
{
    text.begin(b"pattern")?;
    text.last_numbers(sizes)
}

/// The lines that each session has.
fn write_settings(text: &mut Writer, session: &Session) -> Result<(), AllocError>
    ensures { OnOk result (written text.new ≡ written text.old ++ lines_text (settings_words (content_of session.now))) }
{
    text.begin(b"vsthost session 1\n")?;
    write_setting(text, b"length", session.length)?;
    write_setting(text, b"channels", u32::from(session.channels))?;
    write_setting(text, b"bits", u32::from(session.bits))?;
    write_pattern(text, &session.pattern)?;
    Ok(())
}

/// The lines of the nodes.
fn write_nodes(text: &mut Writer, nodes: &NodeTable) -> Result<(), AllocError>
    ensures { OnOk result (written text.new ≡ written text.old ++ lines_text (map node_words (nodes_of nodes.now))) }
{
    for node in 0..nodes.len() {
        write_node(text, nodes, node)?;
    }
    Ok(())
}

/// The lines of the presets.
fn write_presets(
    text: &mut Writer,
    nodes: &NodeTable,
    presets: &[(u32, Vec<u8>)],
) -> Result<(), AllocError>
    requires { All (λ preset. preset.0 < length (nodes_of nodes.now)) presets.now }
    ensures { OnOk result (written text.new ≡ written text.old ++ lines_text (map (preset_words (nodes_of nodes.now)) (map preset_text presets.now))) }
{
    for preset in presets {
        write_preset(text, nodes, preset.0, &preset.1)?;
    }
    Ok(())
}

/// The lines of the first values.
fn write_params(
    text: &mut Writer,
    nodes: &NodeTable,
    firsts: &[(u32, u32, u32)],
) -> Result<(), AllocError>
    requires { All (λ first. first.0 < length (nodes_of nodes.now)) firsts.now }
    ensures { OnOk result (written text.new ≡ written text.old ++ lines_text (map (param_words (nodes_of nodes.now)) firsts.now)) }
{
    for &first in firsts {
        write_param(text, nodes, first)?;
    }
    Ok(())
}

/// The lines of the wires.
fn write_wires(text: &mut Writer, nodes: &NodeTable, wires: &[Wire]) -> Result<(), AllocError>
    requires { All (λ wire. WireFits (length (nodes_of nodes.now)) wire) wires.now }
    ensures { OnOk result (written text.new ≡ written text.old ++ lines_text (map (wire_words (nodes_of nodes.now)) wires.now)) }
{
    for wire in wires {
        write_wire(text, nodes, wire)?;
    }
    Ok(())
}

/// `node NAME CLASS`.
fn write_node(text: &mut Writer, nodes: &NodeTable, node: u32) -> Result<(), AllocError>
    requires { node < length (nodes_of nodes.now) }
    ensures { OnOk result (written text.new ≡ written text.old ++ line_text (node_words (node_at (nodes_of nodes.now) node))) }
{
    begin_line(text, b"node", nodes, node)?;
    text.word(nodes.class_name(node).text())?;
    text.end()
}

/// `preset NODE FILE`.
fn write_preset(
    text: &mut Writer,
    nodes: &NodeTable,
    node: u32,
    file: &[u8],
) -> Result<(), AllocError>
    requires { node < length (nodes_of nodes.now) }
    ensures { OnOk result (written text.new ≡ written text.old ++ line_text (preset_words (nodes_of nodes.now) (node, file.now))) }
{
    begin_line(text, b"preset", nodes, node)?;
    text.word(file)?;
    text.end()
}

/// An end of a wire.
fn write_wire_end(text: &mut Writer, nodes: &NodeTable, end: End) -> Result<(), AllocError>
    requires { EndFits (length (nodes_of nodes.now)) end }
    ensures { OnOk result (written text.new ≡ written text.old ++ 32 ∷ end_word (nodes_of nodes.now) end) }
{
    match end {
        End::In => text.word(b"in"),
        End::Out => text.word(b"out"),
        End::Node(node) => text.word(nodes.name(node).text()),
    }
}

/// `wire FROM TO` or `wire FROM TO aux`.
fn write_wire(text: &mut Writer, nodes: &NodeTable, wire: &Wire) -> Result<(), AllocError>
    requires { WireFits (length (nodes_of nodes.now)) wire.now }
    ensures { OnOk result (written text.new ≡ written text.old ++ line_text (wire_words (nodes_of nodes.now) wire.now)) }
{
    text.begin(b"wire")?;
    write_wire_end(text, nodes, wire.from)?;
    write_wire_end(text, nodes, wire.to)?;
    if wire.aux {
        text.word(b"aux")?;
    }
    text.end()
}

/// `point SAMPLE VALUE`.
fn write_point(text: &mut Writer, point: (u32, u32)) -> Result<(), AllocError>
    ensures { OnOk result (written text.new ≡ written text.old ++ line_text (point_words point)) }
{
    text.begin(b"point")?;
    text.number(point.0)?;
    text.number(point.1)?;
    text.end()
}

/// A word of a script.
fn write_script_word(text: &mut Writer, nodes: &NodeTable, word: &Word) -> Result<(), AllocError>
    requires { IsScriptWord (length (nodes_of nodes.now)) (script_word word.now) }
    ensures { OnOk result (written text.new ≡ written text.old ++ line_text (script_words (nodes_of nodes.now) (script_word word.now))) }
{
    match *word {
        Word::Edit(Command::Begin { node, id }) => {
            begin_line(text, b"begin", nodes, node)?;
            text.number(id)?;
            text.end()
        }
        Word::Edit(Command::Perform { node, id, value }) => {
            begin_line(text, b"perform", nodes, node)?;
            text.number(id)?;
            text.number(value)?;
            text.end()
        }
        Word::Edit(Command::End { node, id }) => {
            begin_line(text, b"end", nodes, node)?;
            text.number(id)?;
            text.end()
        }
        Word::Edit(Command::Tell { node, words }) => {
            begin_line(text, b"tell", nodes, node)?;
            text.last_numbers(words.numbers())
        }
        Word::Hold(node) => {
            begin_line(text, b"hold", nodes, node)?;
            text.end()
        }
        Word::Unhold(node) => {
            begin_line(text, b"drop", nodes, node)?;
            text.end()
        }
        Word::Wait(block) => {
            text.begin(b"wait")?;
            text.number(block)?;
            text.end()
        }
    }
}

/// The lines of further breakpoints.
fn write_points(text: &mut Writer, points: &[(u32, u32)]) -> Result<(), AllocError>
    ensures { OnOk result (written text.new ≡ written text.old ++ lines_text (map point_words points.now)) }
{
    for &point in points {
        write_point(text, point)?;
    }
    Ok(())
}

/// `lane NODE ID GRAIN SAMPLE VALUE`.
fn write_first_point(
    text: &mut Writer,
    name: &[u8],
    id: u32,
    grain: u32,
    point: (u32, u32),
) -> Result<(), AllocError>
    ensures { OnOk result (written text.new ≡ written text.old ++ line_text (codes "lane" ∷ name.now ∷ decimal id ∷ decimal grain ∷ decimal point.0 ∷ decimal point.1 ∷ [])) }
{
    text.begin(b"lane")?;
    text.word(name)?;
    text.number(id)?;
    text.number(grain)?;
    text.number(point.0)?;
    text.number(point.1)?;
    text.end()
}

/// The lines of a lane.
fn write_lane(
    text: &mut Writer,
    nodes: &NodeTable,
    node: u32,
    id: u32,
    lane: &Lane,
) -> Result<(), AllocError>
    requires { node < length (nodes_of nodes.now) }
    ensures { OnOk result (written text.new ≡ written text.old ++ lines_text (lane_words (nodes_of nodes.now) (laned (node, id, lane.now)))) }
{
    let Some((first, rest)) = lane.breaks().split_first() else {
        return Ok(());
    };
    write_first_point(text, nodes.name(node).text(), id, lane.grain(), *first)?;
    write_points(text, rest)
}

/// The lines of a script's words.
fn write_script(text: &mut Writer, nodes: &NodeTable, script: &[Word]) -> Result<(), AllocError>
    requires { All (λ word. IsScriptWord (length (nodes_of nodes.now)) (script_word word)) script.now }
    ensures { OnOk result (written text.new ≡ written text.old ++ lines_text (map (script_words (nodes_of nodes.now)) (map script_word script.now))) }
{
    for word in script {
        write_script_word(text, nodes, word)?;
    }
    Ok(())
}

/// The lines of the lanes.
fn write_lanes(
    text: &mut Writer,
    nodes: &NodeTable,
    lanes: &[(u32, u32, Lane)],
) -> Result<(), AllocError>
    requires { All (λ lane. lane.0 < length (nodes_of nodes.now)) lanes.now }
    ensures { OnOk result (written text.new ≡ written text.old ++ lines_text (lanes_words (nodes_of nodes.now) (map laned lanes.now))) }
{
    for lane in lanes {
        write_lane(text, nodes, lane.0, lane.1, &lane.2)?;
    }
    Ok(())
}

/// The lines of the scripts.
fn write_scripts(
    text: &mut Writer,
    nodes: &NodeTable,
    scripts: &[Vec<Word>],
) -> Result<(), AllocError>
    requires few { length scripts.now ≤ most_editors }
    requires within { All (λ script. All (λ word. IsScriptWord (length (nodes_of nodes.now)) (script_word word)) script.items) scripts.now }
    ensures { OnOk result (written text.new ≡ written text.old ++ lines_text (scripts_words (nodes_of nodes.now) 0 (map script_text scripts.now))) }
{
    for editor in 0..scripts.len() {
        write_setting(text, b"editor", editor as u32)?;
        write_script(text, nodes, &scripts[editor])?;
    }
    Ok(())
}

/// Writes all lines of a session, whose parts name nodes that are there.
fn write_session(text: &mut Writer, session: &Session) -> Result<(), AllocError>
    requires { NamesNodes session.now }
    ensures { OnOk result (written text.new ≡ written text.old ++ session_text (content_of session.now)) }
{
    write_settings(text, session)?;
    write_nodes(text, &session.nodes)?;
    write_presets(text, &session.nodes, &session.presets)?;
    write_params(text, &session.nodes, &session.firsts)?;
    write_wires(text, &session.nodes, &session.wires)?;
    write_lanes(text, &session.nodes, &session.lanes)?;
    write_scripts(text, &session.nodes, &session.scripts)?;
    Ok(())
}

impl Session {
    /// Its canonical text: no comments, single spaces, no leading zeros; the settings, then the nodes, presets, first
    /// values, wires, lanes and scripts in the session's order. Read under classes that have its nodes', it is this
    /// session again.
    #[tactic(auto, using(crate::proofs::PartsNamed::names_nodes, crate::proofs::Printed::printed_says))]
    pub fn print(&self, alloc: Global) -> Result<Vec<u8>, AllocError>
        ensures text { IfOk result (λ text. text.items ≡ session_text (content_of self.now)) }
        ensures reads_back { IfOk result (λ text. (known : List Class) → StandsUnder known (content_of self.now) → SaysSession known text.items (content_of self.now)) }
    {
        let mut text = Writer::new(alloc);
        write_session(&mut text, self)?;
        Ok(text.finish())
    }
}
