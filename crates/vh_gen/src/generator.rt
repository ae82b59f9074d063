//! A session, its journal and its input, from a number.

ghost use Rattle.std.specs.Prelude.{◌≡◌, map, All, IfOk};
ghost use Rattle.vh_journal_text.specs.Items.{items_of};
ghost use Rattle.vh_journal_text.specs.Keeps.{AreEntries, AreThere};
ghost use Rattle.vh_params.specs.ClassList.{classes_of};
ghost use Rattle.vh_params.specs.Nodes.{nodes_of};
ghost use Rattle.vh_session.specs.Keeps.{IsSession, StandsUnder};
ghost use Rattle.vh_session.specs.Names.{content_of};
ghost use Rattle.vh_session.specs.Parts.{laned, HasSteps};
ghost use Rattle.vh_gen.specs.Generated.{content_with, session_of, journal_of, before_input};
ghost use Rattle.vh_gen.specs.Known.{BeginsBuiltIn};
ghost use Rattle.vh_gen.specs.Sound.{HasDrawn};

use crate::draws::Draws;
use crate::gestures::draw_gestures;
use crate::graph::{Graph, draw_graph};
use crate::lanes::draw_lanes;
use crate::nodes::node_table;
use crate::sound::{FRAMES, draw_sound};
use std::alloc::{AllocError, Global};
use vh_journal::Entry;
use vh_lane::Lane;
use vh_params::{Classes, NodeTable};
use vh_render::Sound;
use vh_session::{Session, Wire};

/// What comes of a number.
#[derive(Drop)]
pub struct Generated {
    pub session: Session,
    /// Edits and messages, by rising sample.
    pub entries: Vec<Entry>,
    /// As many frames as the session has.
    pub sound: Sound,
}

/// The session of these nodes, wires and lanes.
fn session_of(
    alloc: Global,
    nodes: NodeTable,
    wires: Vec<Wire>,
    lanes: Vec<(u32, u32, Lane)>,
) -> Result<Session, AllocError>
    requires keeps { IsSession (content_with 65536 (nodes_of nodes) wires.items (map laned lanes.items)) }
    requires steps { All (HasSteps nodes) lanes.items }
    ensures content { IfOk result (λ made. content_of made ≡ content_with 65536 (nodes_of nodes) wires.items (map laned lanes.items)) }
    ensures nodes { IfOk result (λ made. made.nodes ≡ nodes) }
    ensures frames { IfOk result (λ made. made.length ≡ 65536) }
{
    Ok(Session {
        length: FRAMES,
        channels: 2,
        bits: 16,
        pattern: vec![in alloc; 64, 1000, 1, 8192]?,
        nodes,
        presets: Vec::new(alloc),
        firsts: Vec::new(alloc),
        wires,
        lanes,
        scripts: Vec::new(alloc),
    })
}

/// The session, the journal and the input of a number, by its draws. The first eight of these classes are the built-in
/// ones.
///
/// The session stands under the classes, and its journal is one.
pub fn generate(alloc: Global, number: u32, classes: &Classes) -> Result<Generated, AllocError>
    requires { BeginsBuiltIn (classes_of classes.now) }
    ensures session { IfOk result (λ made. content_of made.session ≡ session_of (classes_of classes.now) number) }
    ensures stands { IfOk result (λ made. StandsUnder (classes_of classes.now) (content_of made.session)) }
    ensures entries { IfOk result (λ made. made.entries.items ≡ journal_of (classes_of classes.now) number) }
    ensures journal { IfOk result (λ made. AreEntries (nodes_of made.session.nodes) made.session.length (items_of made.entries.items)) }
    ensures there { IfOk result (λ made. AreThere (nodes_of made.session.nodes) made.entries.items) }
    ensures sound { IfOk result (λ made. HasDrawn (before_input (classes_of classes.now) number) made.sound) }
{
    let mut draws = Draws { state: number };
    let more = draws.below(25);
    let graph = draw_graph(alloc, &mut draws, 8 + more)?;
    let nodes = node_table(alloc, classes, &graph.kinds)?;
    let lanes = draw_lanes(alloc, &mut draws, &nodes)?;
    let entries = draw_gestures(alloc, &mut draws, &graph.kinds)?;
    let sound = draw_sound(alloc, &mut draws)?;
    let Graph { kinds: _, wires } = graph;
    let session = session_of(alloc, nodes, wires, lanes)?;
    Ok(Generated {
        session,
        entries,
        sound,
    })
}
