//! The values of a node's parameters.

ghost use Rattle.std.specs.Prelude.{◌≡◌, ◌≢◌, ◌≤◌, ◌<◌, ◌^◌, ℕ, List, length, All};
ghost use Rattle.vh_params.specs.Nodes.{nodes_of, node_at};
ghost use Rattle.vh_plugin.specs.Class.{Class};
ghost use Rattle.vh_session.specs.Names.{content_of};
ghost use Rattle.vh_meaning.specs.Scene.{scene_of};
ghost use Rattle.vh_meaning.specs.Values.{values_at};
ghost use Rattle.vh_legal.specs.Laws.{AreClassesOf};
ghost use Rattle.vh_legal.specs.Values.{AreFirsts, IsWithinOne};
ghost use Rattle.vh_core.specs.Playing.{ArePlayable};
ghost use Rattle.vh_core.specs.Stage.{IsPlan, IsRoom, values_in};

use crate::stage::{Plan, Room};
use vh_journal::Entry;
use vh_legal::laws::value_is_in_place;
use vh_legal::value;
use vh_session::Session;

/// Gives the normalised values of a node's parameters at a sample under these entries, by rising id.
fn put_values(
    session: &Session,
    firsts: &[u32],
    entries: &[Entry],
    node: u32,
    sample: u32,
    given: &mut [u32],
)
    requires node { node < length (nodes_of session.now.nodes) }
    requires firsts { AreFirsts (nodes_of session.now.nodes) firsts.now }
    requires within { All (λ entry. IsWithinOne entry.command) entries.now }
    requires each { length given.old ≡ length (node_at (nodes_of session.now.nodes) node).params }
    ensures values { (class_of : ℕ → Class) (codes : List ℕ) → AreClassesOf class_of codes (content_of session.now)
        → given.new ≡ values_at (scene_of class_of codes firsts.now (content_of session.now)) entries.now sample node }
    ensures within { All (λ value. value ≤ 2 ^ 24) given.new }
{
    value_is_in_place();
    let params = session.nodes.table(node).params();
    for place in 0..given.len() {
        given[place] = value(session, firsts, entries, node, params[place].id, sample);
    }
}

/// Finds the values of a node's parameters at a sample under these entries.
pub(crate) fn value_node(
    session: &Session,
    plan: &Plan,
    room: &mut Room,
    entries: &[Entry],
    node: u32,
    sample: u32,
)
    requires node { node < length (nodes_of session.now.nodes) }
    requires plan { IsPlan (content_of session.now) plan.now }
    requires room { IsRoom (content_of session.now) room.old }
    requires entries { ArePlayable (length (nodes_of session.now.nodes)) entries.now }
    ensures values { (class_of : ℕ → Class) (codes : List ℕ) → AreClassesOf class_of codes (content_of session.now)
        → values_in room.new.values.items node ≡ values_at (scene_of class_of codes plan.now.firsts.items (content_of session.now)) entries.now sample node }
    ensures others { (other : ℕ) → other ≢ node → values_in room.new.values.items other ≡ values_in room.old.values.items other }
    ensures within { All (λ value. value ≤ 2 ^ 24) (values_in room.new.values.items node) }
    ensures room { IsRoom (content_of session.now) room.new }
{
    let given = &mut room.values[node as usize];
    put_values(session, &plan.firsts, entries, node, sample, given);
}
