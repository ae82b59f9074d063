//! What is seen of the parameters.

ghost use Rattle.std.specs.Prelude.{◌≡◌, ◌≤◌, ◌<◌, ◌+◌, ◌++◌, ℕ, true, length, map, sum_by, vec_len, vec_capacity, if◌then◌else◌};
ghost use Rattle.vh_params.specs.Flags.{is_read_only};
ghost use Rattle.vh_params.specs.Nodes.{nodes_of, node_at};
ghost use Rattle.vh_plugin.specs.Class.{State, has_shown, param_of};
ghost use Rattle.vh_session.specs.Names.{content_of};
ghost use Rattle.vh_meaning.specs.Values.{values_at};
ghost use Rattle.vh_meaning.specs.Rendering.{seen_of, seen_at, of_all};
ghost use Rattle.vh_core.specs.State.{scene_in};
ghost use Rattle.vh_core.specs.Playing.{ArePlayers, HaveStates, setting_by, ArePlayable};
ghost use Rattle.vh_core.specs.Stage.{IsPlan, IsRoom};

use crate::stage::{Plan, Room};
use crate::values::value_node;
use vh_journal::Entry;
use vh_params::ParamInfo;
use vh_plugin::Processor;
use vh_session::Session;

/// A parameter's value: what it is, or what its processor shows where it is read-only.
fn shown_of<P: Processor + Drop>(processor: &P, param: &ParamInfo, given: u32) -> u32
    requires { is_read_only param.now.flags ≡ true → has_shown (P.class_of (P.code processor.now)).params param.now.id ≡ true }
    ensures { result ≡ (if is_read_only param.now.flags then (P.class_of (P.code processor.now)).shown (P.state processor.now) param.now.id else given) }
{
    if param.is_read_only() {
        processor.shown(param.id)
    } else {
        given
    }
}

/// Shows a node's parameters: what they are, and what its processor shows of read-only ones.
fn show_node<P: Processor + Drop>(
    processor: &P,
    params: &[ParamInfo],
    given: &[u32],
    shown: &mut Vec<u32>,
)
    requires params { (P.class_of (P.code processor.now)).params ≡ map param_of params.now }
    requires each { length given.now ≡ length params.now }
    requires room { vec_len shown.old + length params.now ≤ vec_capacity shown.old }
    ensures shown { shown.new.items ≡ shown.old.items ++ seen_of (P.class_of (P.code processor.now)) (P.state processor.now) (P.class_of (P.code processor.now)).params given.now }
    ensures long { vec_len shown.new ≡ vec_len shown.old + length params.now }
    ensures capacity { vec_capacity shown.new ≡ vec_capacity shown.old }
{
    for place in 0..params.len() {
        shown.push_reserved(shown_of(processor, &params[place], given[place]));
    }
}

/// Shows all parameters at a sample, node by node.
pub(crate) fn show<P: Processor + Drop>(
    session: &Session,
    plan: &Plan,
    processors: &[P],
    room: &mut Room,
    journal: &[Entry],
    sample: u32,
    shown: &mut Vec<u32>,
)
    requires plan { IsPlan (content_of session.now) plan.now }
    requires players { ArePlayers P.class_of P.code P.phase P.last_setup (content_of session.now) processors.now }
    requires room { IsRoom (content_of session.now) room.old }
    requires journal { ArePlayable (length (nodes_of session.now.nodes)) journal.now }
    requires shown { vec_len shown.old + sum_by (λ node. length node.params) (nodes_of session.now.nodes) ≤ vec_capacity shown.old }
    ensures shown { (states : ℕ → State) → HaveStates P.state processors.now states
        → shown.new.items ≡ shown.old.items ++ of_all (scene_in (setting_by P.class_of P.code (content_of session.now) plan.now.firsts.items processors.now))
        (seen_at (scene_in (setting_by P.class_of P.code (content_of session.now) plan.now.firsts.items processors.now)) states (values_at (scene_in (setting_by P.class_of P.code (content_of session.now) plan.now.firsts.items processors.now)) journal.now sample)) }
    ensures room { IsRoom (content_of session.now) room.new }
{
    for node in 0..session.nodes.len() {
        value_node(session, plan, room, journal, node, sample);
        let params = session.nodes.table(node).params();
        let given = &room.values[node as usize];
        show_node(&processors[node as usize], params, given, shown);
    }
}
