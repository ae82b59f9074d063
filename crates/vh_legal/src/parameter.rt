//! A parameter's value at a sample.

ghost use Rattle.std.specs.Prelude.{◌≡◌, ◌≤◌, ◌<◌, ◌^◌, All, IsSome, length, position, slice_index, take};
ghost use Rattle.std.specs.Option.{option_copied};
ghost use Rattle.vh_params.specs.Nodes.{nodes_of, info_in};
ghost use Rattle.vh_session.specs.Names.{content_of};
ghost use Rattle.vh_session.specs.Parts.{steps_in};
ghost use Rattle.vh_meaning.specs.Edits.{edits_of, up_to};
ghost use Rattle.vh_meaning.specs.Scene.{lane_in, line_of};
ghost use Rattle.vh_meaning.specs.Stands.{touch_after};
ghost use Rattle.vh_legal.specs.Touches.{touch_of};
ghost use Rattle.vh_legal.specs.Values.{AreFirsts, IsWithinOne, IsValue, has_id, param_count, place_of, line_in};

use crate::touch::Touch;
use vh_journal::Entry;
use vh_lane::Lane;
use vh_params::{NodeTable, ParamInfo};
use vh_session::Session;

/// The normalised value, 0 to 2^24, of a session's parameter at a sample under these entries. `firsts` has one value
/// for each parameter, node by node and by rising id; a perform is of 2^24 at most. That it is the value which the
/// rendering has is a law: [`value_is_in_place`](crate::laws::value_is_in_place).
pub fn value(
    session: &Session,
    firsts: &[u32],
    entries: &[Entry],
    node: u32,
    id: u32,
    sample: u32,
) -> u32
    requires firsts { AreFirsts (nodes_of session.now.nodes) firsts.now }
    requires there { IsSome (info_in (nodes_of session.now.nodes) node id) }
    requires within { All (λ entry. IsWithinOne entry.command) entries.now }
    ensures value { IsValue (content_of session.now) firsts.now entries.now node id sample result }
    ensures within { result ≤ 2 ^ 24 }
{
    let param = session.nodes.info(node, id).unwrap();
    let lane = lane_of(session, node, id);
    let first = first_value(&session.nodes, firsts, node, id);
    touch_at(lane, param, first, entries, node, sample).value_at(lane, sample)
}

/// What the entries up to a sample leave of a parameter.
fn touch_at(
    lane: Option<&Lane>,
    param: &ParamInfo,
    first: u32,
    entries: &[Entry],
    node: u32,
    sample: u32,
) -> Touch
    requires steps { param.now.steps ≤ 4095 }
    requires first { first ≤ 2 ^ 24 }
    requires within { All (λ entry. IsWithinOne entry.command) entries.now }
    ensures touch { touch_of result ≡ touch_after (line_in (option_copied lane.entry)) param.now.steps first (edits_of (up_to sample entries.now) node param.now.id) }
    ensures within { result.value ≤ 2 ^ 24 }
{
    let mut touch = Touch {
        value: first,
        begun: 0,
        ended: 0,
    };
    for entry in entries {
        if entry.sample <= sample {
            touch.take(lane, param.steps, node, param.id, entry);
        }
    }
    touch
}

/// The lane of a parameter, where it has one.
fn lane_of(session: &Session, node: u32, id: u32) -> Option<&Lane>
    ensures { line_in (option_copied result) ≡ line_of (steps_in (info_in (nodes_of session.now.nodes) node id)) (lane_in (content_of session.now).lanes node id) }
{
    for lane in &session.lanes {
        if lane.0 == node && lane.1 == id {
            return Some(&lane.2);
        }
    }
    None
}

/// The first value of a parameter.
fn first_value(nodes: &NodeTable, firsts: &[u32], node: u32, id: u32) -> u32
    requires firsts { AreFirsts (nodes_of nodes.now) firsts.now }
    requires there { IsSome (info_in (nodes_of nodes.now) node id) }
    ensures value { result ≡ slice_index firsts.now (place_of (nodes_of nodes.now) node id) }
    ensures within { result ≤ 2 ^ 24 }
{
    let place = place_in(nodes.table(node).params(), id).unwrap();
    firsts[params_before(nodes, node) + place]
}

/// How many parameters the nodes before this one have together.
pub(crate) fn params_before(nodes: &NodeTable, node: u32) -> usize
    requires { node ≤ length (nodes_of nodes.now) }
    ensures { result ≡ param_count (take node (nodes_of nodes.now)) }
{
    let mut count = 0;
    for before in 0..node {
        count += nodes.table(before).params().len();
    }
    count
}

/// The place of a parameter among these.
fn place_in(params: &[ParamInfo], id: u32) -> Option<usize>
    ensures { result ≡ position (has_id id) params.now }
{
    params.iter().position(|param| param.id == id)
}
