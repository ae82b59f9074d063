//! Processors of the built-in classes, ready to play a session.

ghost use Rattle.std.specs.Prelude.{◌≡◌, ◌≤◌, ◌<◌, ◌+◌, ◌^◌, ℕ, length, All, IfOk, OnOk};
ghost use Rattle.vh_params.specs.Nodes.{nodes_of, node_at};
ghost use Rattle.vh_component.specs.declared.setup.Phase.TheVariants.{Created, Processing};
ghost use Rattle.vh_plugin.specs.Class.{AreValues};
ghost use Rattle.vh_session.specs.Keeps.{StandsUnder};
ghost use Rattle.vh_session.specs.Names.{content_of};
ghost use Rattle.vh_legal.specs.Values.{AreFirsts};
ghost use Rattle.vh_core.specs.Machine.{AreReady};
ghost use Rattle.machine_tests.specs.Ready.{IsReadyAt};

use std::alloc::{AllocError, Global};
use vh_component::{Life, Setup};
use vh_num::{ONE, quant};
use vh_params::ParamInfo;
use vh_plugin::{PluginSet, Processor};
use vh_session::Session;

/// The value that a `param` line gives a parameter, or its class's.
fn first_value(session: &Session, node: u32, param: &ParamInfo) -> u32
    ensures { result ≤ 2 ^ 24 }
{
    let mut value = param.first;
    for first in &session.firsts {
        if first.0 == node && first.1 == param.id {
            value = first.2;
        }
    }
    vh_num::laws::quant_within();
    quant(value.min(ONE), param.steps.min(4095))
}

/// The first values of a session without presets, node by node.
pub(crate) fn first_values(alloc: Global, session: &Session) -> Result<Vec<u32>, AllocError>
    ensures { IfOk result (λ values. AreFirsts (nodes_of session.now.nodes) values.items) }
{
    let mut values = Vec::new(alloc);
    for node in 0..session.nodes.len() {
        add_values(session, node, &mut values)?;
    }
    Ok(values)
}

/// Adds those of a node.
fn add_values(session: &Session, node: u32, values: &mut Vec<u32>) -> Result<(), AllocError>
    requires node { node < length (nodes_of session.now.nodes) }
    requires within { All (λ value. value ≤ 2 ^ 24) values.old.items }
    ensures each { OnOk result (length values.new.items ≡ length values.old.items + length (node_at (nodes_of session.now.nodes) node).params) }
    ensures within { OnOk result (All (λ value. value ≤ 2 ^ 24) values.new.items) }
{
    for param in session.nodes.table(node).params() {
        values.push(first_value(session, node, param))?;
    }
    Ok(())
}

/// Brings a processor that was created to processing, at these values.
fn start<P: Processor>(processor: P, setup: &Setup, values: &[u32]) -> P
    requires created { P.phase processor ≡ Created }
    requires values { AreValues (P.class_of (P.code processor)).params values.now }
    ensures phase { P.phase result ≡ Processing }
    ensures setup { P.last_setup result ≡ setup.now }
    ensures code { P.code result ≡ P.code processor }
    ensures values { P.values result ≡ values.now }
    ensures state { P.state result ≡ P.state processor }
{
    let mut processor = processor;
    processor.set_first(values);
    processor.initialize();
    processor.set_up(setup);
    processor.set_active(true);
    processor.set_processing(true);
    processor
}

/// A processor of a node's class, at these values, that plays.
fn player<S: PluginSet>(
    alloc: Global,
    set: &mut S,
    session: &Session,
    node: u32,
    values: &[u32],
) -> Result<S::P, AllocError>
    requires node { node < length (nodes_of session.now.nodes) }
    requires stands { StandsUnder (S.infos set.old) (content_of session.now) }
    requires each { length values.now ≡ length (node_at (nodes_of session.now.nodes) node).params }
    requires within { All (λ value. value ≤ 2 ^ 24) values.now }
    ensures player { IfOk result (IsReadyAt S.P.Processor.class_of S.P.Processor.code S.P.Processor.state S.P.Processor.values S.P.Life.phase S.P.Life.last_setup (content_of session.now) node values.now) }
    ensures infos { S.infos set.new ≡ S.infos set.old }
{
    let setup = Setup {
        channels: session.channels,
        max: 1,
    };
    let name = session.nodes.class_name(node).text();
    match set.classes().find(name) {
        Some(class) => {
            let made = set.create_component(alloc, class)?;
            Ok(start(made, &setup, values))
        }
        None => Err(AllocError),
    }
}

/// One for each node, at these first values.
pub(crate) fn players<S: PluginSet>(
    alloc: Global,
    set: &mut S,
    session: &Session,
    first: &[u32],
) -> Result<Vec<S::P>, AllocError>
    requires stands { StandsUnder (S.infos set.old) (content_of session.now) }
    requires first { AreFirsts (nodes_of session.now.nodes) first.now }
    ensures { IfOk result (λ made. AreReady S.P.Processor.class_of S.P.Processor.code S.P.Processor.state S.P.Processor.values S.P.Life.phase S.P.Life.last_setup (content_of session.now) first.now made.items) }
{
    let mut made = Vec::new(alloc);
    let mut from = 0;
    for node in 0..session.nodes.len() {
        let to = from + session.nodes.table(node).params().len();
        made.push(player(alloc, set, session, node, &first[from..to])?)?;
        from = to;
    }
    Ok(made)
}
