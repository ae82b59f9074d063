//! The rules on the words of a line.

ghost use Rattle.std.specs.Prelude.{◌≡◌, ◌<◌, ◌≤◌, length, IfOk, OnErr, IsSome};
ghost use Rattle.vh_session.specs.Seen.{seen};
ghost use Rattle.vh_params.specs.ClassList.{classes_of};
ghost use Rattle.vh_params.specs.Nodes.{nodes_of, LacksName, info_in};
ghost use Rattle.vh_session.specs.Rules.{any_number, number_within, number_that, arity, node_named, the_node, class_named, the_class, settable_param, first_end, last_end};
ghost use Rattle.vh_session.specs.Lines.{is_bits};
ghost use Rattle.vh_session.specs.Sound.{EndFits};

use crate::fault::SessionKind;
use crate::wire::End;
use vh_params::{ClassInfo, Classes, NodeTable, ParamInfo};
use vh_text::number;

/// Any number below 2^32.
pub(crate) fn any_number(text: &[u8]) -> Result<u32, SessionKind>
    ensures { result ≡ any_number text.now }
{
    match number(text) {
        Some(n) => Ok(n),
        None => Err(SessionKind::BadNumber),
    }
}

/// A number of a range.
pub(crate) fn number_within(text: &[u8], least: u32, most: u32) -> Result<u32, SessionKind>
    ensures value { result ≡ number_within least most text.now }
    ensures within { IfOk result (λ n. (least ≤ n) × (n ≤ most)) }
{
    let n = any_number(text)?;
    if least <= n && n <= most {
        Ok(n)
    } else {
        Err(SessionKind::BadNumber)
    }
}

/// The bits of a sample.
pub(crate) fn number_of_bits(text: &[u8]) -> Result<u32, SessionKind>
    ensures value { result ≡ number_that is_bits text.now }
    ensures within { IfOk result (λ n. n ≤ 24) }
{
    let n = any_number(text)?;
    if n == 16 || n == 24 {
        Ok(n)
    } else {
        Err(SessionKind::BadNumber)
    }
}

/// Whether a line has as many words as it takes.
pub(crate) fn arity(count: usize, least: usize, most: usize) -> Result<(), SessionKind>
    ensures { result ≡ arity least most count }
{
    if count < least {
        return Err(SessionKind::Missing);
    }
    if count > most {
        return Err(SessionKind::Extra);
    }
    Ok(())
}

/// The number of the node of a name.
pub(crate) fn the_node(nodes: &NodeTable, name: &[u8]) -> Result<u32, SessionKind>
    ensures value { result ≡ the_node (nodes_of nodes.now) name.now }
    ensures within { IfOk result (λ node. node < length (nodes_of nodes.now)) }
    ensures lacks { OnErr result (LacksName (nodes_of nodes.now) name.now) }
{
    match nodes.node(name) {
        Some(node) => Ok(node),
        None => Err(SessionKind::UnknownNode),
    }
}

/// The class of a name.
pub(crate) fn the_class<'a>(classes: &'a Classes, name: &[u8]) -> Result<&'a ClassInfo, SessionKind>
    ensures { seen result ≡ the_class (classes_of classes.now) name.now }
{
    match classes.find(name) {
        Some(class) => Ok(classes.info(class)),
        None => Err(SessionKind::UnknownClass),
    }
}

/// A parameter of a node that can be set.
pub(crate) fn settable_param(
    nodes: &NodeTable,
    node: u32,
    text: &[u8],
) -> Result<ParamInfo, SessionKind>
    ensures value { result ≡ settable_param (nodes_of nodes.now) node text.now }
    ensures there { IfOk result (λ param. IsSome (info_in (nodes_of nodes.now) node param.id)) }
{
    let id = any_number(text)?;
    let Some(&param) = nodes.info(node, id) else {
        return Err(SessionKind::UnknownParam);
    };
    if param.is_read_only() {
        return Err(SessionKind::ReadOnlyParam);
    }
    Ok(param)
}

/// Where a wire begins.
pub(crate) fn first_end(nodes: &NodeTable, text: &[u8]) -> Result<End, SessionKind>
    ensures value { result ≡ first_end (nodes_of nodes.now) text.now }
    ensures within { IfOk result (λ end. EndFits (length (nodes_of nodes.now)) end) }
{
    if text == b"in".as_slice() {
        return Ok(End::In);
    }
    Ok(End::Node(the_node(nodes, text)?))
}

/// Where a wire ends.
pub(crate) fn last_end(nodes: &NodeTable, text: &[u8]) -> Result<End, SessionKind>
    ensures value { result ≡ last_end (nodes_of nodes.now) text.now }
    ensures within { IfOk result (λ end. EndFits (length (nodes_of nodes.now)) end) }
{
    if text == b"out".as_slice() {
        return Ok(End::Out);
    }
    Ok(End::Node(the_node(nodes, text)?))
}
