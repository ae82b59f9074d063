//! Components are made.

ghost use Rattle.std.specs.Prelude.{◌≡◌, ◌≤◌, ◌<◌, ℕ, length, None, OnOk, OnErr, IfOk, MatchResult};
ghost use Rattle.vh_component.specs.declared.setup.Phase.TheVariants.{Created as AtCreated, Initialized as AtInitialized, Processing as AtProcessing};
ghost use Rattle.vh_component.specs.Layouts.{buses_of};
ghost use Rattle.vh_component.specs.States.{of_initialized, of_processing, layout_of, layout_of_processing, IsStep};
ghost use Rattle.vh_params.specs.ClassList.{classes_of};
ghost use Rattle.vh_params.specs.Nodes.{nodes_of, node_at};
ghost use Rattle.vh_session.specs.Keeps.{StandsUnder};
ghost use Rattle.vh_session.specs.Names.{content_of};
ghost use Rattle.vh_instance.specs.Raised.{raised_times, IsUndone};
ghost use Rattle.vh_counted.specs.Held.{object_of, object_of_opened, numbers_of_opened, value_of_opened};
ghost use Rattle.vh_counted.specs.Objects.{IsWhole};
ghost use Rattle.vh_counted.specs.Steps.{first_numbers};
ghost use Rattle.vh_plugin.specs.Counts.{raised};
ghost use Rattle.vh_instance.specs.Seats.{opener_seat, processor_seat, Has};
ghost use Rattle.vh_instance.specs.Plan.{plan_for, class_number, code_at};
ghost use Rattle.vh_instance.specs.Presets.{AreAccepted, refusal_at};
ghost use Rattle.vh_instance.specs.Firsts.{firsts_at, first_values};
ghost use Rattle.vh_instance.specs.Band.{IsComponent, AreComponents, component_table, component_object, is_side, has_side, node_buses, of_openers, by_node};

use crate::end::end_components;
use crate::firsts::{add_values, values_of};
use crate::presets::load_component;
use crate::references::add_reference;
use std::alloc::{AllocError, Global};
use vh_component::{Created, Initialized, Layout, Life, Processing, Setup};
use vh_counted::{Counted, Opened, Shell};
use vh_ids::Interface;
use vh_params::Classes;
use vh_plugin::{Controller, PluginSet, Processor};
use vh_preset::Preset;
use vh_query::Interfaces;
use vh_session::{End, Session, Wire};

/// Components, their openers, which process, and the first values, node by node.
pub(crate) struct Components<P> {
    pub(crate) components: Vec<Counted<P>>,
    pub(crate) processors: Vec<Processing<P>>,
    pub(crate) first: Vec<u32>,
}

/// The number of a node's class.
pub(crate) fn class_of_node(classes: &Classes, session: &Session, node: u32) -> u32
    requires node { node < length (nodes_of session.now.nodes) }
    requires stands { StandsUnder (classes_of classes.now) (content_of session.now) }
    ensures number { result ≡ class_number (classes_of classes.now) (node_at (nodes_of session.now.nodes) node).class_name }
    ensures within { result < length (classes_of classes.now) }
{
    classes.find(session.nodes.class_name(node).text()).unwrap()
}

/// Whether a wire reaches a node's aux bus.
fn is_side(wire: &Wire, node: u32) -> bool
    ensures { result ≡ is_side node wire.now }
{
    match wire.to {
        End::Node(number) => number == node && wire.aux,
        End::In | End::Out => false,
    }
}

/// Whether an aux wire reaches a node.
fn has_aux_wire(session: &Session, node: u32) -> bool
    ensures { result ≡ has_side session.now.wires.items node }
{
    session.wires.iter().any(|wire| is_side(wire, node))
}

/// Adds a reference at each of a component's other interfaces.
fn find_interfaces<P: Drop>(object: &Counted<P>, opener: &mut Opened<P>)
    requires of_this { object_of_opened opener.old ≡ object_of object.now }
    requires object { object_of object.now ≡ component_object }
    requires first { numbers_of_opened opener.old ≡ first_numbers 4 }
    ensures references { Has component_table (λ interface. 1) 0 (opener_seat opener.new) }
    ensures whole { IsWhole 4 (numbers_of_opened opener.new) }
    ensures object { object_of_opened opener.new ≡ object_of_opened opener.old }
    ensures value { value_of_opened opener.new ≡ value_of_opened opener.old }
{
    let table = Interfaces::of_component();
    add_reference(&table, object, opener, Interface::PluginBase);
    add_reference(&table, object, opener, Interface::Component);
    add_reference(&table, object, opener, Interface::AudioProcessor);
    add_reference(&table, object, opener, Interface::ConnectionPoint);
}

/// Initializes a component. Its aux bus, where it has one, is active if a wire reaches it.
fn initialize<P: Life + Drop>(
    opener: Opened<P>,
    channels: u16,
    aux: bool,
    reached: bool,
) -> Initialized<P>
    requires { P.phase (value_of_opened opener) ≡ AtCreated }
    ensures phase { P.phase (value_of_opened (of_initialized result)) ≡ AtInitialized }
    ensures step { IsStep P.rest opener (of_initialized result) }
    ensures buses { buses_of (layout_of result) ≡ node_buses channels aux reached }
{
    let mut initialized = Created::from(opener).initialize(Layout::new(channels, aux));
    if reached {
        let _ = initialized.activate_bus(0, 0, 1, true);
    }
    initialized
}

/// Brings a component that was created to processing.
fn start<P: Processor + Drop>(
    opener: Opened<P>,
    aux: bool,
    reached: bool,
    setup: &Setup,
) -> Processing<P>
    requires { P.phase (value_of_opened opener) ≡ AtCreated }
    ensures phase { P.phase (value_of_opened (of_processing result)) ≡ AtProcessing }
    ensures setup { P.last_setup (value_of_opened (of_processing result)) ≡ setup.now }
    ensures code { P.code (value_of_opened (of_processing result)) ≡ P.code (value_of_opened opener) }
    ensures values { P.values (value_of_opened (of_processing result)) ≡ P.values (value_of_opened opener) }
    ensures state { P.state (value_of_opened (of_processing result)) ≡ P.state (value_of_opened opener) }
    ensures calls { P.calls (value_of_opened (of_processing result)) ≡ P.calls (value_of_opened opener) }
    ensures seat { processor_seat result ≡ opener_seat opener }
    ensures buses { buses_of (layout_of_processing result) ≡ node_buses setup.now.channels aux reached }
{
    let initialized = initialize(opener, setup.channels, aux, reached);
    initialized.set_up(setup).activate().start()
}

/// Makes the component of a node, at the first values that its controller has, and brings it to processing.
fn make_component<S: PluginSet>(
    alloc: Global,
    set: &mut S,
    session: &Session,
    presets: &[Option<Preset>],
    node: u32,
    controller: &S::C,
    max: u32,
) -> Result<(Counted<S::P>, Processing<S::P>), AllocError>
    requires node { node < length (nodes_of session.now.nodes) }
    requires stands { StandsUnder (S.infos set.old) (content_of session.now) }
    requires presets { length presets.now ≡ length (nodes_of session.now.nodes) }
    requires some { 1 ≤ max }
    requires most { max ≤ 8192 }
    requires accepted { refusal_at (plan_for (S.infos set.old) (S.code set.old) S.P.Processor.class_of session.now presets.now max) node ≡ None }
    requires code { S.C.Controller.code controller.now ≡ code_at (plan_for (S.infos set.old) (S.code set.old) S.P.Processor.class_of session.now presets.now max) node }
    requires values { S.C.Controller.values controller.now ≡ firsts_at (plan_for (S.infos set.old) (S.code set.old) S.P.Processor.class_of session.now presets.now max) node }
    ensures component { IfOk result (λ made. IsComponent
        (record { code = S.P.Processor.code; values = S.P.Processor.values; state = S.P.Processor.state; calls = S.P.Processor.calls; phase = S.P.Life.phase; setup = S.P.Life.last_setup })
        (plan_for (S.infos set.old) (S.code set.old) S.P.Processor.class_of session.now presets.now max)
        node made.0 made.1) }
    ensures made { OnOk result (S.made set.new ≡ raised (S.made set.old)) }
    ensures unmade { OnErr result (S.made set.new ≡ S.made set.old) }
    ensures ended { S.ended set.new ≡ S.ended set.old }
    ensures work { S.work set.new ≡ S.work set.old }
    ensures infos { S.infos set.new ≡ S.infos set.old }
    ensures codes { (class : ℕ) → S.code set.new class ≡ S.code set.old class }
{
    let mut values = Vec::new(alloc);
    add_values(controller, session.nodes.table(node).params(), &mut values)?;
    let class = class_of_node(set.classes(), session, node);
    let aux = set.classes().info(class).aux;
    let shell = Shell::new(alloc, 5, 4)?;
    let mut processor = set.create_component(alloc, class)?;
    load_component(&mut processor, presets[node as usize].as_ref());
    processor.set_first(&values);
    let (object, mut opener) = shell.fill(processor);
    find_interfaces(&object, &mut opener);
    let setup = Setup {
        channels: session.channels,
        max,
    };
    let reached = has_aux_wire(session, node);
    Ok((object, start(opener, aux, reached, &setup)))
}

/// Makes the components of a session's nodes, of which these are the controllers' openers. After want of memory
/// those that were made are ended.
pub(crate) fn make_components<S: PluginSet>(
    alloc: Global,
    set: &mut S,
    session: &Session,
    presets: &[Option<Preset>],
    edits: &[Opened<S::C>],
    max: u32,
) -> Result<Components<S::P>, AllocError>
    requires stands { StandsUnder (S.infos set.old) (content_of session.now) }
    requires presets { length presets.now ≡ length (nodes_of session.now.nodes) }
    requires some { 1 ≤ max }
    requires most { max ≤ 8192 }
    requires accepted { AreAccepted (plan_for (S.infos set.old) (S.code set.old) S.P.Processor.class_of session.now presets.now max) (length (nodes_of session.now.nodes)) }
    requires codes { of_openers S.C.Controller.code edits.now ≡ by_node (length (nodes_of session.now.nodes)) (code_at (plan_for (S.infos set.old) (S.code set.old) S.P.Processor.class_of session.now presets.now max)) }
    requires values { of_openers S.C.Controller.values edits.now ≡ by_node (length (nodes_of session.now.nodes)) (firsts_at (plan_for (S.infos set.old) (S.code set.old) S.P.Processor.class_of session.now presets.now max)) }
    ensures components { IfOk result (λ made. AreComponents
        (record { code = S.P.Processor.code; values = S.P.Processor.values; state = S.P.Processor.state; calls = S.P.Processor.calls; phase = S.P.Life.phase; setup = S.P.Life.last_setup })
        (plan_for (S.infos set.old) (S.code set.old) S.P.Processor.class_of session.now presets.now max)
        (length (nodes_of session.now.nodes)) made.components.items made.processors.items) }
    ensures first { IfOk result (λ made. made.first.items ≡ first_values (plan_for (S.infos set.old) (S.code set.old) S.P.Processor.class_of session.now presets.now max)) }
    ensures made { OnOk result (S.made set.new ≡ raised_times (length (nodes_of session.now.nodes)) (S.made set.old)) }
    ensures kept { OnOk result (S.ended set.new ≡ S.ended set.old) }
    ensures refused { OnErr result (IsUndone (S.made set.old) (S.ended set.old) (S.work set.old) (S.made set.new) (S.ended set.new) (S.work set.new)) }
    ensures work { OnOk result (S.work set.new ≡ S.work set.old) }
    ensures infos { S.infos set.new ≡ S.infos set.old }
    ensures codes { (class : ℕ) → S.code set.new class ≡ S.code set.old class }
{
    let count = session.nodes.len();
    let first = values_of(alloc, session, edits)?;
    let mut components = Vec::with_capacity(alloc, count as usize)?;
    let mut processors = match Vec::with_capacity(alloc, count as usize) {
        Ok(processors) => processors,
        Err(error) => {
            components.destroy_empty();
            return Err(error);
        }
    };
    for node in 0..count {
        let controller = edits[node as usize].value();
        match make_component(alloc, set, session, presets, node, controller, max) {
            Ok((object, processor)) => {
                components.push_reserved(object);
                processors.push_reserved(processor);
            }
            Err(error) => {
                end_components(set, components, processors);
                return Err(error);
            }
        }
    }
    Ok(Components {
        components,
        processors,
        first,
    })
}
