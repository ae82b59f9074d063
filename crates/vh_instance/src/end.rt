//! A band is taken down.

ghost use Rattle.std.specs.Prelude.{◌≡◌, ◌+◌, ◌≤◌, ◌<◌, ℕ, [], ◌∷◌, All, length, map, vec_len};
ghost use Rattle.vh_component.specs.declared.setup.Phase.TheVariants.{Processing as AtProcessing};
ghost use Rattle.vh_component.specs.States.{of_processing};
ghost use Rattle.vh_counted.specs.Held.{object_of, value_of_opened};
ghost use Rattle.vh_plugin.specs.Counts.{raised, raised_by};
ghost use Rattle.vh_instance.specs.Raised.{raised_times, raised_by_each};
ghost use Rattle.vh_instance.specs.Seats.{opener_seat, processor_seat, holder_seat, row_seats, last_holders, without_last, AreTogether, AreHeld};
ghost use Rattle.vh_instance.specs.Band.{of_processors, objects_of, IsHeld};

use crate::band::Band;
use crate::controller::destroy_rows;
use vh_component::Processing;
use vh_counted::{Counted, Holder, Opened};
use vh_plugin::{Controller, PluginSet, Processor};

/// Ends all objects of a band: processors stop and go back to their openers, all other holders of an object
/// are joined into its opener, its references are given back one after the other, and the set is handed what
/// the last release gave.
pub fn tear_down<S: PluginSet>(set: &mut S, band: Band<S::P, S::C>)
    requires held { IsHeld band }
    requires processing { All (λ phase. phase ≡ AtProcessing) (of_processors S.P.Life.phase band.processors.items) }
    ensures ended { S.ended set.new ≡ raised_times (length band.components.items + length band.controllers.items) (S.ended set.old) }
    ensures work { S.work set.new ≡ raised_by_each (of_processors S.P.Processor.calls band.processors.items) (S.work set.old) }
    ensures made { S.made set.new ≡ S.made set.old }
    ensures infos { S.infos set.new ≡ S.infos set.old }
    ensures codes { (class : ℕ) → S.code set.new class ≡ S.code set.old class }
{
    let Band {
        components,
        controllers,
        processors,
        edits,
        holders,
        first: _,
    } = band;
    end_components(set, components, processors);
    end_controllers(set, controllers, edits, holders);
}

/// Ends components, by their processors.
pub(crate) fn end_components<S: PluginSet>(
    set: &mut S,
    components: Vec<Counted<S::P>>,
    processors: Vec<Processing<S::P>>,
)
    requires held { AreHeld (objects_of components.items) (map processor_seat processors.items ∷ []) }
    requires processing { All (λ phase. phase ≡ AtProcessing) (of_processors S.P.Life.phase processors.items) }
    ensures ended { S.ended set.new ≡ raised_times (length components.items) (S.ended set.old) }
    ensures work { S.work set.new ≡ raised_by_each (of_processors S.P.Processor.calls processors.items) (S.work set.old) }
    ensures made { S.made set.new ≡ S.made set.old }
    ensures infos { S.infos set.new ≡ S.infos set.old }
    ensures codes { (class : ℕ) → S.code set.new class ≡ S.code set.old class }
{
    let mut components = components;
    let mut processors = processors;
    for _ in 0..components.len() {
        let component = components.take_last();
        end_component(set, component, processors.take_last());
    }
    components.destroy_empty();
    processors.destroy_empty();
}

/// Ends a component, by its processor.
fn end_component<S: PluginSet>(set: &mut S, component: Counted<S::P>, processor: Processing<S::P>)
    requires held { AreTogether (object_of component) (processor_seat processor ∷ []) }
    requires processing { S.P.Life.phase (value_of_opened (of_processing processor)) ≡ AtProcessing }
    ensures ended { S.ended set.new ≡ raised (S.ended set.old) }
    ensures work { S.work set.new ≡ raised_by (S.P.Processor.calls (value_of_opened (of_processing processor))) (S.work set.old) }
    ensures made { S.made set.new ≡ S.made set.old }
    ensures infos { S.infos set.new ≡ S.infos set.old }
    ensures codes { (class : ℕ) → S.code set.new class ≡ S.code set.old class }
{
    let opener = processor.stop().deactivate().terminate();
    let (holder, ended) = component.end_whole(opener);
    component.dissolve(holder);
    set.end_component(ended);
}

/// Ends controllers: their openers, and the editors' holders, row by row.
pub(crate) fn end_controllers<S: PluginSet>(
    set: &mut S,
    controllers: Vec<Counted<S::C>>,
    edits: Vec<Opened<S::C>>,
    holders: Vec<Vec<Holder<S::C>>>,
)
    requires { AreHeld (objects_of controllers.items) (map opener_seat edits.items ∷ map row_seats holders.items) }
    ensures ended { S.ended set.new ≡ raised_times (length controllers.items) (S.ended set.old) }
    ensures work { S.work set.new ≡ S.work set.old }
    ensures made { S.made set.new ≡ S.made set.old }
    ensures infos { S.infos set.new ≡ S.infos set.old }
    ensures codes { (class : ℕ) → S.code set.new class ≡ S.code set.old class }
{
    let mut controllers = controllers;
    let mut edits = edits;
    let mut holders = holders;
    for _ in 0..controllers.len() {
        let controller = controllers.take_last();
        let mut opener = edits.take_last();
        join_all(&controller, &mut opener, &mut holders);
        end_controller(set, controller, opener);
    }
    controllers.destroy_empty();
    edits.destroy_empty();
    destroy_rows(holders);
}

/// Joins the last holder of each row into a controller's opener.
fn join_all<C: Controller + Drop>(
    controller: &Counted<C>,
    opener: &mut Opened<C>,
    holders: &mut [Vec<Holder<C>>],
)
    requires some { All (λ row. 1 ≤ length row) (map row_seats holders.old) }
    requires held { AreTogether (object_of controller.now) (opener_seat opener.old ∷ last_holders (map row_seats holders.old)) }
    ensures rows { map row_seats holders.new ≡ without_last (map row_seats holders.old) }
    ensures held { AreTogether (object_of controller.now) (opener_seat opener.new ∷ []) }
    ensures value { value_of_opened opener.new ≡ value_of_opened opener.old }
{
    for row in holders {
        controller.join_open(opener, row.take_last());
    }
}

/// Ends a controller, by its opener.
pub(crate) fn end_controller<S: PluginSet>(
    set: &mut S,
    controller: Counted<S::C>,
    opener: Opened<S::C>,
)
    requires { AreTogether (object_of controller) (opener_seat opener ∷ []) }
    ensures ended { S.ended set.new ≡ raised (S.ended set.old) }
    ensures work { S.work set.new ≡ S.work set.old }
    ensures made { S.made set.new ≡ S.made set.old }
    ensures infos { S.infos set.new ≡ S.infos set.old }
    ensures codes { (class : ℕ) → S.code set.new class ≡ S.code set.old class }
{
    let (holder, ended) = controller.end_whole(opener);
    controller.dissolve(holder);
    set.end_controller(ended);
}
