//! Controllers are made.

ghost use Rattle.std.specs.Prelude.{◌≡◌, ◌≤◌, ◌<◌, ◌+◌, ◌*◌, ℕ, [], ◌∷◌, List, All, length, map, replicate, vec_capacity, None, OnOk, OnErr, IfOk, IfErr, MatchResult};
ghost use Rattle.vh_params.specs.ClassList.{classes_of};
ghost use Rattle.vh_params.specs.Nodes.{nodes_of};
ghost use Rattle.vh_session.specs.Keeps.{StandsUnder};
ghost use Rattle.vh_session.specs.Names.{content_of};
ghost use Rattle.vh_plugin.specs.Counts.{raised};
ghost use Rattle.vh_counted.specs.Held.{object_of, object_of_opened, numbers_of_opened, value_of_opened};
ghost use Rattle.vh_counted.specs.Steps.{first_numbers};
ghost use Rattle.vh_counted.specs.Objects.{IsWhole};
ghost use Rattle.vh_instance.specs.Raised.{raised_times, IsUndone};
ghost use Rattle.vh_instance.specs.Seats.{Seat as Held, opener_seat, row_seats, ArePushed, AreEmpty, HaveRoom, AreTogether, Has};
ghost use Rattle.vh_instance.specs.Plan.{plan_for};
ghost use Rattle.vh_instance.specs.Presets.{AreAccepted, IsCause, IsCauseAt, refusal_at};
ghost use Rattle.vh_instance.specs.Band.{IsController, AreControllers, controller_table, controller_object, kept_beside, kept_by_editor};

use crate::component::class_of_node;
use crate::end::{end_controller, end_controllers};
use crate::presets::begin_controller;
use crate::references::add_reference;
use crate::refused::MakeRefused;
use std::alloc::{AllocError, Global};
use vh_counted::{Counted, Holder, Opened, Shell};
use vh_ids::Interface;
use vh_plugin::PluginSet;
use vh_preset::Preset;
use vh_query::Interfaces;
use vh_session::Session;

/// The position of IEditController among a controller's interfaces.
const EDIT_CONTROLLER: u32 = 2;

/// Controllers, their openers, and the editors' holders, editor by editor and within each by node.
pub(crate) struct Controllers<C> {
    pub(crate) controllers: Vec<Counted<C>>,
    pub(crate) edits: Vec<Opened<C>>,
    pub(crate) holders: Vec<Vec<Holder<C>>>,
}

/// Adds the references of a controller's opener, and two at IEditController for each editor.
fn find_interfaces<C: Drop>(object: &Counted<C>, opener: &mut Opened<C>, editors: u32)
    requires of_this { object_of_opened opener.old ≡ object_of object.now }
    requires few { editors ≤ 8 }
    requires object { object_of object.now ≡ controller_object editors }
    requires first { numbers_of_opened opener.old ≡ first_numbers (2 + 66 * editors) }
    ensures references { Has controller_table (kept_beside (2 * editors)) (64 * editors) (opener_seat opener.new) }
    ensures whole { IsWhole (2 + 66 * editors) (numbers_of_opened opener.new) }
    ensures object { object_of_opened opener.new ≡ object_of_opened opener.old }
    ensures value { value_of_opened opener.new ≡ value_of_opened opener.old }
{
    let table = Interfaces::of_controller();
    add_reference(&table, object, opener, Interface::EditController);
    add_reference(&table, object, opener, Interface::ConnectionPoint);
    for _ in 0..2 * editors {
        let _ = object.add_open(opener, EDIT_CONTROLLER);
    }
}

/// Parts an editor's two references at IEditController off, with room for 64 adds, into each row.
fn part_all<C: Drop>(object: &Counted<C>, opener: &mut Opened<C>, rows: &mut [Vec<Holder<C>>])
    requires interfaces { (object_of object.now).interfaces ≡ length controller_table }
    requires references { Has controller_table (kept_beside (2 * length rows.old)) (64 * length rows.old) (opener_seat opener.old) }
    requires held { AreTogether (object_of object.now) (opener_seat opener.old ∷ []) }
    requires room { HaveRoom rows.old }
    ensures references { Has controller_table (kept_beside 0) 0 (opener_seat opener.new) }
    ensures rows { (seats : List Held) × ArePushed seats (map row_seats rows.old) (map row_seats rows.new) × All (Has controller_table kept_by_editor 64) seats × AreTogether (object_of object.now) (opener_seat opener.new ∷ seats) }
    ensures capacities { map vec_capacity rows.new ≡ map vec_capacity rows.old }
    ensures value { value_of_opened opener.new ≡ value_of_opened opener.old }
{
    for row in rows {
        row.push_reserved(object.part(opener, EDIT_CONTROLLER, 2, 64));
    }
}

/// Makes the controller of a node, at its first values, with two references for each editor. Where its preset is
/// refused, it is ended.
fn make_controller<S: PluginSet>(
    alloc: Global,
    set: &mut S,
    session: &Session,
    presets: &[Option<Preset>],
    node: u32,
) -> Result<(Counted<S::C>, Opened<S::C>), MakeRefused>
    requires node { node < length (nodes_of session.now.nodes) }
    requires stands { StandsUnder (S.infos set.old) (content_of session.now) }
    requires presets { length presets.now ≡ length (nodes_of session.now.nodes) }
    ensures controller { (max : ℕ) → IfOk result (λ made. IsController
        (record { code = S.C.Controller.code; values = S.C.Controller.values; mode = S.C.Controller.mode })
        (plan_for (S.infos set.old) (S.code set.old) S.P.Processor.class_of session.now presets.now max)
        node made.0 made.1) }
    ensures accepted { (max : ℕ) → OnOk result (refusal_at (plan_for (S.infos set.old) (S.code set.old) S.P.Processor.class_of session.now presets.now max) node ≡ None) }
    ensures cause { (max : ℕ) → IfErr result (IsCauseAt (plan_for (S.infos set.old) (S.code set.old) S.P.Processor.class_of session.now presets.now max) node) }
    ensures made { OnOk result (S.made set.new ≡ raised (S.made set.old)) }
    ensures kept { OnOk result (S.ended set.new ≡ S.ended set.old) }
    ensures refused { OnErr result (IsUndone (S.made set.old) (S.ended set.old) (S.work set.old) (S.made set.new) (S.ended set.new) (S.work set.new)) }
    ensures work { S.work set.new ≡ S.work set.old }
    ensures infos { S.infos set.new ≡ S.infos set.old }
    ensures codes { (class : ℕ) → S.code set.new class ≡ S.code set.old class }
{
    let editors = session.scripts.len() as u32;
    let class = class_of_node(set.classes(), session, node);
    let component = set.classes().info(class).component;
    let shell = Shell::new(alloc, 4, 2 + 66 * editors)?;
    let mut controller = set.create_controller(alloc, class)?;
    let begun = begin_controller(
        &mut controller,
        session,
        node,
        presets[node as usize].as_ref(),
        &component,
    );
    let (object, mut opener) = shell.fill(controller);
    match begun {
        Ok(()) => {
            find_interfaces(&object, &mut opener, editors);
            Ok((object, opener))
        }
        Err(kind) => {
            end_controller(set, object, opener);
            Err(MakeRefused::Preset { node, kind })
        }
    }
}

/// Rows for so many holders, one for each editor.
fn empty_rows<C: Drop>(
    alloc: Global,
    editors: usize,
    count: usize,
) -> Result<Vec<Vec<Holder<C>>>, AllocError>
    ensures empty { IfOk result (λ rows. AreEmpty rows.items) }
    ensures capacities { IfOk result (λ rows. map vec_capacity rows.items ≡ replicate editors count) }
{
    let mut rows = Vec::with_capacity(alloc, editors)?;
    for _ in 0..editors {
        match Vec::with_capacity(alloc, count) {
            Ok(row) => rows.push_reserved(row),
            Err(error) => {
                destroy_rows(rows);
                return Err(error);
            }
        }
    }
    Ok(rows)
}

/// Lets empty rows go.
pub(crate) fn destroy_rows<C: Drop>(rows: Vec<Vec<Holder<C>>>)
    requires { AreEmpty rows.items }
{
    let mut rows = rows;
    for _ in 0..rows.len() {
        rows.take_last().destroy_empty();
    }
    rows.destroy_empty();
}

/// Makes the controllers of a session's nodes. After a refusal those that were made are ended.
pub(crate) fn make_controllers<S: PluginSet>(
    alloc: Global,
    set: &mut S,
    session: &Session,
    presets: &[Option<Preset>],
) -> Result<Controllers<S::C>, MakeRefused>
    requires stands { StandsUnder (S.infos set.old) (content_of session.now) }
    requires presets { length presets.now ≡ length (nodes_of session.now.nodes) }
    ensures controllers { (max : ℕ) → IfOk result (λ made. AreControllers
        (record { code = S.C.Controller.code; values = S.C.Controller.values; mode = S.C.Controller.mode })
        (plan_for (S.infos set.old) (S.code set.old) S.P.Processor.class_of session.now presets.now max)
        (length (nodes_of session.now.nodes)) made.controllers.items made.edits.items made.holders.items) }
    ensures accepted { (max : ℕ) → OnOk result (AreAccepted (plan_for (S.infos set.old) (S.code set.old) S.P.Processor.class_of session.now presets.now max) (length (nodes_of session.now.nodes))) }
    ensures cause { (max : ℕ) → IfErr result (IsCause (plan_for (S.infos set.old) (S.code set.old) S.P.Processor.class_of session.now presets.now max)) }
    ensures made { OnOk result (S.made set.new ≡ raised_times (length (nodes_of session.now.nodes)) (S.made set.old)) }
    ensures kept { OnOk result (S.ended set.new ≡ S.ended set.old) }
    ensures refused { OnErr result (IsUndone (S.made set.old) (S.ended set.old) (S.work set.old) (S.made set.new) (S.ended set.new) (S.work set.new)) }
    ensures work { S.work set.new ≡ S.work set.old }
    ensures infos { S.infos set.new ≡ S.infos set.old }
    ensures codes { (class : ℕ) → S.code set.new class ≡ S.code set.old class }
{
    let count = session.nodes.len();
    let mut controllers = Vec::with_capacity(alloc, count as usize)?;
    let mut edits = match Vec::with_capacity(alloc, count as usize) {
        Ok(edits) => edits,
        Err(AllocError) => {
            controllers.destroy_empty();
            return Err(MakeRefused::Memory);
        }
    };
    let mut holders = match empty_rows(alloc, session.scripts.len(), count as usize) {
        Ok(holders) => holders,
        Err(AllocError) => {
            controllers.destroy_empty();
            edits.destroy_empty();
            return Err(MakeRefused::Memory);
        }
    };
    for node in 0..count {
        match make_controller(alloc, set, session, presets, node) {
            Ok((object, opener)) => {
                let mut opener = opener;
                part_all(&object, &mut opener, &mut holders);
                controllers.push_reserved(object);
                edits.push_reserved(opener);
            }
            Err(refused) => {
                end_controllers(set, controllers, edits, holders);
                return Err(refused);
            }
        }
    }
    Ok(Controllers {
        controllers,
        edits,
        holders,
    })
}
