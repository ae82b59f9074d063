//! The set of the built-in classes.

ghost use Rattle.std.specs.Prelude.{◌≡◌, IfOk};
ghost use Rattle.vh_params.specs.ClassList.{classes_of};
ghost use Rattle.vh_builtin.specs.Infos.{AreBuiltIn};

use crate::component::Component;
use crate::editor::Editor;
use crate::kind::Kind;
use crate::tables::info_of;
use std::alloc::{AllocError, Global};
use vh_counted::Ended;
use vh_params::Classes;
use vh_plugin::{PluginSet, Processor};

/// The eight built-in classes: gain, balance, delay, onepole, crusher, gate, meter and tap.
#[derive(Drop)]
pub struct BuiltIn {
    classes: Classes,
    made: u64,
    ended: u64,
    work: u64,
    ghost all: { AreBuiltIn (classes_of classes) },
}

impl BuiltIn {
    /// The set, which has made no object yet.
    #[tactic(auto, using(crate::proofs::Names::all_differ))]
    pub fn new(alloc: Global) -> Result<BuiltIn, AllocError>
        ensures classes { IfOk result (λ set. AreBuiltIn (⟦<BuiltIn as PluginSet>⟧.infos set)) }
        ensures made { IfOk result (λ set. ⟦<BuiltIn as PluginSet>⟧.made set ≡ 0) }
        ensures ended { IfOk result (λ set. ⟦<BuiltIn as PluginSet>⟧.ended set ≡ 0) }
        ensures work { IfOk result (λ set. ⟦<BuiltIn as PluginSet>⟧.work set ≡ 0) }
    {
        let mut list = Vec::new(alloc);
        for number in 0..8 {
            list.push(info_of(alloc, Kind::of_number(number))?)?;
        }
        Ok(BuiltIn {
            classes: Classes::new(alloc, list)?,
            made: 0,
            ended: 0,
            work: 0,
        })
    }
}

impl PluginSet for BuiltIn {
    ghost use Rattle.std.specs.Prelude.{ℕ};
    ghost use Rattle.vh_counted.specs.Held.{value_of_ended};
    ghost use Rattle.vh_plugin.specs.Counts.{raised, raised_by};
    ghost use Rattle.vh_plugin.specs.ListLaws.{one_class_agrees};
    ghost use Rattle.vh_builtin.specs.Builtins.{builtin};
    ghost use Rattle.vh_builtin.specs.Members.{number_of_class, each_means};

    type P = Component;

    type C = Editor;

    ghost infos = { λ set. classes_of set.classes };

    ghost code = { λ set class. number_of_class class };

    ghost made = { λ set. set.made };

    ghost ended = { λ set. set.ended };

    ghost work = { λ set. set.work };

    fn classes(&self) -> &Classes {
        &self.classes
    }

    fn create_component(&mut self, alloc: Global, class: u32) -> Result<Component, AllocError> {
        let made = Component::new(alloc, Kind::of_number(class))?;
        self.made = self.made.saturating_add(1);
        Ok(made)
    }

    fn create_controller(&mut self, alloc: Global, class: u32) -> Result<Editor, AllocError> {
        let made = Editor::new(alloc, Kind::of_number(class))?;
        self.made = self.made.saturating_add(1);
        Ok(made)
    }

    fn end_component(&mut self, object: Ended<Component>)
        ensures ended { self.new.ended ≡ raised self.old.ended }
        ensures work { self.new.work ≡ raised_by (value_of_ended object).calls self.old.work }
        ensures made { self.new.made ≡ self.old.made }
        ensures infos { classes_of self.new.classes ≡ classes_of self.old.classes }
        ensures codes { (class : ℕ) → number_of_class class ≡ number_of_class class }
    {
        self.work = self.work.saturating_add(object.value().calls());
        self.ended = self.ended.saturating_add(1);
        object.finish();
    }

    fn end_controller(&mut self, object: Ended<Editor>)
        ensures ended { self.new.ended ≡ raised self.old.ended }
        ensures work { self.new.work ≡ self.old.work }
        ensures made { self.new.made ≡ self.old.made }
        ensures infos { classes_of self.new.classes ≡ classes_of self.old.classes }
        ensures codes { (class : ℕ) → number_of_class class ≡ number_of_class class }
    {
        self.ended = self.ended.saturating_add(1);
        object.finish();
    }

    fn made(&self) -> u64 {
        self.made
    }

    fn ended(&self) -> u64 {
        self.ended
    }

    fn work(&self) -> u64 {
        self.work
    }

    ghost components = { λ set. each_means (classes_of set.classes) set.all };

    ghost controllers = { λ set. each_means (classes_of set.classes) set.all };

    ghost agreeing = { λ set class within. one_class_agrees builtin (number_of_class class) };
}
