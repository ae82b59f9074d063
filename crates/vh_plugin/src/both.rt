//! Two sets of plug-ins as one.

ghost use Rattle.std.specs.Prelude.{◌≡◌, ◌<◌, ◌+◌, ◌^◌, ℕ, length, IfOk, OnOk};
ghost use Rattle.vh_params.specs.ClassList.{classes_of};
ghost use Rattle.vh_plugin.specs.Lists.{IsSame, AreCopied, AreBoth, NamesApart, code_in_both};

use crate::one_of::OneOf;
use crate::processor::Processor;
use crate::set::PluginSet;
use std::alloc::{AllocError, Global};
use vh_counted::Ended;
use vh_params::{ClassInfo, Classes};

/// The set with the classes of two sets: those of the first, then those of the second. Its codes are twice
/// the first set's, and twice the second's plus one. It counts its objects itself.
#[derive(Drop)]
pub struct Both<A: PluginSet, B: PluginSet> {
    first: A,
    second: B,
    classes: Classes,
    made: u64,
    ended: u64,
    work: u64,
    ghost listed: { AreBoth (A.infos first) (B.infos second) (classes_of classes) },
}

impl<A: PluginSet + Drop, B: PluginSet + Drop> Both<A, B> {
    /// Two sets whose class names differ, as one.
    #[tactic(auto, using(crate::proofs::Copies::both_copied, crate::proofs::Copies::names_differ))]
    pub fn new(alloc: Global, first: A, second: B) -> Result<Both<A, B>, AllocError>
        requires names { NamesApart (A.infos first) (B.infos second) }
        requires count { length (A.infos first) + length (B.infos second) < 2 ^ 32 }
        ensures infos { IfOk result (λ both. AreBoth (A.infos first) (B.infos second) (⟦<Both<A, B> as PluginSet>⟧.infos both)) }
        ensures codes { IfOk result (λ both. (class : ℕ) → ⟦<Both<A, B> as PluginSet>⟧.code both class ≡ code_in_both (length (A.infos first)) (A.code first) (B.code second) class) }
        ensures made { IfOk result (λ both. ⟦<Both<A, B> as PluginSet>⟧.made both ≡ 0) }
        ensures ended { IfOk result (λ both. ⟦<Both<A, B> as PluginSet>⟧.ended both ≡ 0) }
        ensures work { IfOk result (λ both. ⟦<Both<A, B> as PluginSet>⟧.work both ≡ 0) }
    {
        let mut list = Vec::new(alloc);
        copy_into(alloc, first.classes(), &mut list)?;
        copy_into(alloc, second.classes(), &mut list)?;
        let classes = Classes::new(alloc, list)?;
        Ok(Both {
            first,
            second,
            classes,
            made: 0,
            ended: 0,
            work: 0,
        })
    }
}

impl<A: PluginSet + Drop, B: PluginSet + Drop> PluginSet for Both<A, B> {
    ghost use Rattle.std.specs.Prelude.{ℕ};
    ghost use Rattle.vh_counted.specs.Held.{value_of_ended};
    ghost use Rattle.vh_plugin.specs.Counts.{raised, raised_by};
    ghost use Rattle.vh_plugin.specs.ListLaws.{both_are_classes, both_agree};
    ghost use Rattle.vh_plugin.specs.Pairs.{either};

    type P = OneOf<A::P, B::P>;

    type C = OneOf<A::C, B::C>;

    ghost infos = { λ both. classes_of both.classes };

    ghost code = { λ both class. code_in_both (length (A.infos both.first)) (A.code both.first) (B.code both.second) class };

    ghost made = { λ both. both.made };

    ghost ended = { λ both. both.ended };

    ghost work = { λ both. both.work };

    fn classes(&self) -> &Classes {
        &self.classes
    }

    fn create_component(&mut self, alloc: Global, class: u32) -> Result<Self::P, AllocError> {
        let firsts = self.first.classes().len();
        let object = if class < firsts {
            OneOf::First(self.first.create_component(alloc, class)?)
        } else {
            OneOf::Second(self.second.create_component(alloc, class - firsts)?)
        };
        self.made = self.made.saturating_add(1);
        Ok(object)
    }

    fn create_controller(&mut self, alloc: Global, class: u32) -> Result<Self::C, AllocError> {
        let firsts = self.first.classes().len();
        let object = if class < firsts {
            OneOf::First(self.first.create_controller(alloc, class)?)
        } else {
            OneOf::Second(self.second.create_controller(alloc, class - firsts)?)
        };
        self.made = self.made.saturating_add(1);
        Ok(object)
    }

    fn end_component(&mut self, object: Ended<Self::P>)
        ensures ended { self.new.ended ≡ raised self.old.ended }
        ensures work { self.new.work ≡ raised_by (either A.P.Processor.calls B.P.Processor.calls (value_of_ended object)) self.old.work }
        ensures made { self.new.made ≡ self.old.made }
        ensures infos { classes_of self.new.classes ≡ classes_of self.old.classes }
        ensures codes { (class : ℕ) → code_in_both (length (A.infos self.new.first)) (A.code self.new.first) (B.code self.new.second) class ≡ code_in_both (length (A.infos self.old.first)) (A.code self.old.first) (B.code self.old.second) class }
    {
        self.work = self.work.saturating_add(object.value().calls());
        self.ended = self.ended.saturating_add(1);
        object.finish();
    }

    fn end_controller(&mut self, object: Ended<Self::C>)
        ensures ended { self.new.ended ≡ raised self.old.ended }
        ensures work { self.new.work ≡ self.old.work }
        ensures made { self.new.made ≡ self.old.made }
        ensures infos { classes_of self.new.classes ≡ classes_of self.old.classes }
        ensures codes { (class : ℕ) → code_in_both (length (A.infos self.new.first)) (A.code self.new.first) (B.code self.new.second) class ≡ code_in_both (length (A.infos self.old.first)) (A.code self.old.first) (B.code self.old.second) class }
    {
        self.ended = self.ended.saturating_add(1);
        object.finish();
    }

    fn made(&self) -> u64 {
        self.made
    }

    fn ended(&self) -> u64 {
        self.ended
    }

    fn work(&self) -> u64 {
        self.work
    }

    ghost components = { λ both. both_are_classes A.P.Processor.class_of B.P.Processor.class_of (A.infos both.first) (B.infos both.second) (classes_of both.classes) (A.code both.first) (B.code both.second) both.listed (A.components both.first) (B.components both.second) };

    ghost controllers = { λ both. both_are_classes A.C.Controller.class_of B.C.Controller.class_of (A.infos both.first) (B.infos both.second) (classes_of both.classes) (A.code both.first) (B.code both.second) both.listed (A.controllers both.first) (B.controllers both.second) };

    ghost agreeing = { λ both. both_agree A.P.Processor.class_of B.P.Processor.class_of A.C.Controller.class_of B.C.Controller.class_of (A.infos both.first) (B.infos both.second) (classes_of both.classes) (A.code both.first) (B.code both.second) both.listed (A.agreeing both.first) (B.agreeing both.second) };
}

/// Adds what is said of these classes to a list.
#[tactic(auto, using(crate::proofs::Copies::copied_more))]
fn copy_into(alloc: Global, classes: &Classes, list: &mut Vec<ClassInfo>) -> Result<(), AllocError>
    ensures { OnOk result (AreCopied list.old.items (classes_of classes.now) list.new.items (length (classes_of classes.now))) }
{
    for class in 0..classes.len() {
        let info = copy(alloc, classes.info(class))?;
        list.push(info)?;
    }
    Ok(())
}

/// The same of a class.
fn copy(alloc: Global, info: &ClassInfo) -> Result<ClassInfo, AllocError>
    ensures { IfOk result (λ made. IsSame made info.now) }
{
    Ok(ClassInfo {
        name: info.name,
        component: info.component,
        controller: info.controller,
        aux: info.aux,
        params: info.params.copy(alloc)?,
    })
}
