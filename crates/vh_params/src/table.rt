//! The table of a plug-in's parameters.

ghost use Rattle.std.specs.Prelude.{◌≡◌, ◌≤◌, ◌<◌, ◌+◌, ◌^◌, ◌++◌, ℕ, List, length, All, Option, Some, None, IsSome, IfSome, ◌==◌, OnOk, IfOk, Ok, Err, Result, option_copied, vec_len, vec_capacity};
ghost use Rattle.vh_params.specs.ValueText.{value_text, IsTextValue};
ghost use Rattle.std.specs.List.{list_any};
ghost use Rattle.std.specs.List.Sorted.{IsPermutation, IsNonDecreasingBy};
ghost use Rattle.vh_num.specs.Values.{quant_of};
ghost use Rattle.vh_params.specs.declared.param.ParamInfo.{ParamInfo as Param};
ghost use Rattle.vh_params.specs.declared.table.TableFault.{TableFault as Fault_};
ghost use Rattle.vh_params.specs.Params.{param_in, has_unit, first_fault, param_rules, table_fault, AreUnits, IsLawful, AreRising};

use crate::param::{ParamInfo, UnitInfo};
use crate::value::{put_value, value_of_text};
use std::alloc::{AllocError, Global};
use thiserror::Error;
use vh_num::{ONE, Refusal, quant};

/// Why there is no table of these parameters. Each fault has the id of the parameter.
#[derive(Clone, Copy, Debug, PartialEq, Eq, Error)]
pub enum TableFault {
    #[error("parameter {0} stands twice")]
    Duplicate(u32),
    #[error("parameter {0} has more than 4095 steps")]
    BadStep(u32),
    #[error("the first value of parameter {0} is none of its values")]
    BadDefault(u32),
    #[error("the unit of parameter {0} isn't listed")]
    BadUnit(u32),
}

/// Whether one of these parameters has the id.
fn has_id(params: &[ParamInfo], id: u32) -> bool
    ensures { result ≡ list_any (λ param. param.id == id) params.now }
{
    params.iter().any(|param| param.id == id)
}

/// Whether one of these units has the id.
fn has_unit(units: &[UnitInfo], id: u32) -> bool
    ensures { result ≡ has_unit units.now id }
{
    units.iter().any(|unit| unit.id == id)
}

/// The fault of a parameter behind these.
fn fault_of(param: &ParamInfo, before: &[ParamInfo], units: &[UnitInfo]) -> Option<TableFault>
    ensures { result ≡ first_fault (param_rules units.now before.now param.now) }
{
    let id = param.id;
    if has_id(before, id) {
        return Some(TableFault::Duplicate(id));
    }
    if param.steps > 4095 {
        return Some(TableFault::BadStep(id));
    }
    if param.first > ONE || quant(param.first, param.steps) != param.first {
        return Some(TableFault::BadDefault(id));
    }
    if !has_unit(units, param.unit) {
        return Some(TableFault::BadUnit(id));
    }
    None
}

/// The first fault, by parameter and then by kind.
fn table_fault(params: &[ParamInfo], units: &[UnitInfo]) -> Option<TableFault>
    ensures { result ≡ table_fault params.now units.now }
{
    for i in 0..params.len() {
        let fault = fault_of(&params[i], &params[..i], units);
        if fault.is_some() {
            return fault;
        }
    }
    None
}

/// The parameters of a plug-in, by rising id, and its units.
#[derive(Drop)]
pub struct ParamTable {
    params: Vec<ParamInfo>,
    units: Vec<UnitInfo>,
    ghost most: { length params.items ≤ 64 },
    ghost rising: { AreRising params.items },
    ghost lawful: { All (IsLawful units.items) params.items },
    ghost units_stand: { AreUnits units.items },
}

impl ParamTable {
    ghost use Rattle.vh_params.specs.Tables.{params_of, units_of};

    /// The table of these parameters, which belong to these units. The first unit is the root; each
    /// other stands in one before it.
    pub fn new(
        alloc: Global,
        params: &[ParamInfo],
        units: &[UnitInfo],
    ) -> Result<ParamTable, Refusal<TableFault>>
        requires most { length params.now ≤ 64 }
        requires units { AreUnits units.now }
        ensures made { OnOk result (table_fault params.now units.now ≡ None) }
        ensures refused { (fault : Fault_) → result ≡ Err (Refusal.Fault fault) → table_fault params.now units.now ≡ Some fault }
        ensures params { IfOk result (λ table. IsPermutation params.now (params_of table)) }
        ensures finds { IfOk result (λ table. (id : ℕ) → param_in (params_of table) id ≡ param_in params.now id) }
        ensures kept { IfOk result (λ table. AreRising params.now → params_of table ≡ params.now) }
        ensures units_kept { IfOk result (λ table. units_of table ≡ units.now) }
    {
        match table_fault(params, units) {
            Some(fault) => return Err(Refusal::Fault(fault)),
            None => {}
        }
        let params = sorted(alloc, params)?;
        let units = Vec::from_slice(alloc, units)?;
        Ok(ParamTable { params, units })
    }

    /// The parameters, by rising id.
    pub fn params(&self) -> &[ParamInfo]
        ensures value { result.now ≡ params_of self.now }
        ensures rising { AreRising result.now }
        ensures lawful { All (IsLawful (units_of self.now)) result.now }
        ensures most { length result.now ≤ 64 }
    {
        self.params.as_slice()
    }

    /// The units, the root first.
    pub fn units(&self) -> &[UnitInfo]
        ensures value { result.now ≡ units_of self.now }
        ensures stand { AreUnits result.now }
    {
        self.units.as_slice()
    }

    /// The parameter of an id.
    pub fn find(&self, id: u32) -> Option<&ParamInfo>
        ensures value { option_copied result ≡ param_in (params_of self.now) id }
        ensures lawful { IfSome result (λ param. IsLawful (units_of self.now) param.now) }
    {
        for param in &self.params {
            if param.id == id {
                return Some(param);
            }
        }
        None
    }

    /// The value that a parameter takes for a normalised value, 0 to 2^24.
    pub fn quantised(&self, id: u32, value: u32) -> u32
        requires there { IsSome (param_in (params_of self.now) id) }
        requires value { value ≤ 2 ^ 24 }
        ensures { IfSome (param_in (params_of self.now) id) (λ param. result ≡ quant_of value param.steps) }
    {
        let param = self.find(id).unwrap();
        quant(value, param.steps)
    }
}

impl ParamTable {
    ghost use Rattle.vh_params.specs.Tables.{params_of, units_of};
    ghost use Rattle.vh_params.specs.Short.{label_text};

    /// Appends the text of a parameter's value, normalised from 0 to 2^24. It takes no memory.
    pub fn put_value_text(&self, id: u32, value: u32, out: &mut Vec<u8>)
        requires there { IsSome (param_in (params_of self.now) id) }
        requires value { value ≤ 2 ^ 24 }
        requires room { vec_len out.old + 39 ≤ vec_capacity out.old }
        ensures text { IfSome (param_in (params_of self.now) id) (λ param. out.new.items ≡ out.old.items ++ value_text param.steps (label_text param.units) value) }
        ensures capacity { vec_capacity out.new ≡ vec_capacity out.old }
    {
        let param = self.find(id).unwrap();
        put_value(param.steps, param.units.text(), value, out);
    }

    /// The text of a parameter's value, normalised from 0 to 2^24.
    pub fn value_text(&self, alloc: Global, id: u32, value: u32) -> Result<Vec<u8>, AllocError>
        requires there { IsSome (param_in (params_of self.now) id) }
        requires value { value ≤ 2 ^ 24 }
        ensures { IfOk result (λ text. IfSome (param_in (params_of self.now) id) (λ param. text.items ≡ value_text param.steps (label_text param.units) value)) }
    {
        let mut text = Vec::with_capacity(alloc, 39)?;
        self.put_value_text(id, value, &mut text);
        Ok(text)
    }

    /// The value that a text stands for, and None where it is the text of no value. Of a continuous
    /// parameter's values with one text it is the least, else the value of the step.
    pub fn text_value(&self, id: u32, text: &[u8]) -> Option<u32>
        requires { IsSome (param_in (params_of self.now) id) }
        ensures { IfSome (param_in (params_of self.now) id) (λ param. IsTextValue param.steps (label_text param.units) text.now result) }
    {
        let param = self.find(id).unwrap();
        value_of_text(param.steps, param.units.text(), text)
    }

    /// A table of the same parameters and units.
    pub fn copy(&self, alloc: Global) -> Result<ParamTable, AllocError>
        ensures params { IfOk result (λ table. params_of table ≡ params_of self.now) }
        ensures units { IfOk result (λ table. units_of table ≡ units_of self.now) }
    {
        Ok(ParamTable {
            params: Vec::from_slice(alloc, self.params.as_slice())?,
            units: Vec::from_slice(alloc, self.units.as_slice())?,
        })
    }
}

/// The parameters by rising id.
fn sorted(alloc: Global, params: &[ParamInfo]) -> Result<Vec<ParamInfo>, AllocError>
    ensures order { IfOk result (λ list. IsPermutation params.now list.items) }
    ensures rising { IfOk result (λ list. IsNonDecreasingBy (λ param. param.id) list.items) }
{
    let mut list = Vec::from_slice(alloc, params)?;
    list.sort_unstable_by_key(|param| param.id);
    Ok(list)
}
