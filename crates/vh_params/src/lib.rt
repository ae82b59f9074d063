//! What a plug-in says of itself and what a user does with it: parameter tables, classes, the nodes of a
//! session, and commands.
#![tactic(auto)]

mod class;
mod command;
mod label;
pub mod laws;
mod node;
mod param;
mod table;
mod value;

pub use class::{ClassInfo, Classes};
pub use command::{Command, Reply, Word};
pub use label::{Label, Words};
pub use node::{NodeTable, is_name};
pub use param::{
    CAN_AUTOMATE, IS_BYPASS, IS_HIDDEN, IS_LIST, IS_PROGRAM_CHANGE, IS_READ_ONLY, IS_WRAP_AROUND,
    ParamInfo, UnitInfo,
};
pub use table::{ParamTable, TableFault};
