//! The reader of machine files: from bytes to the sheet and the script that they mean, or the first fault.
#![tactic(auto)]

mod bodies;
mod contents;
mod items;
mod part;
mod passes;
pub mod script;
pub mod sheet;
mod told;

pub use grammar::{Name, Power, TaskLine, name, task};
pub use script::{Letters, Script, ScriptText, script_line};
pub use sheet::Sheet;
