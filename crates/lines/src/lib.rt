//! The lines of a machine file: how a text is cut into them, and what each says, word by word.
#![tactic(auto)]

mod entry;
mod fields;
mod lines;
mod script;
mod tail;
mod words;

pub use entry::read_entry;
pub use fields::{read_level, read_power, read_task};
pub use lines::{check_bytes, next_line};
pub use script::script_line;
