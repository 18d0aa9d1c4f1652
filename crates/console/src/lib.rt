//! The text of the programs, from bytes to bytes.
#![tactic(auto)]

mod input;
mod page;
mod text;
mod ticks;

pub use input::{read_file, read_up_to};
pub use page::{Page, put_refusal, spare_page};
