//! What a machine file says and which bytes say it: the plain values of its lines, its meaning pass by pass and as a grammar, and
//! the proof that the two agree.
#![tactic(auto)]

pub mod bytes;
pub mod letters;
pub mod name;
pub mod section;
pub mod task;

pub use basis::Reason;
pub use bytes::{length_before, same};
pub use letters::Letters;
pub use name::Name;
pub use section::{Entry, Section};
pub use task::{Power, TaskLine};
