//! What every layer is built on: faults, lists of a fixed room, and the pick of an entry from a row.
#![tactic(auto)]

pub mod fault;
pub mod filling;
pub mod places;
pub mod row;

pub use fault::{Fault, Layer, Reason};
pub use filling::Filling;
pub use places::{Blank, Places};
pub use row::{Entry, pick};
