//! Wake plans, and the slot machine by which a board serves its jobs in the ticks of a plan.
#![tactic(auto)]

pub mod always;
pub mod edl;
pub mod job;
pub mod lent;
pub mod machine;
pub mod plan;

pub use always::Always;
pub use edl::EdlPlan;
pub use job::Job;
pub use machine::SlotMachine;
pub use plan::WakePlan;
