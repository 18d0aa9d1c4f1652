ghost use Rattle.std.specs.Prelude.{◌≡◌, ℕ, ◌%◌, ◌<◌, ◌≤◌, length};
ghost use Rattle.theory.specs.Loads.{size, period, load};

pub mod calls;

use crate::cycle::Turn;
use basis::Places;
use theory::Load;

// Up to sixteen works and periods with a cycle that each period divides, of at most 30,000 ticks, in which all the work fits.
#[derive(Clone, Copy)]
pub struct Workload {
    loads: Places<Load, 16>,
    cycle: Turn,
    ghost few: { length loads ≤ 16 },
    ghost ticks: { 0 < cycle.ticks },
    ghost periods: { (i : ℕ) → i < size loads → 0 < period loads i },
    ghost divides: { (i : ℕ) → i < size loads → cycle.ticks % period loads i ≡ 0 },
    ghost fits: { load loads cycle.ticks ≤ cycle.ticks },
}
