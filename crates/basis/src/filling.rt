ghost use Rattle.std.specs.Prelude.{◌≤◌, length};

pub mod calls;

// A list that fills memory lent by the caller from its front: `len` entries, and free places after them.
// The memory is the caller's and nothing is allocated, so it is no `Vec`.
#[derive(Drop)]
pub struct Filling<'a, T> {
    memory: &'a mut [T],
    len: usize,
    ghost within: { len ≤ length memory.now },
}
