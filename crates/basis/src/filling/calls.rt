//! The calls of a filling list.
ghost use Rattle.std.specs.Prelude.{◌≡◌, ℕ, ◌+◌, ◌-◌, ◌<◌, ◌≤◌, List, [], ◌∷◌, ◌++◌, length, drop, MatchOption, MatchResult, slice_index_or};
ghost use Rattle.basis.specs.Fillings.{entries_of, free_of, memory_of, lent_of};

use crate::filling::Filling;

impl<'a, T: Copy> Filling<'a, T> {
    // An empty list over the caller's memory, which stays as it is.
    pub fn new(memory: &'a mut [T]) -> Filling<'a, T>
        ensures entries { entries_of result ≡ [] }
        ensures free { free_of result ≡ memory.old }
        ensures lent { lent_of result ≡ memory.entry.ghost_name }
    {
        Filling { memory, len: 0 }
    }

    // How many entries it has.
    pub fn len(&self) -> usize
        ensures { result ≡ length (entries_of self.now) }
    {
        self.entries().len()
    }

    // How many more entries it can take.
    pub fn free(&self) -> usize
        ensures { result ≡ length (free_of self.now) }
    {
        self.memory.len() - self.len
    }

    // The entry at a place, if there is one.
    pub fn get(&self, place: usize) -> Option<T>
        ensures { MatchOption result (length (entries_of self.now) ≤ place) (λ x. (place < length (entries_of self.now)) × (x ≡ slice_index_or (entries_of self.now) place x)) }
    {
        self.entries().get(place).copied()
    }

    // The entries, as a part of the memory.
    pub fn entries(&self) -> &[T]
        ensures { result.now ≡ entries_of self.now }
    {
        &self.memory[0..self.len]
    }

    // One entry more, in the first free place. A full list takes none and gives it back.
    pub fn push(&mut self, x: T) -> Result<(), T>
        ensures lent { lent_of self.new ≡ lent_of self.old }
        ensures cases { MatchResult result
            (λ _. (entries_of self.new ≡ entries_of self.old ++ (x ∷ [])) × (free_of self.new ≡ drop 1 (free_of self.old)) × (0 < length (free_of self.old)))
            (λ y. (y ≡ x) × (self.new ≡ self.old) × (free_of self.old ≡ [])) }
    {
        if self.len < self.memory.len() {
            self.memory[self.len] = x;
            // its own entries, and no index
            self.len += 1;
            Ok(())
        } else {
            Err(x)
        }
    }

    // Lets all entries go; the memory stays as it is.
    pub fn clear(&mut self)
        ensures lent { lent_of self.new ≡ lent_of self.old }
        ensures entries { entries_of self.new ≡ [] }
        ensures free { free_of self.new ≡ memory_of self.old }
    {
        self.len = 0;
    }

    // Ends the list and gives the filled part of the memory back.
    pub fn into_filled(self) -> &'a mut [T]
        ensures { result.now ≡ entries_of self.entry }
    {
        let Filling { memory, len } = self;
        &mut memory[0..len]
    }
}
