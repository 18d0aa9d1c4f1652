//! A list in places of its own, where no memory is allocated.
ghost use Rattle.std.specs.Prelude.{◌≡◌, ℕ, ◌<◌, ◌≤◌, [], ◌∷◌, ◌++◌, length, map, take, MatchResult, ⊤, slice_index_or};

use std::alloc::AllocError;
use std::marker::Model;

// What stands in a place that no entry uses.
pub trait Blank: Copy {
    ghost BLANK: { Self };

    const BLANK: Self;
}

impl Blank for u8 {
    ghost BLANK = { 0 };

    const BLANK: u8 = 0;
}

// A list of at most `N` entries in `N` places of its own. Places past the entries are blank, so that lists with the same entries are the
// same value.
pub struct Places<T: Blank, const N: usize> {
    places: [T; N],
    count: usize,
}

// Clauses see the entries, the first first.
impl<T: Blank, const N: usize> Model for Places<T, N> {
    ghost use Rattle.std.specs.Prelude.{◌≡◌, ◌-◌, ◌≤◌, List, length, take, drop, replicate};
    ghost use Rattle.std.proofs.lemmas.List.{length-take-le};
    ghost use Rattle.basis.specs.Places.{padded, padded_back};

    ghost Value = { List T };

    ghost view = { λ p. take p.count p.places };

    ghost invariant = { λ p. (length p.places ≡ N) × (p.count ≤ length p.places) × (drop p.count p.places ≡ replicate (N - p.count) T.BLANK) };

    ghost inverse = { λ xs. record { places = padded T.BLANK N xs; count = length xs } };

    ghost inverse_ok = { λ p h. λ i. record { places = padded_back T.BLANK N p.count p.places h.1 h.2 i; count = length-take-le p.count p.places h.1 i } };
}

// By hand, since a derived one goes field by field, and the proof of its places did not close.
impl<T: Blank, const N: usize> Clone for Places<T, N> {
    ghost is_clone = { λ entries copy. copy ≡ entries };

    ghost is_infallible = { λ _. ⊤ };

    fn clone(&self) -> Result<Places<T, N>, AllocError> {
        Ok(*self)
    }
}

impl<T: Blank, const N: usize> Copy for Places<T, N> {}

impl<T: Blank, const N: usize> Places<T, N> {
    // No entry.
    pub fn new() -> Places<T, N>
        ensures { result ≡ [] }
    {
        Places {
            places: [T::BLANK; N],
            count: 0,
        }
    }

    // The list of these entries, or of the first `N` where there are more.
    pub fn of(entries: &[T]) -> Places<T, N>
        ensures front { result ≡ take N entries.now }
        ensures whole { length entries.now ≤ N → result ≡ entries.now }
    {
        Places::mapped(entries, |entry| entry)
    }

    // The entries.
    pub fn entries(&self) -> &[T]
        ensures entries { result.now ≡ self.now }
        ensures few { length self.now ≤ N }
    {
        let places = &self.places[..];
        &places[0..self.count]
    }

    // One entry more, in the first blank place. Full places take none and give it back.
    // Apart from `Filling::push`, which writes to memory that is lent: no value can lend memory to a part of itself.
    pub fn push(&mut self, entry: T) -> Result<(), T>
        ensures { MatchResult result
            (λ _. (self.new ≡ self.old ++ (entry ∷ [])) × (length self.old < N))
            (λ y. (y ≡ entry) × (self.new ≡ self.old) × (length self.old ≡ N)) }
    {
        if self.count < N {
            self.places[self.count] = entry;
            // its own entries, and no index
            self.count += 1;
            Ok(())
        } else {
            Err(entry)
        }
    }

    // Puts what a function makes of each entry in its place, where `mapped` would make a list and copy it. It asks that the function may be
    // called on each entry, and is public for our own crates alone. By place: an invariant over `iter_mut` has no name for
    // what is written.
    pub fn update<F: Fn(T) -> T>(&mut self, f: F)
        requires callable { (i : ℕ) (d : T) → i < length self.old → F.pre f (slice_index_or self.old i d) }
        ensures size { length self.new ≡ length self.old }
        ensures each { (h : T → T) → ((x : T) (y : T) → F.post f x y → y ≡ h x) → self.new ≡ map h self.old }
    {
        for place in 0..self.count {
            self.places[place] = f(self.places[place]);
        }
    }

    // The list of what a function makes of each item, or of the first `N` items where there are more. It asks that the function may be
    // called on each item, and is public for our own crates alone.
    pub fn mapped<S: Copy, F: Fn(S) -> T>(items: &[S], f: F) -> Places<T, N>
        requires callable { (i : ℕ) (d : S) → i < length items.now → F.pre f (slice_index_or items.now i d) }
        ensures front { (h : S → T) → ((x : S) (y : T) → F.post f x y → y ≡ h x) → result ≡ take N (map h items.now) }
        ensures whole { length items.now ≤ N → (h : S → T) → ((x : S) (y : T) → F.post f x y → y ≡ h x) → result ≡ map h items.now }
    {
        let mut places = Places::new();
        for item in items {
            // full places take no more
            let _full = places.push(f(*item));
        }
        places
    }
}
