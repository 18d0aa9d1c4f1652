//! The first eligible entry of a row in a total order, for rows of any kind.
ghost use Rattle.std.specs.Prelude.{◌≡◌, ℕ, ◌+◌, ◌<◌, Bool, true, false, List, length, slice_index_or};
ghost use Rattle.basis.specs.Picks.{Picked};

// An entry of a row: whether it is eligible for a question `Q`, and which of two entries comes first.
// The order is total over what it compares, the entry's key: of two entries one comes before the other, or they have one key.
pub trait Entry<Q> {
    ghost eligible: { Q → Self → Bool };

    ghost key: { Self → List ℕ };

    ghost before: { Self → Self → Bool };

    fn is_eligible(&self, question: &Q) -> bool
        ensures { result ≡ eligible question.now self.now };

    fn comes_before(&self, other: &Self) -> bool
        ensures { result ≡ before self.now other.now };

    ghost asymmetric: { (x y : Self) → before x y ≡ true → before y x ≡ false };

    ghost transitive: { (x y z : Self) → before x y ≡ true → before y z ≡ true → before x z ≡ true };

    ghost total: { (x y : Self) → before x y ≡ false → before y x ≡ false → key x ≡ key y };

    ghost keyed: { (x y z : Self) → key x ≡ key y → (before x z ≡ before y z) × (before z x ≡ before z y) };
}

// The pick of the first `i` entries and `entry`, the one at `i`.
fn better<Q, E: Entry<Q>>(
    row: &[E],
    question: &Q,
    best: Option<usize>,
    i: usize,
    entry: &E,
) -> Option<usize>
    requires inside { i < length row.now }
    requires here { entry.now ≡ slice_index_or row.now i entry.now }
    requires picked { Picked (E.Entry.eligible question.now) E.Entry.before E.Entry.key row.now i best }
    ensures { Picked (E.Entry.eligible question.now) E.Entry.before E.Entry.key row.now (i + 1) result }
{
    if !entry.is_eligible(question) {
        return best;
    }
    match best {
        None => Some(i),
        Some(b) => {
            if entry.comes_before(&row[b]) {
                Some(i)
            } else {
                Some(b)
            }
        }
    }
}

// The place of the first eligible entry in the order: absent exactly when no entry is eligible.
pub fn pick<Q, E: Entry<Q>>(row: &[E], question: &Q) -> Option<usize>
    ensures { Picked (E.Entry.eligible question.now) E.Entry.before E.Entry.key row.now (length row.now) result }
{
    let mut best = None;
    for (i, entry) in row.iter().enumerate() {
        best = better(row, question, best, i, entry);
    }
    best
}
