//! A table by its entries, pairs of index and value: sums over the even or the odd indices, and the first
//! variable bound. Each takes one pass over the entries, however many corners the cube has.

ghost use Rattle.std.specs.Prelude.{◌≡◌, ℕ, ◌+◌, ◌*◌, ◌/◌, ◌<◌, ◌≤◌, [], ◌∷◌, All, drop, length, take};
ghost use Rattle.ark_math.specs.Module.{itself, sum_below};
ghost use Rattle.ark_math_variables.specs.Multilinear.{fixed};
ghost use Rattle.ark_math.specs.Univariate.{added, monomial, of_pairs};
ghost use Rattle.ark_sum_check.specs.Provers.{AreRising};

use ark_traits::Field;

// The sums of the values at even and at odd indices.
pub(crate) fn sums_of_sides<F: Field>(entries: &[(usize, F)]) -> (F, F)
    ensures zero { (half : ℕ) → All (λ e. e.0 < 2 * half) entries.now → result.0
        ≡ sum_below (itself F.field) half (λ c. of_pairs F.field entries.now (2 * c + 0)) }
    ensures one { (half : ℕ) → All (λ e. e.0 < 2 * half) entries.now → result.1
        ≡ sum_below (itself F.field) half (λ c. of_pairs F.field entries.now (2 * c + 1)) }
{
    let mut zero = F::zero();
    let mut one = F::zero();
    for entry in entries {
        if entry.0 % 2 == 0 {
            zero += entry.1;
        } else {
            one += entry.1;
        }
    }
    (zero, one)
}

// What a value at an index counts at half the index once the first variable is bound to `x`.
fn bound_part<F: Field>(index: usize, value: F, x: F) -> F
    ensures { monomial F.field (index / 2) result ≡ fixed F.field (monomial F.field index value) (x ∷ []) }
{
    let high = x * value;
    if index % 2 == 0 { value - high } else { high }
}

// Adds a value at an index to the first `kept` entries, to the last of them where that has this index, and
// else after it. Returns how many entries are kept then.
fn put<F: Field>(entries: &mut [(usize, F)], kept: usize, index: usize, value: F) -> usize
    requires { kept < length entries.old }
    ensures sum { of_pairs F.field (take result entries.new)
        ≡ added F.field (of_pairs F.field (take kept entries.old)) (monomial F.field index value) }
    ensures below { (n : ℕ) → index < n → All (λ e. e.0 < n) (take kept entries.old)
        → All (λ e. e.0 < n) (take result entries.new) }
    ensures rising { AreRising (take kept entries.old) → All (λ e. e.0 ≤ index) (take kept entries.old)
        → AreRising (take result entries.new) }
    ensures rest { (i : ℕ) → kept < i → drop i entries.new ≡ drop i entries.old }
    ensures few { result ≤ kept + 1 }
{
    if kept > 0 {
        let last = entries[kept - 1];
        if last.0 == index {
            entries[kept - 1] = (index, last.1 + value);
            return kept;
        }
    }
    entries[kept] = (index, value);
    kept + 1
}

// Writes what is left when the first variable is bound to `x` over the first entries. Returns how many they
// are.
fn bind_in_place<F: Field>(entries: &mut [(usize, F)], x: F) -> usize
    ensures values { of_pairs F.field (take result entries.new)
        ≡ fixed F.field (of_pairs F.field entries.old) (x ∷ []) }
    ensures below { (n : ℕ) → All (λ e. e.0 < 2 * n) entries.old → All (λ e. e.0 < n) (take result entries.new) }
    ensures rising { AreRising entries.old → AreRising (take result entries.new) }
    ensures few { result ≤ length entries.old }
{
    let mut kept = 0;
    for i in 0..entries.len() {
        let entry = entries[i];
        let part = bound_part(entry.0, entry.1, x);
        kept = put(entries, kept, entry.0 / 2, part);
    }
    kept
}

// Binds the first variable to `x`: an entry's index is halved, and neighbours whose indices are one then are
// merged.
pub(crate) fn bind_entries<F: Field>(entries: &mut Vec<(usize, F)>, x: F)
    ensures values { of_pairs F.field entries.new.items
        ≡ fixed F.field (of_pairs F.field entries.old.items) (x ∷ []) }
    ensures below { (n : ℕ) → All (λ e. e.0 < 2 * n) entries.old.items → All (λ e. e.0 < n) entries.new.items }
    ensures rising { AreRising entries.old.items → AreRising entries.new.items }
    ensures few { length entries.new.items ≤ length entries.old.items }
{
    let kept = bind_in_place(entries.as_mut_slice(), x);
    entries.truncate(kept);
}
