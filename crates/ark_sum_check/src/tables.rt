//! Tables by lists of values at the corners of a cube: their first variable bound.

ghost use Rattle.std.specs.Prelude.{◌≡◌, ℕ, ◌+◌, ◌*◌, ◌^◌, ◌<◌, ◌≤◌, [], ◌∷◌, All, length};
ghost use Rattle.ark_math_variables.specs.Multilinear.{fixed};
ghost use Rattle.ark_math.specs.Univariate.{of_list};
ghost use Rattle.ark_sum_check.specs.Cube.{bound_to, sum_with};
ghost use Rattle.ark_sum_check.specs.Lists.{as_tables};

use ark_traits::Field;

// A table's value at a corner once its first variable is bound to `x`.
fn bound_value<F: Field>(table: &[F], corner: usize, x: F) -> F
    requires few { corner < 2 ^ 62 }
    requires within { 2 * corner + 1 < length table.now }
    ensures { result ≡ fixed F.field (of_list F.field table.now) (x ∷ []) corner }
{
    let low = table[2 * corner];
    low + x * (table[2 * corner + 1] - low)
}

// Writes what is left of a table when its first variable is bound to `x` over its lower half.
fn bind_in_place<F: Field>(table: &mut [F], half: usize, x: F)
    requires few { half ≤ 2 ^ 62 }
    requires whole { length table.old ≡ 2 * half }
    ensures { (i : ℕ) → i < half → of_list F.field table.new i
        ≡ fixed F.field (of_list F.field table.old) (x ∷ []) i }
{
    for i in 0..half {
        let value = bound_value(table, i, x);
        table[i] = value;
    }
}

// Binds the first variable of a table to `x`, which halves it.
fn bind_first<F: Field>(table: &mut Vec<F>, half: usize, x: F)
    requires few { half ≤ 2 ^ 62 }
    requires whole { length table.old.items ≡ 2 * half }
    ensures values { of_list F.field table.new.items
        ≡ fixed F.field (of_list F.field table.old.items) (x ∷ []) }
    ensures len { length table.new.items ≡ half }
{
    bind_in_place(table.as_mut_slice(), half, x);
    table.truncate(half);
}

// Binds the first variable of each table to `x`.
pub(crate) fn bind_each<F: Field>(tables: &mut [Vec<F>], half: usize, x: F)
    requires few { half ≤ 2 ^ 62 }
    requires whole { All (λ t. length t.items ≡ 2 * half) tables.old }
    ensures values { (sum_with F.field (as_tables F.field tables.new) [])
        ≡ bound_to F.field x (sum_with F.field (as_tables F.field tables.old) []) }
    ensures count { length tables.new ≡ length tables.old }
    ensures len { All (λ t. length t.items ≡ half) tables.new }
{
    for i in 0..tables.len() {
        bind_first(&mut tables[i], half, x);
    }
}
