//! Values of polynomials and tables over a field at points of a greater one, without a copy of them there.

ghost use Rattle.std.specs.Prelude.{◌≡◌, ◌↔◌, ◌*◌, ◌/◌, ◌^◌, [], ◌∷◌, length, map, IfOk, IsTrue};
ghost use Rattle.ark_math_variables.specs.Multilinear.{extension, fixed};
ghost use Rattle.ark_math.specs.Univariate.{IsValue, of_list};

use ark_tables::tables::value_of_table;
use ark_traits::{ExtensionOf, Field};
use std::alloc::{AllocError, Global};

/// The value at a point of the greater field, by Horner's method in steps of four coefficients: a step takes
/// one product of two elements of the greater field, and three by elements of `F`.
pub fn evaluate<F: Field, E: ExtensionOf<F>>(coeffs: &[F], point: E) -> E
    ensures { IsValue E.field (of_list E.field (map E.within coeffs.now)) point result }
{
    let square = point * point;
    let cube = square * point;
    let fourth = square * square;
    let rest = coeffs.len() % 4;
    let mut value = E::zero();
    for k in (0..coeffs.len() / 4).rev() {
        let i = rest + 4 * k;
        let low = E::embed(coeffs[i]) + point.mul_by_base(coeffs[i + 1]);
        let high = square.mul_by_base(coeffs[i + 2]) + cube.mul_by_base(coeffs[i + 3]);
        value = value * fourth + (low + high);
    }
    for i in (0..rest).rev() {
        value = value * point + E::embed(coeffs[i]);
    }
    value
}

// Writes what is left of a table when its first variable is bound to `x` over a buffer of half the length.
fn bind_pairs<F: Field, E: ExtensionOf<F>>(half: &mut [E], table: &[F], x: E)
    requires { length table.now ≡ 2 * length half.old }
    ensures { of_list E.field half.new
        ≡ fixed E.field (of_list E.field (map E.within table.now)) (x ∷ []) }
{
    for i in 0..half.len() {
        let low = table[2 * i];
        let high = table[2 * i + 1];
        half[i] = E::embed(low) + x.mul_by_base(high - low);
    }
}

/// What is left of a table of values at corners when its first variable is bound to an element of the greater
/// field: one product by an element of `F` for each pair of values. It takes memory for what is left.
pub fn bind_first<F: Field, E: ExtensionOf<F>>(
    alloc: Global,
    table: &[F],
    x: E,
) -> Result<Vec<E>, AllocError>
    requires { length table.now ≡ 2 * (length table.now / 2) }
    ensures values { IfOk result (λ left. of_list E.field left.items
        ≡ fixed E.field (of_list E.field (map E.within table.now)) (x ∷ [])) }
    ensures len { IfOk result (λ left. 2 * length left.items ≡ length table.now) }
{
    let len = table.len() / 2;
    let mut half = Vec::with_capacity(alloc, len)?;
    half.resize(len, E::zero())?;
    bind_pairs(half.as_mut_slice(), table, x);
    Ok(half)
}

/// Whether a table of so many variables has this length.
pub fn is_table_len(len: usize, variables: usize) -> bool
    ensures { IsTrue result ↔ (len ≡ 2 ^ variables) }
{
    if variables >= 64 {
        return false;
    }
    len == 1 << variables
}

/// The value of a table's multilinear extension at a point of the greater field: item i of the point counts
/// where bit i of a value's index is set. `is_table_len` tells whether the table has `2^m` values, for a point
/// of m items. The first variable is bound by products with elements of `F`, the others within the greater
/// field, by one product for each pair of values. It takes memory for three quarters as many elements of that
/// as the table has values.
pub fn evaluate_multilinear<F: Field, E: ExtensionOf<F>>(
    alloc: Global,
    table: &[F],
    point: &[E],
) -> Result<E, AllocError>
    requires { length table.now ≡ 2 ^ length point.now }
    ensures { IfOk result (λ y. y ≡ extension E.field (of_list E.field (map E.within table.now)) point.now) }
{
    let Some((first, others)) = point.split_first() else {
        return Ok(E::embed(table[0]));
    };
    let left = bind_first(alloc, table, *first)?;
    value_of_table(alloc, &left, others)
}
