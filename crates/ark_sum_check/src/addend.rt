//! An addend of a sum of products.

ghost use Rattle.std.specs.Prelude.{◌≡◌, ◌<◌, ◌^◌, ◌↔◌, All, length, IsTrue};
ghost use Rattle.ark_math.specs.Module.{tabulate};
ghost use Rattle.ark_math.specs.Univariate.{of_list};
ghost use Rattle.ark_sum_check.specs.Cube.{all_of, combined, longest, picked_product};
ghost use Rattle.ark_sum_check.specs.Lists.{AreWithin, as_products};

use ark_traits::Field;

/// A coefficient times a product of factors, each by the index of its table among those of a prover. A table
/// may be a factor of several addends, and of one addend several times. With no factors it is the coefficient
/// alone.
#[derive(Debug, Drop)]
pub struct Addend<F> {
    /// What the product is multiplied by.
    pub coefficient: F,
    /// The index of each factor's table.
    pub factors: Vec<usize>,
}

// Whether each factor is one of so many tables.
pub(crate) fn are_within<F>(addends: &[Addend<F>], count: usize) -> bool
    ensures { IsTrue result ↔ AreWithin count addends.now }
{
    addends
        .iter()
        .all(|addend| are_below(&addend.factors, count))
}

fn are_below(indices: &[usize], count: usize) -> bool
    ensures { IsTrue result ↔ All (λ i. i < count) indices.now }
{
    indices.iter().all(|index| *index < count)
}

// Whether these are one addend alone, the product of so many tables, each once and in their order.
pub(crate) fn is_product_of_all<F: Field>(addends: &[Addend<F>], count: usize) -> bool
    ensures { IsTrue result → as_products addends.now ≡ all_of F.field count }
{
    match addends {
        [addend] => addend.coefficient.is_one() && are_in_order(&addend.factors, count),
        _ => false,
    }
}

// Whether these are 0, 1, .., count - 1.
fn are_in_order(indices: &[usize], count: usize) -> bool
    ensures { IsTrue result → indices.now ≡ tabulate count (λ i. i) }
{
    if indices.len() != count {
        return false;
    }
    for i in 0..count {
        if indices[i] != i {
            return false;
        }
    }
    true
}

// How many factors the longest addend has.
pub(crate) fn most_factors<F>(addends: &[Addend<F>]) -> usize
    ensures most { result ≡ longest (as_products addends.now) }
    ensures few { result < 2 ^ 63 }
{
    let mut most = 0;
    for addend in addends {
        most = most.max(addend.factors.len());
    }
    most
}

// The sum of the addends, where the values stand for the tables.
pub(crate) fn sum_of_addends<F: Field>(addends: &[Addend<F>], values: &[F]) -> F
    requires { AreWithin (length values.now) addends.now }
    ensures { result ≡ combined F.field (as_products addends.now) (of_list F.field values.now) }
{
    let mut sum = F::zero();
    for addend in addends {
        sum += scaled_product(addend.coefficient, &addend.factors, values);
    }
    sum
}

// A coefficient times the product of the values with these indices.
fn scaled_product<F: Field>(coefficient: F, indices: &[usize], values: &[F]) -> F
    requires { All (λ i. i < length values.now) indices.now }
    ensures { result ≡ F.field.times coefficient
        (picked_product F.field indices.now (of_list F.field values.now)) }
{
    let mut product = coefficient;
    for index in indices {
        product = product * values[*index];
    }
    product
}

// The product of all values.
pub(crate) fn product_of_all<F: Field>(values: &[F]) -> F
    ensures { result ≡ combined F.field (all_of F.field (length values.now)) (of_list F.field values.now) }
{
    if values.is_empty() {
        return F::one();
    }
    let mut product = values[0];
    for i in 1..values.len() {
        product = product * values[i];
    }
    product
}
