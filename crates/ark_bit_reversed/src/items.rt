//! Loops over lists of field elements.

ghost use Rattle.std.specs.Prelude.{◌≡◌, ◌≢◌, ℕ, ◌+◌, ◌*◌, ◌/◌, ◌<◌, ◌≤◌, false, true, length, map, IfOk};
ghost use Rattle.ark_math.specs.Field.{minus, power};
ghost use Rattle.ark_math.specs.Module.{itself, sum_below};
ghost use Rattle.ark_math.specs.Univariate.{of_list};

use ark_coeffs::dense::multiply_each;
use ark_traits::Field;
use std::alloc::{AllocError, Global};

/// Whether an item is zero.
pub fn has_zero<F: Field>(items: &[F]) -> bool
    ensures none { result ≡ false → (i : ℕ) → i < length items.now → of_list F.field items.now i ≢ F.field.zero }
    ensures some { result ≡ true → (i : ℕ) × (i < length items.now) × (of_list F.field items.now i ≡ F.field.zero) }
{
    for i in 0..items.len() {
        if items[i].is_zero() {
            return true;
        }
    }
    false
}

/// Multiplies each item by what is left of `whole` without the power at its place.
pub fn multiply_by_gaps<F: Field>(items: &mut [F], whole: F, powers: &[F])
    requires { length items.old ≡ length powers.now }
    ensures len { length items.new ≡ length items.old }
    ensures products { (i : ℕ) → i < length powers.now → of_list F.field items.new i
        ≡ F.field.times (of_list F.field items.old i) (minus F.field whole (of_list F.field powers.now i)) }
{
    for i in 0..powers.len() {
        items[i] = items[i] * (whole - powers[i]);
    }
}

/// Raises each item to the power of the exponent: squares all as long as it is even.
pub fn raise_each<F: Field>(items: &mut [F], exponent: usize)
    requires { 0 < exponent }
    ensures len { length items.new ≡ length items.old }
    ensures powers { (i : ℕ) → i < length items.old → of_list F.field items.new i
        ≡ power F.field (of_list F.field items.old i) exponent }
{
    if exponent % 2 == 1 {
        raise_one_by_one(items, exponent);
    } else {
        square_each(items);
        raise_each(items, exponent / 2);
    }
}

/// Squares each item.
pub fn square_each<F: Field>(items: &mut [F])
    ensures squares { items.new ≡ map (λ item. F.field.times item item) items.old }
{
    for i in 0..items.len() {
        let item = items[i];
        items[i] = item * item;
    }
}

// Raises each item to the power of the exponent, each for itself.
fn raise_one_by_one<F: Field>(items: &mut [F], exponent: usize)
    ensures len { length items.new ≡ length items.old }
    ensures powers { (i : ℕ) → i < length items.old → of_list F.field items.new i
        ≡ power F.field (of_list F.field items.old i) exponent }
{
    if exponent == 1 {
        return;
    }
    for i in 0..items.len() {
        let own = items[i];
        items[i] = own.pow(exponent as u64);
    }
}

/// The products of the items of two lists, in a list with room for so many.
pub fn place_products<F: Field>(
    alloc: Global,
    left: &[F],
    right: &[F],
    room: usize,
) -> Result<Vec<F>, AllocError>
    requires { length left.now ≡ length right.now }
    ensures len { IfOk result (λ v. length v.items ≡ length left.now) }
    ensures products { IfOk result (λ v. (i : ℕ) → i < length left.now → of_list F.field v.items i
        ≡ F.field.times (of_list F.field left.now i) (of_list F.field right.now i)) }
{
    let mut products = Vec::with_capacity(alloc, room)?;
    products.extend_from_slice(left)?;
    multiply_each(products.as_mut_slice(), right);
    Ok(products)
}

/// Makes each item zero.
pub fn clear<F: Field>(items: &mut [F])
    ensures len { length items.new ≡ length items.old }
    ensures zero { (i : ℕ) → i < length items.old → of_list F.field items.new i ≡ F.field.zero }
{
    for i in 0..items.len() {
        items[i] = F::zero();
    }
}

/// Adds to each item the product of the other two lists'.
pub fn add_products<F: Field>(items: &mut [F], left: &[F], right: &[F])
    requires left { length left.now ≡ length items.old }
    requires right { length right.now ≡ length items.old }
    ensures len { length items.new ≡ length items.old }
    ensures sums { (i : ℕ) → i < length items.old → of_list F.field items.new i ≡ F.field.plus
        (of_list F.field items.old i)
        (F.field.times (of_list F.field left.now i) (of_list F.field right.now i)) }
{
    for i in 0..items.len() {
        items[i] = items[i] + left[i] * right[i];
    }
}

/// Multiplies each item by the factor's power at its place.
pub fn scale_by_powers<F: Field>(items: &mut [F], factor: F)
    ensures len { length items.new ≡ length items.old }
    ensures products { (i : ℕ) → i < length items.old → of_list F.field items.new i
        ≡ F.field.times (power F.field factor i) (of_list F.field items.old i) }
{
    let mut next = F::one();
    for i in 0..items.len() {
        items[i] = next * items[i];
        next *= factor;
    }
}

/// The sum of all items: of those in whole fours, and then of the rest.
pub fn sum_of<F: Field>(items: &[F]) -> F
    ensures { result ≡ sum_below (itself F.field) (length items.now) (of_list F.field items.now) }
{
    let mut sum = sum_of_fours(items);
    for i in 4 * (items.len() / 4)..items.len() {
        sum += items[i];
    }
    sum
}

// The sum of the items in whole fours, by four sums, so that no addition waits for the last one.
fn sum_of_fours<F: Field>(items: &[F]) -> F
    ensures { result ≡ sum_below (itself F.field) (4 * (length items.now / 4)) (of_list F.field items.now) }
{
    let mut first = F::zero();
    let mut second = F::zero();
    let mut third = F::zero();
    let mut fourth = F::zero();
    for k in 0..items.len() / 4 {
        first += items[4 * k];
        second += items[4 * k + 1];
        third += items[4 * k + 2];
        fourth += items[4 * k + 3];
    }
    (first + second) + (third + fourth)
}
