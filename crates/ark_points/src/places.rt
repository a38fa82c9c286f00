//! Where items stand among the powers of a root of unity.

ghost use Rattle.std.specs.Prelude.{◌≡◌, ℕ, ◌+◌, ◌*◌, ◌/◌, ◌<◌, ◌≤◌, length, get_or, IfOk, OnOk};
ghost use Rattle.ark_math.specs.Field.{power};
ghost use Rattle.ark_math.specs.Univariate.{of_list};

use ark_bit_reversed::items::raise_each;
use ark_traits::Field;
use std::alloc::{AllocError, Global};

// A place's digits are to bases of at most so much.
const MOST: usize = 16;

/// Of each item a place below `size`. What is left in the items are the quotients by the root's powers at
/// their places: one wherever an item is a power of the root, and `size` is the root's order.
///
/// A place's lowest digit stands in the power whose exponent is the size by the digit's base, and the others
/// are found alike once the digit is taken out.
pub fn take_places<F: Field>(
    alloc: Global,
    items: &mut [F],
    root: F,
    inverse: F,
    size: usize,
) -> Result<Vec<usize>, AllocError>
    requires some { 0 < size }
    requires inverse { F.field.times root inverse ≡ F.field.one }
    ensures len { length items.new ≡ length items.old }
    ensures places { IfOk result (λ v. length v.items ≡ length items.old) }
    ensures below { IfOk result (λ v. (i : ℕ) → i < length items.old → get_or v.items i 0 < size) }
    ensures products { IfOk result (λ v. (i : ℕ) → i < length items.old → of_list F.field items.old i
        ≡ F.field.times (of_list F.field items.new i) (power F.field root (get_or v.items i 0))) }
{
    if size == 1 {
        return Ok(vec![in alloc; 0; items.len()]?);
    }
    let base = base_of(size);
    let digits = digits(alloc, items, root, size / base, base)?;
    multiply_by_powers(alloc, items, inverse, &digits, base)?;
    let next_root = root.pow(base as u64);
    let next_inverse = inverse.pow(base as u64);
    let mut places = take_places(alloc, items, next_root, next_inverse, size / base)?;
    put_digits(places.as_mut_slice(), &digits, base, size);
    Ok(places)
}

// The greatest of the small divisors, or the number itself.
fn base_of(size: usize) -> usize
    requires { 1 < size }
    ensures more { 1 < result }
    ensures most { result ≤ size }
{
    for base in (2..=MOST).rev() {
        if size % base == 0 {
            return base;
        }
    }
    size
}

// Of each item a digit: where the item's power is one of the root's, below the base, that one's exponent.
fn digits<F: Field>(
    alloc: Global,
    items: &[F],
    root: F,
    exponent: usize,
    base: usize,
) -> Result<Vec<usize>, AllocError>
    requires positive { 0 < exponent }
    requires base { 0 < base }
    ensures len { IfOk result (λ v. length v.items ≡ length items.now) }
    ensures below { IfOk result (λ v. (i : ℕ) → i < length items.now → get_or v.items i 0 < base) }
{
    let mut raised = Vec::from_slice(alloc, items)?;
    raise_each(raised.as_mut_slice(), exponent);
    let table = powers(alloc, root.pow(exponent as u64), base)?;
    let mut digits = Vec::with_capacity(alloc, items.len())?;
    for i in 0..raised.len() {
        digits.push(place_of(&table, raised[i]))?;
    }
    Ok(digits)
}

// The powers of an element from 0 on, so many.
fn powers<F: Field>(alloc: Global, element: F, count: usize) -> Result<Vec<F>, AllocError>
    ensures len { IfOk result (λ v. length v.items ≡ count) }
    ensures powers { IfOk result (λ v. (i : ℕ) → i < count
        → of_list F.field v.items i ≡ power F.field element i) }
{
    let mut powers = Vec::with_capacity(alloc, count)?;
    let mut next = F::one();
    for _ in 0..count {
        powers.push(next)?;
        next *= element;
    }
    Ok(powers)
}

// The last place of an item in a table, and the first one if it isn't there. It looks at all places, so that
// no branch depends on them.
fn place_of<F: Field>(table: &[F], item: F) -> usize
    requires { 0 < length table.now }
    ensures { result < length table.now }
{
    let mut place = 0;
    for i in 0..table.len() {
        if table[i] == item {
            place = i;
        }
    }
    place
}

// Multiplies each item by the root's power whose exponent is the digit at the item's place.
fn multiply_by_powers<F: Field>(
    alloc: Global,
    items: &mut [F],
    root: F,
    digits: &[usize],
    base: usize,
) -> Result<(), AllocError>
    requires len { length digits.now ≡ length items.old }
    requires below { (i : ℕ) → i < length items.old → get_or digits.now i 0 < base }
    ensures len { length items.new ≡ length items.old }
    ensures products { OnOk result ((i : ℕ) → i < length items.old → of_list F.field items.new i
        ≡ F.field.times (of_list F.field items.old i) (power F.field root (get_or digits.now i 0))) }
{
    let table = powers(alloc, root, base)?;
    for i in 0..digits.len() {
        items[i] *= table[digits[i]];
    }
    Ok(())
}

// Puts a lowest digit before each of the places' own ones.
fn put_digits(places: &mut [usize], digits: &[usize], base: usize, size: usize)
    requires len { length digits.now ≡ length places.old }
    requires digits { (i : ℕ) → i < length places.old → get_or digits.now i 0 < base }
    requires places { (i : ℕ) → i < length places.old → get_or places.old i 0 < size / base }
    ensures len { length places.new ≡ length places.old }
    ensures places { (i : ℕ) → i < length places.old → get_or places.new i 0
        ≡ get_or digits.now i 0 + base * get_or places.old i 0 }
    ensures below { (i : ℕ) → i < length places.old → get_or places.new i 0 < size }
{
    for i in 0..digits.len() {
        places[i] = digits[i] + base * places[i];
    }
}
