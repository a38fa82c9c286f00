//! Values over runs of a table's elements, and polynomials from them.

ghost use Rattle.std.specs.Prelude.{◌≡◌, ℕ, suc, ◌+◌, ◌*◌, ◌^◌, ◌<◌, ◌≤◌, length, take, IfOk, OnErr, OnOk};
ghost use Rattle.ark_math.specs.Field.{minus};
ghost use Rattle.ark_math.specs.Univariate.{IsBelow, of_list, product, value_below};
ghost use Rattle.ark_bit_reversed.specs.Blocks.{AreFirstValues, AreReversed, AreRoots, IsPowerOfTwo, element_of, size_of};

use crate::backward::backward;
use crate::forward::forward;
use crate::items::place_products;
use crate::table::BlockRoots;
use ark_coeffs::dense::{add_scaled, scale_each, subtract_each};
use ark_traits::{FftField, Field};
use std::alloc::{AllocError, Global};
use std::ops::Range;

impl<F: FftField> BlockRoots<F> {
    /// The values at the first `count` elements of the polynomial with these coefficients, of which there are no
    /// more.
    pub fn values(&self, alloc: Global, coeffs: &[F], count: usize) -> Result<Vec<F>, AllocError>
        requires power { IsPowerOfTwo count }
        requires room { count ≤ size_of self.now }
        requires few { length coeffs.now ≤ count }
        ensures values { IfOk result (λ v. AreFirstValues F.field self.now count (of_list F.field coeffs.now)
            v.items) }
    {
        let mut values = Vec::with_capacity(alloc, count)?;
        let len = coeffs.len().next_power_of_two();
        push_blocks(&mut values, coeffs, &self.roots, 0..count / len, len)?;
        Ok(values)
    }

    /// Behind the values at the first elements those at as many more, of the polynomial with these coefficients. After an
    /// error the values are as they were.
    pub fn double(&self, values: &mut Vec<F>, coeffs: &[F]) -> Result<(), AllocError>
        requires power { IsPowerOfTwo (length values.old.items) }
        requires room { length values.old.items + length values.old.items ≤ size_of self.now }
        requires few { length coeffs.now ≤ length values.old.items + length values.old.items }
        ensures values { OnOk result (AreFirstValues F.field self.now (length values.old.items)
            (of_list F.field coeffs.now) values.old.items
            → AreFirstValues F.field self.now (length values.old.items + length values.old.items)
            (of_list F.field coeffs.now) values.new.items) }
        ensures kept { OnErr result (values.new.items ≡ values.old.items) }
    {
        let count = 2 * values.len();
        self.extend(values, coeffs, count)
    }

    /// Behind the values at the first elements those up to `count`, of the polynomial with these coefficients, of which
    /// there are at most twice as many as values known. After an error the values are as they were.
    pub fn extend(&self, values: &mut Vec<F>, coeffs: &[F], count: usize) -> Result<(), AllocError>
        requires power { IsPowerOfTwo (length values.old.items) }
        requires whole { IsPowerOfTwo count }
        requires more { length values.old.items ≤ count }
        requires room { count ≤ size_of self.now }
        requires few { length coeffs.now ≤ length values.old.items + length values.old.items }
        ensures values { OnOk result (AreFirstValues F.field self.now (length values.old.items)
            (of_list F.field coeffs.now) values.old.items
            → AreFirstValues F.field self.now count (of_list F.field coeffs.now) values.new.items) }
        ensures kept { OnErr result (values.new.items ≡ values.old.items) }
    {
        let len = values.len();
        values.reserve(count - len)?;
        match push_blocks(values, coeffs, &self.roots, 1..count / len, len) {
            Ok(()) => Ok(()),
            Err(refused) => {
                values.truncate(len);
                Err(refused)
            }
        }
    }

    /// Puts the coefficients of the polynomial that has these values at the first elements in their place.
    pub fn interpolate(&self, values: &mut [F])
        requires power { IsPowerOfTwo (length values.old) }
        requires room { length values.old ≤ size_of self.now }
        ensures len { length values.new ≡ length values.old }
        ensures coefficients { (a : ℕ → F) → IsBelow F.field (length values.old) a
            → AreFirstValues F.field self.now (length values.old) a values.old
            → of_list F.field values.new ≡ a }
        ensures elements { AreReversed F.field (size_of self.now) (element_of F.field self.now) }
    {
        let levels = values.len().ilog2();
        backward(values, &self.inverses, 0, levels);
        scale_each(values, self.half.pow(levels as u64));
    }

    /// From the values of two polynomials at the first elements, those at the first half of these elements of twice
    /// the upper half of their product: of its coefficients from half the number of elements on.
    pub fn twice_upper_half(
        &self,
        alloc: Global,
        left: &[F],
        right: &[F],
        half: usize,
    ) -> Result<Vec<F>, AllocError>
        requires power { IsPowerOfTwo half }
        requires left { length left.now ≡ half + half }
        requires right { length right.now ≡ half + half }
        requires room { half + half ≤ size_of self.now }
        ensures len { IfOk result (λ v. length v.items ≡ half) }
        ensures values { IfOk result (λ v. (a b c : ℕ → F)
            → AreFirstValues F.field self.now (half + half) a left.now
            → AreFirstValues F.field self.now (half + half) b right.now
            → IsBelow F.field (half + (half + half)) (product F.field a b) → IsBelow F.field half c
            → ((i : ℕ) → i < half → c i
            ≡ F.field.plus (product F.field a b (half + i)) (product F.field a b (half + i)))
            → AreFirstValues F.field self.now half c v.items) }
    {
        let levels = half.ilog2();
        let mut turned = place_products(alloc, &left[half..], &right[half..], half)?;
        let items = turned.as_mut_slice();
        backward(items, &self.inverses, 1, levels);
        scale_each(items, self.half.pow(levels as u64));
        forward(items, &self.roots, 0, levels);
        subtract_from_products(items, &left[..half], &right[..half]);
        Ok(turned)
    }
}

// Adds the values, at the elements of these blocks of `len`, of the polynomial with these coefficients.
fn push_blocks<F: Field>(
    values: &mut Vec<F>,
    coeffs: &[F],
    roots: &[F],
    blocks: Range<usize>,
    len: usize,
) -> Result<(), AllocError>
    requires power { IsPowerOfTwo len }
    requires few { length coeffs.now ≤ len + len }
    requires start { length values.old.items ≡ blocks.start * len }
    requires order { blocks.start ≤ blocks.end }
    requires within { blocks.end * len ≤ length roots.now + length roots.now }
    requires fits { length roots.now + length roots.now < 2 ^ 64 }
    ensures len { OnOk result (length values.new.items ≡ blocks.end * len) }
    ensures before { take (length values.old.items) values.new.items ≡ values.old.items }
    ensures values { OnOk result ((x : ℕ → F) → AreRoots F.field x roots.now
        → ((i : ℕ) → i < blocks.start * len → of_list F.field values.old.items i
        ≡ value_below F.field (len + len) (of_list F.field coeffs.now) (x i))
        → (i : ℕ) → i < blocks.end * len → of_list F.field values.new.items i
        ≡ value_below F.field (len + len) (of_list F.field coeffs.now) (x i)) }
{
    for block in blocks.start..blocks.end {
        push_block(values, coeffs, roots, block, len)?;
    }
    Ok(())
}

// Adds the values, at the elements of a block of `len`, of the polynomial with these coefficients, of which there are at
// most twice as many.
fn push_block<F: Field>(
    values: &mut Vec<F>,
    coeffs: &[F],
    roots: &[F],
    block: usize,
    len: usize,
) -> Result<(), AllocError>
    requires power { IsPowerOfTwo len }
    requires few { length coeffs.now ≤ len + len }
    requires room { length values.old.items + len < 2 ^ 64 }
    requires within { suc block * len ≤ length roots.now + length roots.now }
    requires fits { length roots.now + length roots.now < 2 ^ 64 }
    ensures len { OnOk result (length values.new.items ≡ length values.old.items + len) }
    ensures before { take (length values.old.items) values.new.items ≡ values.old.items }
    ensures values { OnOk result ((x : ℕ → F) → AreRoots F.field x roots.now → (i : ℕ) → i < len
        → of_list F.field values.new.items (length values.old.items + i)
        ≡ value_below F.field (len + len) (of_list F.field coeffs.now) (x (block * len + i))) }
{
    let start = values.len();
    let (low, high) = coeffs.split_at(len.min(coeffs.len()));
    values.extend_from_slice(low)?;
    values.resize(start + len, F::zero())?;
    let (_before, added) = values.as_mut_slice().split_at_mut(start);
    fold_in(added, high, roots, block);
    forward(added, roots, block, len.ilog2());
    Ok(())
}

// Adds to each low coefficient the high one of its place, times the element that names the block: to the power of their
// number all the block's elements are that. Block 1 is named by minus one, and needs no products.
fn fold_in<F: Field>(low: &mut [F], high: &[F], roots: &[F], block: usize)
    requires few { length high.now ≤ length low.old }
    requires within { block < length roots.now + length roots.now }
    ensures len { length low.new ≡ length low.old }
    ensures sums { (x : ℕ → F) → AreRoots F.field x roots.now → (i : ℕ) → i < length low.old
        → of_list F.field low.new i ≡ F.field.plus (of_list F.field low.old i)
        (F.field.times (x block) (of_list F.field high.now i)) }
{
    if block == 1 {
        subtract_each(low, high);
    } else {
        add_scaled(low, element(roots, block), high);
    }
}

// The element of this index: each second is minus the one before.
#[inline(always)]
pub(crate) fn element<F: Field>(roots: &[F], index: usize) -> F
    requires { index < length roots.now + length roots.now }
    ensures { (x : ℕ → F) → AreRoots F.field x roots.now → result ≡ x index }
{
    let root = roots[index / 2];
    if index % 2 == 0 { root } else { -root }
}

// Puts what is left of the products of two lists' items without each item in its place.
fn subtract_from_products<F: Field>(items: &mut [F], left: &[F], right: &[F])
    requires left { length left.now ≡ length items.old }
    requires right { length right.now ≡ length items.old }
    ensures len { length items.new ≡ length items.old }
    ensures differences { (i : ℕ) → i < length items.old → of_list F.field items.new i
        ≡ minus F.field (F.field.times (of_list F.field left.now i) (of_list F.field right.now i))
        (of_list F.field items.old i) }
{
    for i in 0..items.len() {
        items[i] = left[i] * right[i] - items[i];
    }
}
