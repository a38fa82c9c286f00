//! Factors for all places from products over fours of them, of which each is a quarter turn of the last: `x`, `w * x`,
//! `-x` and `-w * x`, where `w` is an element whose square is -1.
//!
//! With `E` the locator polynomial of the erased places, the product of `x - r` over them, and `K` that of the kept ones,
//! `E * K` is `x^n - 1`; so at an erased place the inverse of `x * E'(x)` is `K(x) / n`, and neither a formal derivative
//! nor an inversion is needed. Both products have a part for each pattern of erased places among four, which one polynomial
//! gives by its values at turns of `x`: so no more than `n / 4` roots are multiplied, however the places are erased.
//!
//! This module is a faster way and nothing else: with it, restoring half of 4096 places takes the time of some 8
//! transforms in place of 13. Who wants the plain way alone deletes it, with `proofs/turns` and `specs/Turns`,
//! and lets `factors` of `locator.rt` call `factors_by_derivative` always: the rest stays proved.

mod products;
mod sorted;

ghost use Rattle.std.specs.Prelude.{◌≡◌, ℕ, ◌+◌, ◌*◌, ◌^◌, ◌<◌, ◌≤◌, true, false, length, get_or, IfOk};
ghost use Rattle.ark_bit_reversed.specs.Blocks.{IsPowerOfTwo, element_of, size_of};
ghost use Rattle.ark_math_transforms.specs.BitReversal.{reversed};
ghost use Rattle.ark_math.specs.Univariate.{of_list};
ghost use Rattle.rs_code.specs.Locator.{AreFactors, locator_at};
ghost use Rattle.rs_code.specs.Turns.{AreAtTurns, AreForFours, ArePlaceValues, AreWithin, HoldValues, IsFactorFrom, IsMadeOf};
ghost use Rattle.rs_code.specs.Turns.{IsPlaceAhead, IsTableOf, product_of_eight};

use crate::turns::products::values_over;
use crate::turns::sorted::{Sorted, sorted_by_turns};
use ark_bit_reversed::BlockRoots;
use ark_coeffs::dense::scale_each;
use ark_traits::{FftField, Field};
use ark_univariate::EvaluationDomain;
use std::alloc::{AllocError, Global};
use std::marker::Model;

// Values of the products over sorted lists at elements of a table.
#[derive(Drop)]
struct Values<F: Field> {
    one: Vec<F>,
    two: Vec<F>,
    three: Vec<F>,
    // Those over squares, and over fourth powers.
    opposite: Vec<F>,
    all: Vec<F>,
    none: Vec<F>,
}

impl<F: Field> Model for Values<F> {
    ghost use Rattle.rs_code.specs.Turns.{Values};

    ghost Value = { Values F };

    ghost view = { λ v. record {
      one = v.one.items;
      two = v.two.items;
      three = v.three.items;
      opposite = v.opposite.items;
      all = v.all.items;
      none = v.none.items;
    } };
}

/// The factors of the places of a subgroup of a power of two elements, by a table of these: at a kept one the value of the
/// polynomial that is zero at the erased ones, and at an erased one `x` the inverse of `x` times its derivative's.
pub fn factors_by_turns<F: FftField, D: EvaluationDomain<F>>(
    alloc: Global,
    domain: D,
    table: &BlockRoots<F>,
    erased: &[bool],
) -> Result<Vec<F>, AllocError>
    requires len { length erased.now ≡ (D.domain domain).size }
    requires many { 256 ≤ (D.domain domain).size }
    requires subgroup { (D.domain domain).offset ≡ F.field.one }
    requires table { IsTableOf F.field (D.domain domain) table.now }
    ensures factors { IfOk result (λ f. AreFactors F.field (D.domain domain) erased.now f.items) }
{
    let n = erased.len();
    let fours = reversed_places(alloc, n / 4)?;
    let sorted = sorted_by_turns(alloc, table, &fours, erased)?;
    let values = values_of(alloc, table, &sorted, n / 4, domain.size_inv())?;
    let mut factors = zeros(alloc, n)?;
    fill(factors.as_mut_slice(), erased, &fours, &values);
    Ok(factors)
}

// This many zeros.
fn zeros<F: Field>(alloc: Global, len: usize) -> Result<Vec<F>, AllocError>
    ensures { IfOk result (λ v. length v.items ≡ len) }
{
    let mut items = Vec::new(alloc);
    items.resize(len, F::zero())?;
    Ok(items)
}

// The values for so many fours of places; the inverse of the number of places is told.
fn values_of<F: FftField>(
    alloc: Global,
    table: &BlockRoots<F>,
    sorted: &Sorted<F>,
    quarter: usize,
    inverse: F,
) -> Result<Values<F>, AllocError>
    requires power { IsPowerOfTwo quarter }
    requires many { 64 ≤ quarter }
    requires size { 4 * quarter ≡ size_of table.now }
    requires few { AreWithin quarter sorted.now }
    ensures len { IfOk result (λ v. AreForFours quarter v) }
    ensures values { IfOk result (λ v. HoldValues F.field table.now quarter sorted.now inverse v) }
{
    let n = table.size();
    let none_scale = sorted.kept_scale * inverse;
    Ok(Values {
        one: values_over(alloc, table, &sorted.one, n)?,
        two: values_over(alloc, table, &sorted.two, n)?,
        three: values_over(alloc, table, &sorted.three, n)?,
        opposite: values_over(alloc, table, &sorted.opposite, n / 2)?,
        all: scaled_values(alloc, table, &sorted.all, sorted.erased_scale, quarter)?,
        none: scaled_values(alloc, table, &sorted.none, none_scale, quarter)?,
    })
}

// The values of the product over the roots, each times a factor.
fn scaled_values<F: FftField>(
    alloc: Global,
    table: &BlockRoots<F>,
    roots: &[F],
    scale: F,
    count: usize,
) -> Result<Vec<F>, AllocError>
    requires power { IsPowerOfTwo count }
    requires within { count ≤ size_of table.now }
    requires few { length roots.now ≤ count }
    requires many { 64 ≤ count }
    ensures len { IfOk result (λ v. length v.items ≡ count) }
    ensures values { IfOk result (λ v. (i : ℕ) → i < count → of_list F.field v.items i ≡ F.field.times
        (locator_at F.field roots.now (element_of F.field table.now i)) scale) }
{
    let mut values = values_over(alloc, table, roots, count)?;
    scale_each(values.as_mut_slice(), scale);
    Ok(values)
}

// The numbers below a power of two with their bits backwards.
fn reversed_places(alloc: Global, count: usize) -> Result<Vec<usize>, AllocError>
    requires { IsPowerOfTwo count }
    ensures len { IfOk result (λ v. length v.items ≡ count) }
    ensures places { IfOk result (λ v. (levels i : ℕ) → count ≡ 2 ^ levels → i < count
        → get_or v.items i 0 ≡ reversed levels i) }
{
    let mut places = Vec::with_capacity(alloc, count)?;
    places.push(0)?;
    for i in 1..count {
        let half = places[i / 2] / 2;
        places.push(if i % 2 == 0 { half } else { count / 2 + half })?;
    }
    Ok(places)
}

// Writes the factors of all places. Of each four places that are turns of one another the values are neighbours in the
// lists, at an index that has the bits of the first place's backwards.
fn fill<F: Field>(factors: &mut [F], erased: &[bool], fours: &[usize], values: &Values<F>)
    requires factors { length factors.old ≡ 4 * length fours.now }
    requires erased { length erased.now ≡ 4 * length fours.now }
    requires fours { (j : ℕ) → j < length fours.now → get_or fours.now j 0 < length fours.now }
    requires values { AreForFours (length fours.now) values.now }
    ensures len { length factors.new ≡ length factors.old }
    ensures made { (t j : ℕ) → t < 4 → j < length fours.now → IsMadeOf F.field values.now (get_or fours.now j 0) t
        (get_or erased.now (t * length fours.now + j) true)
        (of_list F.field factors.new (t * length fours.now + j)) }
{
    let quarter = fours.len();
    let (first, rest) = factors.split_at_mut(quarter);
    let (second, rest) = rest.split_at_mut(quarter);
    let (third, fourth) = rest.split_at_mut(quarter);
    for j in 0..quarter {
        let place = PlaceValues::at(values, fours[j]);
        first[j] = place.factor(erased[j]);
        let place = place.turned();
        second[j] = place.factor(erased[j + quarter]);
        let place = place.turned();
        third[j] = place.factor(erased[j + quarter + quarter]);
        let place = place.turned();
        fourth[j] = place.factor(erased[j + quarter + quarter + quarter]);
    }
}

// A polynomial's values at a place and at its quarter turns: one ahead, half a turn over, and one back.
#[derive(Clone, Copy)]
struct AtTurns<F: Field> {
    here: F,
    ahead: F,
    over: F,
    back: F,
}

impl<F: Field> AtTurns<F> {
    // Those of the first of the four places of this index.
    #[inline(always)]
    fn at(values: &[F], k: usize) -> Self
        requires { 4 * k + 3 < length values.now }
        ensures { AreAtTurns F.field values.now k 0 result }
    {
        AtTurns {
            here: values[4 * k],
            ahead: values[4 * k + 2],
            over: values[4 * k + 1],
            back: values[4 * k + 3],
        }
    }

    // Those of the place a quarter turn ahead.
    #[inline(always)]
    fn turned(self) -> Self
        ensures here { result.here ≡ self.ahead }
        ensures ahead { result.ahead ≡ self.over }
        ensures over { result.over ≡ self.back }
        ensures back { result.back ≡ self.here }
    {
        AtTurns {
            here: self.ahead,
            ahead: self.over,
            over: self.back,
            back: self.here,
        }
    }
}

// What the factor of a place is a product of: the values over each sorted list, at the place and at its turns.
#[derive(Clone, Copy)]
struct PlaceValues<F: Field> {
    one: AtTurns<F>,
    two: AtTurns<F>,
    three: AtTurns<F>,
    // Those over squares, at the place's and at that of the place a quarter turn ahead.
    opposite: F,
    opposite_ahead: F,
    // Those over fourth powers, which turns leave as they are.
    all: F,
    none: F,
}

impl<F: Field> PlaceValues<F> {
    // Those of the first of the four places of this index.
    #[inline(always)]
    fn at(values: &Values<F>, k: usize) -> Self
        requires len { (q : ℕ) × AreForFours q values.now × (k < q) }
        ensures { ArePlaceValues F.field values.now k 0 result }
    {
        let opposite = values.opposite.as_slice();
        PlaceValues {
            one: AtTurns::at(&values.one, k),
            two: AtTurns::at(&values.two, k),
            three: AtTurns::at(&values.three, k),
            opposite: opposite[2 * k],
            opposite_ahead: opposite[2 * k + 1],
            all: values.all[k],
            none: values.none[k],
        }
    }

    // Those of the place a quarter turn ahead.
    #[inline(always)]
    fn turned(self) -> Self
        ensures { IsPlaceAhead F.field self result }
    {
        PlaceValues {
            one: self.one.turned(),
            two: self.two.turned(),
            three: self.three.turned(),
            opposite: self.opposite_ahead,
            opposite_ahead: self.opposite,
            all: self.all,
            none: self.none,
        }
    }

    // The factor of the place, which may be erased. Each value is chosen of two that are there already, and the products
    // come after, so that no branch waits for a mark.
    #[inline(always)]
    fn factor(self, erased: bool) -> F
        ensures { IsFactorFrom F.field self erased result }
    {
        let (one, two, three) = (self.one, self.two, self.three);
        product((
            chosen(erased, self.none, self.all),
            chosen(erased, self.opposite_ahead, self.opposite),
            chosen(erased, one.back, one.here),
            chosen(erased, one.over, two.here),
            chosen(erased, one.ahead, two.back),
            chosen(erased, two.over, three.here),
            chosen(erased, two.ahead, three.back),
            chosen(erased, three.ahead, three.over),
        ))
    }
}

// The first where there is a mark, else the second: a select, as both are there.
#[inline(always)]
fn chosen<F: Field>(mark: bool, first: F, second: F) -> F
    ensures marked { mark ≡ true → result ≡ first }
    ensures unmarked { mark ≡ false → result ≡ second }
{
    if mark { first } else { second }
}

// The product of eight values.
#[inline(always)]
fn product<F: Field>(values: (F, F, F, F, F, F, F, F)) -> F
    ensures { result ≡ product_of_eight F.field values.0 values.1 values.2 values.3 values.4 values.5 values.6
        values.7 }
{
    ((values.0 * values.1) * (values.2 * values.3))
        * ((values.4 * values.5) * (values.6 * values.7))
}
