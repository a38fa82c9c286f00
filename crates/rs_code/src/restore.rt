//! Words with places erased, restored by two transforms. `Work` is told of every product of a module's value by an
//! element of the field: values are a `Summand`, so that another product than `Work::scale` does not compile.
//!
//! With `E` the erasure locator polynomial, which is zero exactly at the erased places' elements, and `f` the message's
//! polynomial, the values of `E * f` are known at all places. At an erased place the formal derivative of `E * f` is
//! `E' * f` there, so that `f` is the quotient of both derivatives, as in Forney's formula; both are taken times `x`.

ghost use Rattle.std.specs.Prelude.{◌≡◌, ◌≢◌, ◌↔◌, ℕ, ◌+◌, ◌-◌, ◌*◌, ◌<◌, ◌≤◌, true, false, List, get_or};
ghost use Rattle.std.specs.Prelude.{length, map, is_none, unwrap_or, IsTrue, IfOk, Err, IsOkUnless};
ghost use Rattle.ark_math.specs.Module.{item};
ghost use Rattle.ark_math.specs.Transform.{transform};
ghost use Rattle.ark_math.specs.Univariate.{of_list};
ghost use Rattle.rs_code.specs.Codeword.{AgreesElsewhere, AgreesWith, IsCodeword, erasure_count, mark_count};
ghost use Rattle.rs_code.specs.Cost.{GrowsWithin};
ghost use Rattle.rs_code.specs.Locator.{by_factors, euler, filled, lost, weighed};
ghost use Rattle.rs_code.specs.Refusals.{RefusesRightly};

use crate::code::DomainCode;
use crate::decoder::DomainDecoder;
use crate::error::RsError;
use crate::marks::{count_erased, count_marked};
use ark_traits::{FftField, Field, PolyError, Summand, Work};
use ark_univariate::EvaluationDomain;
use std::alloc::{AllocError, Global};
use std::mem;

impl<F: FftField, D: EvaluationDomain<F>> DomainCode<F, D> {
    /// `restore` with its cost told, whatever it answers: at most three times the butterflies and the steps of one
    /// inverse transform, and at most five products for each place beside theirs.
    pub fn restore_counted<T: Summand<F>>(
        &self,
        alloc: Global,
        word: &[Option<T>],
        work: &mut Work,
    ) -> Result<Vec<T>, RsError>
        ensures codeword { IfOk result (λ c. IsCodeword F.field T.group self.now.domain self.now.k
            (map T.meaning c.items)) }
        ensures agrees { IfOk result (λ c. AgreesWith T.group T.meaning word.now (map T.meaning c.items)) }
        ensures only { IfOk result (λ c. (other : List T.Meaning)
            → IsCodeword F.field T.group self.now.domain self.now.k other
            → AgreesWith T.group T.meaning word.now other → other ≡ map T.meaning c.items) }
        ensures len { IfOk result (λ c. length word.now ≡ self.now.domain.size) }
        ensures few { IfOk result (λ c. erasure_count word.now ≤ self.now.domain.size - self.now.k) }
        ensures refused { RefusesRightly F.field T.group self.now (length word.now) (erasure_count word.now)
            (AgreesWith T.group T.meaning word.now) result }
        ensures cost { GrowsWithin F.adicity self.now.domain 3 (5 * self.now.domain.size) work.old work.new }
    {
        if word.len() != self.domain.size() {
            return Err(RsError::WrongLength);
        }
        if count_erased(word) > self.domain.size() - self.k {
            return Err(RsError::TooManyErased);
        }
        let decoder = self.decoder(alloc, &erased_places(alloc, word)?)?;
        let values = kept_values(alloc, word, T::zero())?;
        decoder.restore_counted(alloc, &values, work)
    }
}

impl<F: FftField, D: EvaluationDomain<F>> DomainDecoder<F, D> {
    /// `restore` with its cost told, whatever it answers: at most three times the butterflies and the steps of one
    /// inverse transform, and at most five products for each place beside theirs.
    pub fn restore_counted<T: Summand<F>>(
        &self,
        alloc: Global,
        word: &[T],
        work: &mut Work,
    ) -> Result<Vec<T>, RsError>
        ensures codeword { IfOk result (λ c. IsCodeword F.field T.group self.now.code.domain self.now.code.k
            (map T.meaning c.items)) }
        ensures agrees { IfOk result (λ c. AgreesElsewhere T.group self.now.erased (map T.meaning word.now)
            (map T.meaning c.items)) }
        ensures only { IfOk result (λ c. (other : List T.Meaning)
            → IsCodeword F.field T.group self.now.code.domain self.now.code.k other
            → AgreesElsewhere T.group self.now.erased (map T.meaning word.now) other
            → other ≡ map T.meaning c.items) }
        ensures refused { RefusesRightly F.field T.group self.now.code (length word.now)
            (mark_count self.now.erased) (AgreesElsewhere T.group self.now.erased (map T.meaning word.now)) result }
        ensures never_too_many { result ≢ Err RsError.TooManyErased }
        ensures cost { GrowsWithin F.adicity self.now.code.domain 3 (5 * self.now.code.domain.size)
            work.old work.new }
    {
        let mut values = self.interpolated(alloc, word, work)?;
        scale_by_exponents(values.as_mut_slice(), work);
        self.domain.fft_counted(alloc, &mut values, work)?;
        fill(
            values.as_mut_slice(),
            word,
            &self.erased,
            &self.factors,
            work,
        );
        Ok(values)
    }

    // The coefficients of a message's polynomial, times the one that is zero at the erased places, for any message whose
    // codeword agrees with the word. It refuses as `restore` does.
    pub(crate) fn interpolated<T: Summand<F>>(
        &self,
        alloc: Global,
        word: &[T],
        work: &mut Work,
    ) -> Result<Vec<T>, RsError>
        ensures message { IfOk result (λ u. (m : List T.Meaning) × (length m ≤ self.now.code.k)
            × AgreesElsewhere T.group self.now.erased (map T.meaning word.now)
            (transform F.field T.group self.now.code.domain m)) }
        ensures product { IfOk result (λ u. (m : List T.Meaning) → length m ≤ self.now.code.k
            → AgreesElsewhere T.group self.now.erased (map T.meaning word.now)
            (transform F.field T.group self.now.code.domain m)
            → (i : ℕ) → item T.group (map T.meaning u.items) i ≡ by_factors F.field T.group
            (lost F.field self.now.code.domain self.now.erased) (item T.group m) i) }
        ensures len { IfOk result (λ u. length u.items ≡ self.now.code.domain.size) }
        ensures refused { RefusesRightly F.field T.group self.now.code (length word.now)
            (mark_count self.now.erased) (AgreesElsewhere T.group self.now.erased (map T.meaning word.now)) result }
        ensures never_too_many { result ≢ Err RsError.TooManyErased }
        ensures cost { GrowsWithin F.adicity self.now.code.domain 1 (2 * self.now.code.domain.size)
            work.old work.new }
    {
        if word.len() != self.domain.size() {
            return Err(RsError::WrongLength);
        }
        let domain = self.domain;
        let mut values = Vec::from_slice(alloc, word)?;
        weigh(values.as_mut_slice(), &self.erased, &self.factors, work);
        domain.ifft_counted(alloc, &mut values, work)?;
        if !are_zeros(&values[self.product_len()..]) {
            return Err(RsError::NoCodeword);
        }
        Ok(values)
    }

    // The most coefficients of a message's polynomial times the one that is zero at the erased places.
    fn product_len(&self) -> usize
        ensures len { result ≡ self.now.code.k + mark_count self.now.erased }
        ensures fits { result ≤ self.now.code.domain.size }
    {
        self.k + count_marked(&self.erased)
    }
}

// Which places are erased.
fn erased_places<T: Copy>(alloc: Global, word: &[Option<T>]) -> Result<Vec<bool>, AllocError>
    ensures { IfOk result (λ v. v.items ≡ map is_none word.now) }
{
    word.iter().map(|place| place.is_none()).collect(alloc)
}

// The values at the other places, and another value at the erased ones.
fn kept_values<T: Copy>(alloc: Global, word: &[Option<T>], other: T) -> Result<Vec<T>, AllocError>
    ensures { IfOk result (λ v. v.items ≡ map (λ place. unwrap_or place other) word.now) }
{
    word.iter()
        .map(|place| *value_at(place, &other))
        .collect(alloc)
}

// The place's value, or else the other one. What is chosen is where to read, so that no branch waits for a mark.
#[inline(always)]
fn value_at<'a, T>(place: &'a Option<T>, other: &'a T) -> &'a T
    ensures { result.now ≡ unwrap_or place.now other.now }
{
    match place {
        Some(value) => value,
        None => other,
    }
}

// Whether an item has more than two words: then a product by it takes longer than a branch that waits for a mark.
#[inline(always)]
fn is_wide<T>(items: &[T]) -> bool {
    mem::size_of_val(items) / 16 > items.len()
}

// Scales a value; one that the factor leaves as it is need not be, and isn't where it is wide.
#[inline(always)]
fn scale_where<F: Field, T: Summand<F>>(
    changes: bool,
    is_wide: bool,
    value: &mut T,
    factor: F,
    work: &mut Work,
)
    requires { changes ≡ false → T.group.scale factor (T.meaning value.old) ≡ T.meaning value.old }
    ensures product { T.meaning value.new ≡ T.group.scale factor (T.meaning value.old) }
    ensures products { work.new.products ≤ work.old.products + 1 }
    ensures butterflies { work.new.butterflies ≡ work.old.butterflies }
    ensures steps { work.new.steps ≡ work.old.steps }
{
    if changes || !is_wide {
        work.scale(value, factor);
    }
}

// At a kept place the value times its factor, and zero at an erased one. The value is chosen before it is scaled, so that
// no branch waits for a mark where values are narrow.
fn weigh<F: Field, T: Summand<F>>(values: &mut [T], marks: &[bool], factors: &[F], work: &mut Work)
    requires len { length values.old ≡ length marks.now }
    requires factors { length factors.now ≡ length marks.now }
    ensures values { (i : ℕ) → i < length marks.now → item T.group (map T.meaning values.new) i
        ≡ weighed T.group (get_or marks.now i true) (of_list F.field factors.now i)
        (item T.group (map T.meaning values.old) i) }
    ensures products { work.new.products ≤ work.old.products + length marks.now }
    ensures butterflies { work.new.butterflies ≡ work.old.butterflies }
    ensures steps { work.new.steps ≡ work.old.steps }
{
    let is_wide = is_wide(values);
    for i in 0..marks.len() {
        let (erased, own) = (marks[i], values[i]);
        let mut value = if erased { T::zero() } else { own };
        scale_where(!erased, is_wide, &mut value, factors[i], work);
        values[i] = value;
    }
}

// The coefficients of x times the formal derivative: each is scaled by its exponent, and none is moved.
pub(crate) fn scale_by_exponents<F: Field, T: Summand<F>>(coeffs: &mut [T], work: &mut Work)
    ensures coefficients { (i : ℕ) → i < length coeffs.old → item T.group (map T.meaning coeffs.new) i
        ≡ euler F.field T.group (item T.group (map T.meaning coeffs.old)) i }
    ensures products { work.new.products ≤ work.old.products + length coeffs.old }
    ensures butterflies { work.new.butterflies ≡ work.old.butterflies }
    ensures steps { work.new.steps ≡ work.old.steps }
{
    let mut exponent = F::zero();
    for i in 0..coeffs.len() {
        work.scale(&mut coeffs[i], exponent);
        exponent = exponent + F::one();
    }
}

// The kept values, and at an erased place the value that is there times its factor. Value and factor are chosen before,
// so that no branch waits for a mark where values are narrow.
fn fill<F: Field, T: Summand<F>>(
    values: &mut [T],
    word: &[T],
    marks: &[bool],
    factors: &[F],
    work: &mut Work,
)
    requires len { length values.old ≡ length marks.now }
    requires word { length word.now ≡ length marks.now }
    requires factors { length factors.now ≡ length marks.now }
    ensures values { (i : ℕ) → i < length marks.now → item T.group (map T.meaning values.new) i
        ≡ filled T.group (get_or marks.now i true) (of_list F.field factors.now i)
        (item T.group (map T.meaning word.now) i) (item T.group (map T.meaning values.old) i) }
    ensures products { work.new.products ≤ work.old.products + length marks.now }
    ensures butterflies { work.new.butterflies ≡ work.old.butterflies }
    ensures steps { work.new.steps ≡ work.old.steps }
{
    let is_wide = is_wide(values);
    for i in 0..marks.len() {
        let (known, found, own) = (word[i], values[i], factors[i]);
        let erased = marks[i];
        let mut value = if erased { found } else { known };
        let factor = if erased { own } else { F::one() };
        scale_where(erased, is_wide, &mut value, factor, work);
        values[i] = value;
    }
}

// Whether all items are zero.
fn are_zeros<F: Field, T: Summand<F>>(items: &[T]) -> bool
    ensures { IsTrue result ↔ ((i : ℕ) → item T.group (map T.meaning items.now) i ≡ T.group.zero) }
{
    for item in items {
        if !item.is_zero() {
            return false;
        }
    }
    true
}
