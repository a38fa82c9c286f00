//! Division with remainder, in place.

ghost use Rattle.std.specs.Prelude.{◌≡◌, ◌≢◌, ◌↔◌, ℕ, ◌+◌, ◌-◌, ◌<◌, ◌≤◌, length, take, drop, IfOk};
ghost use Rattle.std.specs.Prelude.{IfSome, IsNone, IsTrue, None};
ghost use Rattle.std.specs.List.{All};
ghost use Rattle.ark_math.specs.Outcome.{IsOkUnlessEither};
ghost use Rattle.ark_math.specs.Univariate.{IsDegree, IsDivision, IsQuotient, IsSparse, IsTrimmed, of_list};
ghost use Rattle.ark_math.specs.Univariate.{added, difference, monomial, nothing, of_pairs, product};
ghost use Rattle.ark_quotients.specs.Divisors.{Divides, IsKept, StandBelow, denoted};

use crate::conversions::coefficients_of;
use ark_coeffs::dense::{extended, trimmed_len};
use ark_traits::{Field, PolyError};
use std::alloc::{AllocError, Global};

/// Coefficients of a polynomial in either form.
#[derive_where(Clone, Copy; F)]
pub enum Coefficients<'a, F: Field> {
    /// Item i is the coefficient at i.
    Listed(&'a [F]),
    /// Pairs of exponent and coefficient.
    Terms(&'a [(usize, F)]),
}

impl<'a, F: Field> Coefficients<'a, F> {
    // Whether the polynomial with these coefficients is zero.
    fn is_zero(&self) -> bool
        requires { IsKept F.field self.now }
        ensures { IsTrue result ↔ (denoted F.field self.now ≡ nothing F.field) }
    {
        match *self {
            Coefficients::Listed(coeffs) => coeffs.is_empty(),
            Coefficients::Terms(terms) => terms.is_empty(),
        }
    }

    // A list of the coefficients. `Overflow` exactly where the degree is `usize::MAX`, judged first.
    fn list(&self, alloc: Global) -> Result<Vec<F>, PolyError>
        requires { IsKept F.field self.now }
        ensures same { IfOk result (λ c. of_list F.field c.items ≡ denoted F.field self.now) }
        ensures overflow { (result ≡ Err PolyError.Overflow)
            ↔ IsDegree F.field (denoted F.field self.now) usize.MAX }
        ensures errors { IsOkUnlessEither result PolyError.Memory PolyError.Overflow }
    {
        match *self {
            Coefficients::Listed(coeffs) => {
                // That is the whole length, since the last coefficient isn't zero.
                let len = trimmed_len(coeffs);
                Ok(extended(alloc, coeffs, len)?)
            }
            Coefficients::Terms(terms) => coefficients_of(alloc, terms),
        }
    }

    // What a division by the polynomial with these coefficients takes, and `None` exactly for zero.
    fn divisor(&self) -> Option<Divisor<'a, F>>
        requires { IsKept F.field self.now }
        ensures some { IfSome result (λ v. Divides F.field v (denoted F.field self.now)) }
        ensures none { IsNone result ↔ (denoted F.field self.now ≡ nothing F.field) }
    {
        match *self {
            Coefficients::Listed(coeffs) => Divisor::of_list(coeffs),
            Coefficients::Terms(terms) => Divisor::of_terms(terms),
        }
    }
}

// What a division takes of its divisor, which isn't zero.
#[derive_where(Clone, Copy; F)]
struct Divisor<'a, F: Field> {
    /// The degree.
    degree: usize,
    /// The inverse of the coefficient at the degree.
    inverse: F,
    /// The other coefficients.
    lower: Coefficients<'a, F>,
}

// Subtracts a multiple of the other coefficients, moved up by this number of places.
fn subtract_list<F: Field>(coeffs: &mut [F], places: usize, factor: F, other: &[F])
    requires within { places + length other.now ≤ length coeffs.old }
    ensures { of_list F.field coeffs.new ≡ difference F.field (of_list F.field coeffs.old)
        (product F.field (monomial F.field places factor) (of_list F.field other.now)) }
{
    // Added and not subtracted, which is quicker.
    let negated = -factor;
    for i in 0..other.len() {
        coeffs[places + i] += negated * other[i];
    }
}

// Subtracts a multiple of these terms, moved up by this number of places.
fn subtract_terms<F: Field>(coeffs: &mut [F], places: usize, factor: F, terms: &[(usize, F)])
    requires within { All (λ t. places + t.0 < length coeffs.old) terms.now }
    ensures { of_list F.field coeffs.new ≡ difference F.field (of_list F.field coeffs.old)
        (product F.field (monomial F.field places factor) (of_pairs F.field terms.now)) }
{
    let negated = -factor;
    for i in 0..terms.len() {
        let term = terms[i];
        coeffs[places + term.0] += negated * term.1;
    }
}

impl<'a, F: Field> Divisor<'a, F> {
    // The polynomial with these coefficients, and `None` exactly for zero.
    fn of_list(coeffs: &'a [F]) -> Option<Self>
        requires { IsTrimmed F.field coeffs.now }
        ensures some { IfSome result (λ v. Divides F.field v (of_list F.field coeffs.now)) }
        ensures none { IsNone result ↔ (of_list F.field coeffs.now ≡ nothing F.field) }
    {
        let (leading, lower) = coeffs.split_last()?;
        let inverse = leading.inverse()?;
        Some(Divisor {
            degree: lower.len(),
            inverse,
            lower: Coefficients::Listed(lower),
        })
    }

    // The sum of these terms, and `None` exactly for zero.
    fn of_terms(terms: &'a [(usize, F)]) -> Option<Self>
        requires { IsSparse F.field terms.now }
        ensures some { IfSome result (λ v. Divides F.field v (of_pairs F.field terms.now)) }
        ensures none { IsNone result ↔ (of_pairs F.field terms.now ≡ nothing F.field) }
    {
        let (leading, lower) = terms.split_last()?;
        let inverse = leading.1.inverse()?;
        Some(Divisor {
            degree: leading.0,
            inverse,
            lower: Coefficients::Terms(lower),
        })
    }

    // Subtracts a multiple of the divisor's coefficients below the degree, moved up by this number of places.
    fn subtract_lower(&self, coeffs: &mut [F], places: usize, factor: F)
        requires below { StandBelow self.now.degree self.now.lower }
        requires within { places + self.now.degree ≤ length coeffs.old }
        ensures { of_list F.field coeffs.new ≡ difference F.field (of_list F.field coeffs.old)
            (product F.field (monomial F.field places factor) (denoted F.field self.now.lower)) }
    {
        match self.lower {
            Coefficients::Listed(lower) => subtract_list(coeffs, places, factor, lower),
            Coefficients::Terms(lower) => subtract_terms(coeffs, places, factor, lower),
        }
    }

    // Divides these coefficients in place: as many as the degree are then the remainder's, and those after
    // them the quotient's. For each coefficient of the quotient there is one pass over the divisor's.
    fn divide(&self, coeffs: &mut [F])
        requires { StandBelow self.now.degree self.now.lower }
        ensures { (d : ℕ → F) → Divides F.field self.now d → of_list F.field coeffs.old
            ≡ added F.field (product F.field (of_list F.field (drop self.now.degree coeffs.new)) d)
            (of_list F.field (take self.now.degree coeffs.new)) }
    {
        for i in (self.degree..coeffs.len()).rev() {
            let coefficient = coeffs[i] * self.inverse;
            coeffs[i] = coefficient;
            self.subtract_lower(coeffs, i - self.degree, coefficient);
        }
    }

    // The quotient and the remainder of the polynomial with these coefficients. Takes memory for the quotient
    // alone.
    fn quotient_and_remainder(&self, dividend: Vec<F>) -> Result<(Vec<F>, Vec<F>), AllocError>
        requires { StandBelow self.now.degree self.now.lower }
        ensures { IfOk result (λ p. (d : ℕ → F) → Divides F.field self.now d
            → IsQuotient F.field (of_list F.field dividend.items) d (of_list F.field p.0.items)
            (of_list F.field p.1.items)) }
    {
        let mut remainder = dividend;
        self.divide(remainder.as_mut_slice());
        let kept = self.degree.min(remainder.len());
        let quotient = remainder.split_off(kept)?;
        Ok((quotient, remainder))
    }
}

/// The quotient and the remainder of the dividend by the divisor, by long division. A zero dividend gives two
/// zeros, whatever the divisor; otherwise `None` exactly for a zero divisor, and then `Overflow` exactly
/// where the dividend's degree is `usize::MAX`.
///
/// For each coefficient of the quotient there is one pass over the divisor's, on one list of the dividend's.
pub fn divided<F: Field>(
    alloc: Global,
    dividend: Coefficients<'_, F>,
    divisor: Coefficients<'_, F>,
) -> Result<Option<(Vec<F>, Vec<F>)>, PolyError>
    requires dividend { IsKept F.field dividend }
    requires divisor { IsKept F.field divisor }
    ensures division { IfOk result (λ o. IfSome o (λ p. IsDivision F.field
        (denoted F.field dividend.entry) (denoted F.field divisor.entry)
        (of_list F.field p.0.items) (of_list F.field p.1.items))) }
    ensures none { (result ≡ Ok None) ↔ (denoted F.field dividend.entry ≢ nothing F.field)
        × (denoted F.field divisor.entry ≡ nothing F.field) }
    ensures overflow { (result ≡ Err PolyError.Overflow) ↔ (denoted F.field divisor.entry ≢ nothing F.field)
        × IsDegree F.field (denoted F.field dividend.entry) usize.MAX }
    ensures errors { IsOkUnlessEither result PolyError.Memory PolyError.Overflow }
{
    let Some(divisor) = divisor.divisor() else {
        return Ok(if dividend.is_zero() {
            Some((Vec::new(alloc), Vec::new(alloc)))
        } else {
            None
        });
    };
    let coeffs = dividend.list(alloc)?;
    Ok(Some(divisor.quotient_and_remainder(coeffs)?))
}

/// The quotient and the remainder of one list by another, by long division, from the inverse of its last
/// coefficient.
///
/// For each coefficient of the quotient there is one pass over the divisor's, on a copy of the dividend's.
pub fn divided_list<F: Field>(
    alloc: Global,
    dividend: &[F],
    divisor: &[F],
    leading_inverted: F,
) -> Result<(Vec<F>, Vec<F>), AllocError>
    requires nonempty { 0 < length divisor.now }
    requires leading { F.field.times (of_list F.field divisor.now (length divisor.now - 1)) leading_inverted
        ≡ F.field.one }
    ensures { IfOk result (λ p. IsQuotient F.field (of_list F.field dividend.now)
        (of_list F.field divisor.now) (of_list F.field p.0.items) (of_list F.field p.1.items)) }
{
    let degree = divisor.len() - 1;
    let divisor = Divisor {
        degree,
        inverse: leading_inverted,
        lower: Coefficients::Listed(&divisor[..degree]),
    };
    divisor.quotient_and_remainder(Vec::from_slice(alloc, dividend)?)
}
