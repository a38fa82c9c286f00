//! Division of long dense polynomials by products through transforms.

ghost use Rattle.std.specs.Prelude.{◌≡◌, ◌≢◌, ◌↔◌, ◌+◌, ◌-◌, ◌<◌, ◌≤◌, length, IfOk, IfSome, IsNone};
ghost use Rattle.std.specs.Prelude.{IsOkUnless, None};
ghost use Rattle.ark_quotients.specs.PowerSeries.{AgreeBelow, past, backwards, unity};
ghost use Rattle.ark_math.specs.Outcome.{IsOkUnlessEither};
ghost use Rattle.ark_math.specs.Univariate.{IsBelow, IsDivision, IsQuotient, difference, nothing, of_list};
ghost use Rattle.ark_math.specs.Univariate.{product};

use crate::polynomial::univariate::DensePolynomial;
use crate::polynomial::{DenseUVPolynomial, Polynomial};
use ark_quotients::division::divided_list;
use ark_quotients::series::{corrected, part, reversed};
use ark_traits::{FftField, PolyError};
use std::alloc::Global;

// Divisors with fewer coefficients than this are divided by in passes, as measured.
const SHORT_DIVISOR: usize = 512;

// Quotients with at most this many coefficients are found by passes too. The bound is lower, since the
// inverse series is only as long as the quotient.
const SHORT_QUOTIENT: usize = 128;

impl<F: FftField> DensePolynomial<F> {
    /// Quotient and remainder by products through transforms, for long operands: what `divide_with_q_and_r`
    /// answers. A zero dividend gives two zeros, whatever the divisor; otherwise `None` exactly for a zero
    /// divisor, judged before memory is asked for.
    ///
    /// It takes two products for each time that the inverse series gets twice as long, one for the quotient
    /// and one for the remainder, and memory for what these take. Where the divisor or the quotient is short,
    /// and where the field has no domain for one of the products, it divides as `divide_with_q_and_r` does:
    /// for each coefficient of the quotient one pass over the divisor's, and memory for the quotient and a
    /// copy of the dividend. That a domain is missing may be seen only after the first products; their time
    /// is then spent in vain.
    pub fn divide_by_transforms(
        &self,
        alloc: Global,
        divisor: &Self,
    ) -> Result<Option<(Self, Self)>, PolyError>
        ensures division { IfOk result (λ o. IfSome o (λ p. IsDivision F.field (of_list F.field self.now)
            (of_list F.field divisor.now) (of_list F.field p.0) (of_list F.field p.1))) }
        ensures none { (result ≡ Ok None) ↔ (of_list F.field self.now ≢ nothing F.field)
            × (of_list F.field divisor.now ≡ nothing F.field) }
        ensures memory { IsOkUnless result PolyError.Memory }
    {
        if let Some(inverted) = divisor.leading_inverse() {
            return Ok(Some(self.divided(alloc, divisor, inverted)?));
        }
        if self.is_zero() {
            return Ok(Some((
                Self::from_coefficients_vec(Vec::new(alloc)),
                Self::from_coefficients_vec(Vec::new(alloc)),
            )));
        }
        Ok(None)
    }

    // The inverse of the leading coefficient, and `None` exactly for zero.
    fn leading_inverse(&self) -> Option<F>
        ensures some { IfSome result (λ y. F.field.times (of_list F.field self.now (length self.now - 1)) y
            ≡ F.field.one) }
        ensures none { IsNone result ↔ (of_list F.field self.now ≡ nothing F.field) }
    {
        self.coeffs().last()?.inverse()
    }

    // Quotient and remainder by a divisor that isn't zero, from the inverse of its leading coefficient.
    fn divided(
        &self,
        alloc: Global,
        divisor: &Self,
        leading_inverted: F,
    ) -> Result<(Self, Self), PolyError>
        requires nonempty { 0 < length divisor.now }
        requires leading { F.field.times (of_list F.field divisor.now (length divisor.now - 1))
            leading_inverted ≡ F.field.one }
        ensures division { IfOk result (λ p. IsQuotient F.field (of_list F.field self.now)
            (of_list F.field divisor.now) (of_list F.field p.0) (of_list F.field p.1)) }
        ensures memory { IsOkUnless result PolyError.Memory }
    {
        let whole = self.coeffs().len();
        let parts = divisor.coeffs().len();
        if parts < SHORT_DIVISOR || whole < parts || whole - parts < SHORT_QUOTIENT {
            return self.divided_by_passes(alloc, divisor, leading_inverted);
        }
        match self.divided_by_series(alloc, divisor, leading_inverted) {
            Err(PolyError::NoDomain) => self.divided_by_passes(alloc, divisor, leading_inverted),
            answer => answer,
        }
    }

    // Quotient and remainder by passes over the divisor's coefficients, without a transform.
    fn divided_by_passes(
        &self,
        alloc: Global,
        divisor: &Self,
        leading_inverted: F,
    ) -> Result<(Self, Self), PolyError>
        requires nonempty { 0 < length divisor.now }
        requires leading { F.field.times (of_list F.field divisor.now (length divisor.now - 1))
            leading_inverted ≡ F.field.one }
        ensures division { IfOk result (λ p. IsQuotient F.field (of_list F.field self.now)
            (of_list F.field divisor.now) (of_list F.field p.0) (of_list F.field p.1)) }
        ensures memory { IsOkUnless result PolyError.Memory }
    {
        let (quotient, remainder) = divided_list(
            alloc,
            self.coeffs(),
            divisor.coeffs(),
            leading_inverted,
        )?;
        Ok((
            Self::from_coefficients_vec(quotient),
            Self::from_coefficients_vec(remainder),
        ))
    }

    // The coefficients from `start` on and below `end`, moved down to zero.
    fn part(&self, alloc: Global, start: usize, end: usize) -> Result<Self, PolyError>
        ensures same { IfOk result (λ p. AgreeBelow (end - start) (of_list F.field p)
            (past start (of_list F.field self.now))) }
        ensures below { IfOk result (λ p. IsBelow F.field (end - start) (of_list F.field p)) }
        ensures memory { IsOkUnless result PolyError.Memory }
    {
        let coeffs = part(alloc, self.coeffs(), start, end)?;
        Ok(Self::from_coefficients_vec(coeffs))
    }

    // The coefficients at `degree` and at the exponents below it, `len` of them, that at `degree` first.
    fn reversed(&self, alloc: Global, degree: usize, len: usize) -> Result<Self, PolyError>
        requires { len ≤ degree + 1 }
        ensures same { IfOk result (λ p. AgreeBelow len (of_list F.field p)
            (backwards F.field degree (of_list F.field self.now))) }
        ensures below { IfOk result (λ p. IsBelow F.field len (of_list F.field p)) }
        ensures memory { IsOkUnless result PolyError.Memory }
    {
        let coeffs = reversed(alloc, self.coeffs(), degree, len)?;
        Ok(Self::from_coefficients_vec(coeffs))
    }

    // A step of Newton iteration: from `known` coefficients of the inverse series to `len`, at most twice as
    // many. The product with what is known is one up to there, and what it has after that is taken out.
    fn refined_inverse(
        &self,
        alloc: Global,
        inverse: &Self,
        known: usize,
        len: usize,
    ) -> Result<Self, PolyError>
        requires positive { 0 < known }
        requires more { known ≤ len }
        requires most { len ≤ known + known }
        requires below { IsBelow F.field known (of_list F.field inverse.now) }
        requires inverse { AgreeBelow known (product F.field (of_list F.field self.now)
            (of_list F.field inverse.now)) (unity F.field) }
        ensures inverse { IfOk result (λ p. AgreeBelow len (product F.field (of_list F.field self.now)
            (of_list F.field p)) (unity F.field)) }
        ensures below { IfOk result (λ p. IsBelow F.field len (of_list F.field p)) }
        ensures errors { IsOkUnlessEither result PolyError.Memory PolyError.NoDomain }
    {
        let whole = self.part(alloc, 0, len)?.mul(alloc, inverse)?;
        let correction = whole.part(alloc, known, len)?.mul(alloc, inverse)?;
        let coeffs = corrected(alloc, inverse.coeffs(), correction.coeffs(), known, len)?;
        Ok(Self::from_coefficients_vec(coeffs))
    }

    // The first `len` coefficients of the inverse series, from the inverse of the first one: by halves, since
    // a step of Each step of Newton iteration doubles them.
    fn inverse_series(
        &self,
        alloc: Global,
        first_inverted: F,
        len: usize,
    ) -> Result<Self, PolyError>
        requires positive { 0 < len }
        requires first { F.field.times (of_list F.field self.now 0) first_inverted ≡ F.field.one }
        ensures inverse { IfOk result (λ p. AgreeBelow len (product F.field (of_list F.field self.now)
            (of_list F.field p)) (unity F.field)) }
        ensures below { IfOk result (λ p. IsBelow F.field len (of_list F.field p)) }
        ensures errors { IsOkUnlessEither result PolyError.Memory PolyError.NoDomain }
    {
        if len == 1 {
            return Ok(Self::from_coefficients_vec(vec![in alloc; first_inverted; 1]?));
        }
        let known = len - len / 2;
        let inverse = self.inverse_series(alloc, first_inverted, known)?;
        self.refined_inverse(alloc, &inverse, known, len)
    }

    // The quotient by a divisor that isn't longer, from the inverse of its leading coefficient: in the
    // reversed order it is the product with the inverse series.
    fn quotient_by_series(
        &self,
        alloc: Global,
        divisor: &Self,
        leading_inverted: F,
    ) -> Result<Self, PolyError>
        requires nonempty { 0 < length divisor.now }
        requires long { length divisor.now ≤ length self.now }
        requires leading { F.field.times (of_list F.field divisor.now (length divisor.now - 1))
            leading_inverted ≡ F.field.one }
        ensures quotient { IfOk result (λ q. IsQuotient F.field (of_list F.field self.now)
            (of_list F.field divisor.now) (of_list F.field q) (difference F.field (of_list F.field self.now)
            (product F.field (of_list F.field q) (of_list F.field divisor.now)))) }
        ensures errors { IsOkUnlessEither result PolyError.Memory PolyError.NoDomain }
    {
        let whole = self.coeffs().len();
        let parts = divisor.coeffs().len();
        let len = whole - parts + 1;
        let backwards = divisor.reversed(alloc, parts - 1, parts)?;
        let inverse = backwards.inverse_series(alloc, leading_inverted, len)?;
        let series = self.reversed(alloc, whole - 1, len)?.mul(alloc, &inverse)?;
        series.reversed(alloc, len - 1, len)
    }

    // Quotient and remainder by a divisor that isn't longer, through the inverse series.
    fn divided_by_series(
        &self,
        alloc: Global,
        divisor: &Self,
        leading_inverted: F,
    ) -> Result<(Self, Self), PolyError>
        requires nonempty { 0 < length divisor.now }
        requires long { length divisor.now ≤ length self.now }
        requires leading { F.field.times (of_list F.field divisor.now (length divisor.now - 1))
            leading_inverted ≡ F.field.one }
        ensures division { IfOk result (λ p. IsQuotient F.field (of_list F.field self.now)
            (of_list F.field divisor.now) (of_list F.field p.0) (of_list F.field p.1)) }
        ensures errors { IsOkUnlessEither result PolyError.Memory PolyError.NoDomain }
    {
        let quotient = self.quotient_by_series(alloc, divisor, leading_inverted)?;
        let product = quotient.mul(alloc, divisor)?;
        let remainder = self.sub(alloc, &product)?;
        Ok((quotient, remainder))
    }
}
