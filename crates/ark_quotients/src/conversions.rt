//! Coefficients by exponents from terms, terms from them, and sums of the one with the other.

ghost use Rattle.std.specs.Prelude.{◌≡◌, ◌≢◌, ◌↔◌, ◌-◌, ◌<◌, length, IfOk, OnOk, OnErr};
ghost use Rattle.std.specs.Prelude.{IfSome, IsNone, IsOkUnless};
ghost use Rattle.std.specs.List.{All};
ghost use Rattle.ark_math.specs.Outcome.{IsOkUnlessEither};
ghost use Rattle.ark_math.specs.Univariate.{added, IsDegree, IsSparse, IsTrimmed, of_list, of_pairs};
ghost use Rattle.ark_quotients.specs.Signs.{all_signed, signed};

use ark_coeffs::dense::{extended, grow, trim, zeros};
use ark_coeffs::sparse::push_term;
use ark_traits::{Field, PolyError};
use std::alloc::Global;

/// The terms that aren't zero, by rising degrees.
pub fn terms_of<F: Field>(alloc: Global, coeffs: &[F]) -> Result<Vec<(usize, F)>, PolyError>
    ensures sparse { IfOk result (λ t. IsSparse F.field t.items) }
    ensures same { IfOk result (λ t. of_pairs F.field t.items ≡ of_list F.field coeffs.now) }
    ensures memory { IsOkUnless result PolyError.Memory }
{
    let mut terms = Vec::new(alloc);
    for i in 0..coeffs.len() {
        push_term(&mut terms, i, coeffs[i])?;
    }
    Ok(terms)
}

// How many coefficients the terms have up to their degree: none where there is no term. `None` exactly where
// the degree is `usize::MAX`.
fn len_for<F: Field>(terms: &[(usize, F)]) -> Option<usize>
    requires { IsSparse F.field terms.now }
    ensures room { IfSome result (λ n. All (λ t. t.0 < n) terms.now) }
    ensures last { IfSome result (λ n. 0 < n → of_pairs F.field terms.now (n - 1) ≢ F.field.zero) }
    ensures none { IsNone result ↔ IsDegree F.field (of_pairs F.field terms.now) usize.MAX }
{
    if terms.is_empty() {
        return Some(0);
    }
    let (degree, _) = terms[terms.len() - 1];
    degree.checked_add(1)
}

/// Whether terms are added or subtracted.
#[derive(Clone, Copy)]
pub enum Sign {
    /// Terms are added.
    Plus,
    /// Terms are subtracted.
    Minus,
}

// The sum with a value, or the difference.
fn add_signed<F: Field>(sum: F, sign: Sign, value: F) -> F
    ensures { result ≡ F.field.plus sum (signed F.field sign value) }
{
    match sign {
        Sign::Plus => sum + value,
        Sign::Minus => sum - value,
    }
}

// Adds each term to the coefficient of its degree, or subtracts it.
fn add_terms<F: Field>(coeffs: &mut [F], sign: Sign, terms: &[(usize, F)])
    requires { All (λ t. t.0 < length coeffs.old) terms.now }
    ensures { of_list F.field coeffs.new ≡ added F.field (of_list F.field coeffs.old)
        (all_signed F.field sign (of_pairs F.field terms.now)) }
{
    for i in 0..terms.len() {
        let term = terms[i];
        coeffs[term.0] = add_signed(coeffs[term.0], sign, term.1);
    }
}

/// The coefficients up to the degree of the terms, the lowest first: none where there is no term. `Overflow`
/// exactly where the degree is `usize::MAX`, judged first. Takes memory for the answer alone.
pub fn coefficients_of<F: Field>(alloc: Global, terms: &[(usize, F)]) -> Result<Vec<F>, PolyError>
    requires { IsSparse F.field terms.now }
    ensures same { IfOk result (λ c. of_list F.field c.items ≡ of_pairs F.field terms.now) }
    ensures trimmed { IfOk result (λ c. IsTrimmed F.field c.items) }
    ensures overflow { (result ≡ Err PolyError.Overflow)
        ↔ IsDegree F.field (of_pairs F.field terms.now) usize.MAX }
    ensures errors { IsOkUnlessEither result PolyError.Memory PolyError.Overflow }
{
    let Some(len) = len_for(terms) else {
        return Err(PolyError::Overflow);
    };
    let mut coeffs = zeros(alloc, len)?;
    add_terms(coeffs.as_mut_slice(), Sign::Plus, terms);
    Ok(coeffs)
}

/// The sum of coefficients and terms, or the difference, maybe with zeros at its end. `Overflow` exactly
/// where the terms' degree is `usize::MAX`, judged first. Takes memory for the answer alone.
pub fn sum_with_terms<F: Field>(
    alloc: Global,
    coeffs: &[F],
    sign: Sign,
    terms: &[(usize, F)],
) -> Result<Vec<F>, PolyError>
    requires { IsSparse F.field terms.now }
    ensures sum { IfOk result (λ c. of_list F.field c.items ≡ added F.field (of_list F.field coeffs.now)
        (all_signed F.field sign (of_pairs F.field terms.now))) }
    ensures overflow { (result ≡ Err PolyError.Overflow)
        ↔ IsDegree F.field (of_pairs F.field terms.now) usize.MAX }
    ensures errors { IsOkUnlessEither result PolyError.Memory PolyError.Overflow }
{
    let Some(len) = len_for(terms) else {
        return Err(PolyError::Overflow);
    };
    let mut sum = extended(alloc, coeffs, coeffs.len().max(len))?;
    add_terms(sum.as_mut_slice(), sign, terms);
    Ok(sum)
}

/// Adds the terms in place, or subtracts them, and cuts off the zeros at the end. `Overflow` exactly where
/// the terms' degree is `usize::MAX`, judged first; after an error the items are as they were. Takes memory
/// only where the degree is past the list.
pub fn add_terms_trimmed<F: Field>(
    coeffs: &mut Vec<F>,
    sign: Sign,
    terms: &[(usize, F)],
) -> Result<(), PolyError>
    requires { IsSparse F.field terms.now }
    ensures sum { OnOk result (of_list F.field coeffs.new.items ≡ added F.field
        (of_list F.field coeffs.old.items) (all_signed F.field sign (of_pairs F.field terms.now))) }
    ensures trimmed { OnOk result (IsTrimmed F.field coeffs.new.items) }
    ensures kept { OnErr result (coeffs.new.items ≡ coeffs.old.items) }
    ensures overflow { (result ≡ Err PolyError.Overflow)
        ↔ IsDegree F.field (of_pairs F.field terms.now) usize.MAX }
    ensures errors { IsOkUnlessEither result PolyError.Memory PolyError.Overflow }
{
    let Some(len) = len_for(terms) else {
        return Err(PolyError::Overflow);
    };
    grow(coeffs, len)?;
    add_terms(coeffs.as_mut_slice(), sign, terms);
    trim(coeffs);
    Ok(())
}
