//! Polynomials through points.

ghost use Rattle.std.specs.Prelude.{◌≡◌, ◌↔◌, ℕ, ◌<◌, ◌≤◌, ◌/◌, All, length};
ghost use Rattle.std.specs.Prelude.{IfOk, IfErr, IsTrue, OnOk, OnErr};
ghost use Rattle.ark_math_points.specs.AtPoints.{AreDifferent, HasRepeated, HasValues};
ghost use Rattle.ark_math.specs.Univariate.{IsBelow, of_list};
ghost use Rattle.ark_words.specs.Faults.{IsOfPoints, IsRefusalOfPoints};
ghost use Rattle.ark_words.specs.Interpolations.{FitInterpolation, ArePointsDifferent, HasEqualPoints};
ghost use Rattle.ark_words.specs.Interpolations.{AreInterpolating};
ghost use Rattle.ark_words.specs.Numbers.{numbers, number_at, BothReduced};

use crate::element::WordElement;
use crate::error::WordsError;
use crate::lists::{are_reduced, both};
use crate::padded::put_with_zeros;
use ark_points::{PointsError, from_points, paired};
use ark_traits::FftField;
use ark_univariate::polynomial::DenseUVPolynomial;
use ark_univariate::polynomial::univariate::DensePolynomial;
use std::alloc::Global;

/// The only `n` coefficients, the lowest first, of a polynomial below degree `n` that has these `n` values at
/// these `n` points. It takes what `from_points` of `ark_points` does, and memory for the elements.
///
/// The errors are judged in this order: `Length` where the points aren't whole elements, or the three lists
/// differ in length; `NotReduced` where a number isn't below the modulus; `EqualPoints` where two points are
/// equal; `Memory` where none of these holds.
pub fn interpolate<F: WordElement>(
    alloc: Global,
    points: &[u64],
    values: &[u64],
    coefficients: &mut [u64],
) -> Result<(), WordsError>
    ensures coefficients { OnOk result (AreInterpolating F.spelled points.now values.now coefficients.new) }
    ensures kept { OnErr result (coefficients.new ≡ coefficients.old) }
    ensures taken { OnOk result (FitInterpolation F.spelled points.now values.now coefficients.old
        × BothReduced F.spelled points.now values.now × ArePointsDifferent F.spelled points.now) }
    ensures length { (result ≡ Err WordsError.Length)
        ↔ (¬ FitInterpolation F.spelled points.now values.now coefficients.old) }
    ensures not_reduced { (result ≡ Err WordsError.NotReduced)
        ↔ (FitInterpolation F.spelled points.now values.now coefficients.old
        × (¬ BothReduced F.spelled points.now values.now)) }
    ensures equal_points { (result ≡ Err WordsError.EqualPoints)
        ↔ (FitInterpolation F.spelled points.now values.now coefficients.old
        × BothReduced F.spelled points.now values.now × HasEqualPoints F.spelled points.now) }
    ensures no_other { IfErr result IsOfPoints }
{
    let width = F::WIDTH;
    if points.len() % width != 0
        || values.len() != points.len()
        || coefficients.len() != points.len()
    {
        return Err(WordsError::Length);
    }
    // Whatever stops the way there, the words tell why.
    let Ok((xs, ys)) = both::<F>(alloc, points, values) else {
        return Err(refusal_of_points::<F>(points, values));
    };
    let Ok(found) = through(alloc, &xs, &ys) else {
        return Err(refusal_of_points::<F>(points, values));
    };
    put_with_zeros(coefficients, found.coeffs());
    Ok(())
}

// The polynomial that has these values at these points.
fn through<F: FftField>(
    alloc: Global,
    points: &[F],
    values: &[F],
) -> Result<DensePolynomial<F>, PointsError>
    requires { length values.now ≡ length points.now }
    ensures below { IfOk result (λ p. IsBelow F.field (length points.now) (of_list F.field p)) }
    ensures values { IfOk result (λ p. HasValues F.field (length points.now) (of_list F.field points.now)
        (of_list F.field values.now) (of_list F.field p)) }
    ensures only { IfOk result (λ p. (a : ℕ → F) → IsBelow F.field (length points.now) a
        → HasValues F.field (length points.now) (of_list F.field points.now) (of_list F.field values.now) a
        → a ≡ of_list F.field p) }
    ensures different { IfOk result (λ p. AreDifferent (length points.now) (of_list F.field points.now)) }
{
    from_points(alloc, &paired(alloc, points, values)?)
}

// Why there is no polynomial with these values at these points, judged without memory.
fn refusal_of_points<F: WordElement>(points: &[u64], values: &[u64]) -> WordsError
    ensures { IsRefusalOfPoints (All (λ x. x < F.modulus) (numbers F.WIDTH points.now)
        × All (λ x. x < F.modulus) (numbers F.WIDTH values.now))
        (HasRepeated (length points.now / F.WIDTH) (number_at F.WIDTH points.now)) result }
{
    if !are_reduced::<F>(points) || !are_reduced::<F>(values) {
        WordsError::NotReduced
    } else if has_repeated::<F>(points) {
        WordsError::EqualPoints
    } else {
        WordsError::Memory
    }
}

// Whether two numbers are equal. It compares each two of them, and takes no memory.
fn has_repeated<F: WordElement>(words: &[u64]) -> bool
    requires { All (λ x. x < F.modulus) (numbers F.WIDTH words.now) }
    ensures { IsTrue result ↔ HasRepeated (length words.now / F.WIDTH) (number_at F.WIDTH words.now) }
{
    let width = F::WIDTH;
    for i in 0..words.len() / width {
        if is_among_first::<F>(words, i, item_at::<F>(words, i)) {
            return true;
        }
    }
    false
}

// Whether one of the first n numbers is this element's.
fn is_among_first<F: WordElement>(words: &[u64], n: usize, item: F) -> bool
    requires reduced { All (λ x. x < F.modulus) (numbers F.WIDTH words.now) }
    requires inside { n ≤ length words.now / F.WIDTH }
    ensures { IsTrue result ↔ (i : ℕ) × (i < n) × (number_at F.WIDTH words.now i ≡ F.numbering.number item) }
{
    for i in 0..n {
        if item_at::<F>(words, i) == item {
            return true;
        }
    }
    false
}

// The element of the number at a place.
fn item_at<F: WordElement>(words: &[u64], i: usize) -> F
    requires reduced { All (λ x. x < F.modulus) (numbers F.WIDTH words.now) }
    requires inside { i < length words.now / F.WIDTH }
    ensures { F.numbering.number result ≡ number_at F.WIDTH words.now i }
{
    let width = F::WIDTH;
    F::from_words(&words[i * width..(i + 1) * width]).unwrap()
}
