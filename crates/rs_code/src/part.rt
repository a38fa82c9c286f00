//! Evenly spaced elements of a domain: what a polynomial with few coefficients is known by.

ghost use Rattle.std.specs.Prelude.{IfSome, ◌≡◌, ℕ, ◌+◌, ◌*◌, ◌<◌, ◌≤◌, true, get_or, length, map};
ghost use Rattle.ark_math.specs.Domain.{element};
ghost use Rattle.ark_math.specs.Field.{power};
ghost use Rattle.ark_math.specs.Module.{item, sum_below};
ghost use Rattle.ark_math.specs.Univariate.{of_list};
ghost use Rattle.rs_code.specs.Code.{IsSpaced};
ghost use Rattle.rs_code.specs.Locator.{filled};

use ark_traits::{DomainCoeff, FftField, Field};
use ark_univariate::EvaluationDomain;

/// The elements of the least domain for `k` items, where they are evenly spaced ones of this domain, and how far apart;
/// else all elements.
pub fn spaced_part<F: FftField, D: EvaluationDomain<F>>(domain: D, k: usize) -> (D, usize)
    requires subgroup { (D.domain domain).offset ≡ F.field.one }
    requires positive { 0 < k }
    requires fits { k ≤ (D.domain domain).size }
    ensures spaced { IsSpaced F.field (D.domain domain) (D.domain result.0) result.1 }
    ensures room { k ≤ (D.domain result.0).size }
{
    if let Some(part) = D::new(k) {
        let (n, m) = (domain.size(), part.size());
        if n % m == 0 {
            return (part, n / m);
        }
    }
    (domain, 1)
}

/// Adds each item to the one that is `m` places before it, from the end on: where the `m`-th power of `x` is one, the
/// polynomial with the first `m` items as its coefficients then has the value at `x` that the whole list had.
pub fn fold<F: Field, T: DomainCoeff<F>>(coeffs: &mut [T], m: usize)
    requires positive { 0 < m }
    requires fits { m ≤ length coeffs.old }
    ensures { (x : F) → power F.field x m ≡ F.field.one
        → sum_below T.group m (λ i. T.group.scale (power F.field x i) (item T.group (map T.meaning coeffs.new) i))
        ≡ sum_below T.group (length coeffs.old)
        (λ i. T.group.scale (power F.field x i) (item T.group (map T.meaning coeffs.old) i)) }
{
    for i in (m..coeffs.len()).rev() {
        let carried = coeffs[i];
        coeffs[i - m] += carried;
    }
}

/// The word's values at the spaced places, and at an erased one the value that is there times its factor.
pub fn fill_spaced<F: Field, T: DomainCoeff<F>>(
    values: &mut [T],
    word: &[T],
    marks: &[bool],
    factors: &[F],
    stride: usize,
)
    requires positive { 0 < stride }
    requires len { length marks.now ≡ length values.old * stride }
    requires word { length word.now ≡ length marks.now }
    requires factors { length factors.now ≡ length marks.now }
    ensures { (j : ℕ) → j < length values.old → item T.group (map T.meaning values.new) j
        ≡ filled T.group (get_or marks.now (j * stride) true) (of_list F.field factors.now (j * stride))
        (item T.group (map T.meaning word.now) (j * stride)) (item T.group (map T.meaning values.old) j) }
{
    for j in 0..values.len() {
        let i = j * stride;
        let mut value = word[i];
        if marks[i] {
            value = values[j];
            value *= factors[i];
        }
        values[j] = value;
    }
}
