//! Laws of multilinear extensions, and of the order of terms.

ghost use Rattle.std.specs.Prelude.{◌≡◌, ◌↔◌, ◌<◌, ◌^◌, ◌++◌, ℕ, List, length, IfOk, IsOkUnless};
ghost use Rattle.std.specs.Prelude.{if◌then◌else◌};
ghost use Rattle.ark_math.specs.Module.{itself, item};
ghost use Rattle.ark_math_variables.specs.Multilinear.{AreWindows, Interpolates, bit, corner, exchanged, extension, fixed};
ghost use Rattle.ark_math_variables.specs.Multilinear.{place};
ghost use Rattle.ark_math_variables.specs.Term.{IsAbove};
ghost use Rattle.ark_math_variables.specs.Multivariate.{IsValueAt};

use ark_multi::MultilinearExtension;
use ark_multi::multivariate::{SparseTerm, Term};
use ark_tables::tables::Exchange;
use ark_traits::{Field, PolyError};
use std::alloc::Global;
use std::cmp::Ordering;

/// The order of terms is the graded one: the greater total degree is above, and of equal totals that with the
/// greater power of the least variable where two differ. No two terms but equal ones tie.
pub fn graded_order(s: &SparseTerm, t: &SparseTerm) -> Ordering
    ensures greater { (result ≡ Ordering.Greater) ↔ IsAbove s.now t.now }
    ensures less { (result ≡ Ordering.Less) ↔ IsAbove t.now s.now }
    ensures equal { (result ≡ Ordering.Equal) ↔ (s.now ≡ t.now) }
{
    // That both are lists of terms decides the law.
    let _left = s.pairs();
    let _right = t.pairs();
    s.cmp(t)
}

/// The value of a multilinear extension at the corner with this index: the table's value there.
///
/// It takes as long as `evaluate`, and memory for a point beside what that takes.
pub fn value_at_corner<F: Field, E: MultilinearExtension<F>>(
    alloc: Global,
    poly: &E,
    index: usize,
) -> Result<F, PolyError>
    requires { index < 2 ^ E.variables poly.now }
    ensures value { IfOk result (λ y. y ≡ (E.table poly.now).value index) }
    ensures memory { IsOkUnless result PolyError.Memory }
{
    let point = corner_point(alloc, poly.num_vars(), index)?;
    poly.evaluate(alloc, &point)
}

// The point whose item i is one where bit i of the index is set, and zero elsewhere.
fn corner_point<F: Field>(alloc: Global, num_vars: usize, index: usize) -> Result<Vec<F>, PolyError>
    requires { num_vars < 64 }
    ensures corner { IfOk result (λ x. x.items ≡ corner F.field num_vars index) }
    ensures memory { IsOkUnless result PolyError.Memory }
{
    let mut point = Vec::with_capacity(alloc, num_vars)?;
    for variable in 0..num_vars {
        point.push(bit_of(index, variable))?;
    }
    Ok(point)
}

// The coordinate of a corner: one where its index has the bit, and zero elsewhere.
fn bit_of<F: Field>(index: usize, variable: usize) -> F
    requires { variable < 64 }
    ensures { result ≡ (if bit index variable then F.field.one else F.field.zero) }
{
    if (index >> variable) % 2 == 1 {
        F::one()
    } else {
        F::zero()
    }
}

/// The value of a multilinear extension at a point, which is that of every polynomial of terms with no power
/// above one that has the table's values at the corners; and there is one such polynomial, and no second one.
///
/// It takes as long as `evaluate`, and as much memory.
pub fn only_multilinear<F: Field, E: MultilinearExtension<F>>(
    alloc: Global,
    poly: &E,
    point: &Vec<F>,
) -> Result<F, PolyError>
    requires { length point.now.items ≡ E.variables poly.now }
    ensures only { IfOk result (λ y. (a : List (ℕ × ℕ) → F) → Interpolates F.field (E.table poly.now) a
        → (z : F) → IsValueAt F.field a point.now.items z → z ≡ y) }
    ensures exists { IfOk result (λ y. (a : List (ℕ × ℕ) → F) × Interpolates F.field (E.table poly.now) a
        × IsValueAt F.field a point.now.items y) }
    ensures one { (a b : List (ℕ × ℕ) → F) → Interpolates F.field (E.table poly.now) a
        → Interpolates F.field (E.table poly.now) b → a ≡ b }
    ensures memory { IsOkUnless result PolyError.Memory }
{
    poly.evaluate(alloc, point)
}

/// The value of a multilinear extension at `first` followed by `others`, at once and with the first variables
/// bound before the others: they are equal.
///
/// It takes as long as `evaluate` and `fix_variables`, and memory for a point beside what these take.
pub fn values_with_bound_variables<F: Field, E: MultilinearExtension<F>>(
    alloc: Global,
    poly: &E,
    first: &[F],
    others: &Vec<F>,
) -> Result<(F, F), PolyError>
    requires fits { length (first.now ++ others.now.items) ≡ E.variables poly.now }
    ensures value { IfOk result (λ y. y.0
        ≡ extension F.field (E.table poly.now).value (first.now ++ others.now.items)) }
    ensures bound { IfOk result (λ y. y.1
        ≡ extension F.field (fixed F.field (E.table poly.now).value first.now) others.now.items) }
    ensures same { IfOk result (λ y. y.1 ≡ y.0) }
    ensures memory { IsOkUnless result PolyError.Memory }
{
    let mut whole = Vec::from_slice(alloc, first)?;
    whole.extend_from_slice(others)?;
    let rest = poly.fix_variables(alloc, first)?;
    Ok((poly.evaluate(alloc, &whole)?, rest.evaluate(alloc, others)?))
}

/// The value of a multilinear extension at a point with items exchanged, and that at the point of the extension
/// with these variables exchanged: they are equal.
///
/// It takes as long as twice `evaluate` and `relabel`, and memory for a point beside what these take.
pub fn values_with_exchanged_variables<F: Field, E: MultilinearExtension<F>>(
    alloc: Global,
    poly: &E,
    by: Exchange,
    point: &Vec<F>,
) -> Result<(F, F), PolyError>
    requires windows { AreWindows (E.variables poly.now) by.first by.second by.count }
    requires fits { length point.now.items ≡ E.variables poly.now }
    ensures value { IfOk result (λ y. y.0
        ≡ extension F.field (E.table poly.now).value (exchanged F.field point.now.items by.first by.second by.count)) }
    ensures same { IfOk result (λ y. y.1 ≡ y.0) }
    ensures memory { IsOkUnless result PolyError.Memory }
{
    let turned = exchanged_point(alloc, point, by)?;
    let relabelled = poly.relabel(alloc, by.first, by.second, by.count)?;
    Ok((
        poly.evaluate(alloc, &turned)?,
        relabelled.evaluate(alloc, point)?,
    ))
}

// The point with the items of two windows exchanged.
fn exchanged_point<F: Field>(alloc: Global, point: &[F], by: Exchange) -> Result<Vec<F>, PolyError>
    requires { AreWindows (length point.now) by.first by.second by.count }
    ensures exchanged { IfOk result (λ x. x.items ≡ exchanged F.field point.now by.first by.second by.count) }
    ensures memory { IsOkUnless result PolyError.Memory }
{
    let mut turned = Vec::with_capacity(alloc, point.len())?;
    for variable in 0..point.len() {
        turned.push(exchanged_item(point, by, variable))?;
    }
    Ok(turned)
}

// The item that a variable gets where those of two windows are exchanged.
fn exchanged_item<F: Field>(point: &[F], by: Exchange, variable: usize) -> F
    requires windows { AreWindows (length point.now) by.first by.second by.count }
    requires within { variable < length point.now }
    ensures { result ≡ item (itself F.field) point.now (place by.first by.second by.count variable) }
{
    if by.first <= variable && variable - by.first < by.count {
        point[variable - by.first + by.second]
    } else if by.second <= variable && variable - by.second < by.count {
        point[variable - by.second + by.first]
    } else {
        point[variable]
    }
}
