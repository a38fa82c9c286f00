//! Values at elements of a domain that has not many more of them: they are looked up among the values over
//! all of it.
//!
//! This is a faster way and nothing else: with it values at 4096 points over 65537 take the time of some 20
//! transforms in place of 60. Who wants the plain way alone deletes it, with `places.rt`, and lets `evaluate_at`
//! go down the tree always.

ghost use Rattle.std.specs.Prelude.{◌≡◌, ℕ, ◌<◌, ◌↔◌, ◌⊎◌, length, get_or, IfOk, IfSome, IsOkUnless, IsTrue};
ghost use Rattle.ark_math.specs.Field.{power};
ghost use Rattle.ark_math_domains.specs.Points.{AreValues};
ghost use Rattle.ark_math.specs.Univariate.{IsValue, of_list};
ghost use Rattle.ark_math_points.specs.AtPoints.{AreValuesAt};

use crate::places::take_places;
use ark_traits::{FftField, Field, PolyError, Polynomial};
use ark_univariate::polynomial::univariate::DensePolynomial;
use ark_univariate::{DenseUVPolynomial, EvaluationDomain, Evaluations};
use std::alloc::Global;

// A domain that is so many times twice as large as one for the points and coefficients still serves.
const DOUBLINGS: u32 = 5;

/// The values at points, of which there are some. `None` where the field has no domain of a few times as many
/// elements as there are points or coefficients, or a point is neither zero nor one of its elements.
pub fn values_by_lookup<F: FftField, D: EvaluationDomain<F>>(
    alloc: Global,
    polynomial: &DensePolynomial<F>,
    points: &[F],
) -> Result<Option<Vec<F>>, PolyError>
    requires not_empty { 0 < length points.now }
    ensures values { IfOk result (λ found. IfSome found (λ v. AreValuesAt F.field points.now v.items
        (of_list F.field polynomial.now))) }
    ensures memory { IsOkUnless result PolyError.Memory }
{
    let count = points.len().max(polynomial.coeffs().len());
    let last = points.len() - 1;
    let Some(domain) = domain_of_samples::<F, D>(count, points[0], points[last / 2], points[last])
    else {
        return Ok(None);
    };
    values_in(alloc, polynomial, points, domain)
}

/// The subgroup that values may be looked up in, for so many points or coefficients. `None` where the field has none,
/// or one of three samples of the points is neither zero nor one of its elements.
pub fn domain_of_samples<F: FftField, D: EvaluationDomain<F>>(
    count: usize,
    first: F,
    middle: F,
    last: F,
) -> Option<D>
    requires { 0 < count }
    ensures subgroup { IfSome result (λ d. (D.domain d).offset ≡ F.field.one) }
    ensures some { IfSome result (λ d. 0 < (D.domain d).size) }
{
    let Some(domain) = widest_domain::<F, D>(count, DOUBLINGS) else {
        return None;
    };
    if is_outside(domain, first) || is_outside(domain, middle) || is_outside(domain, last) {
        return None;
    }
    Some(domain)
}

// The greatest of the subgroups that there are for so many elements, for twice as many, and so on.
fn widest_domain<F: FftField, D: EvaluationDomain<F>>(count: usize, doublings: u32) -> Option<D>
    requires { 0 < count }
    ensures subgroup { IfSome result (λ d. (D.domain d).offset ≡ F.field.one) }
    ensures some { IfSome result (λ d. 0 < (D.domain d).size) }
{
    if doublings > 0 {
        if let Some(twice) = count.checked_add(count) {
            if let Some(domain) = widest_domain::<F, D>(twice, doublings - 1) {
                return Some(domain);
            }
        }
    }
    D::new(count)
}

// Whether a point is neither zero nor one of the subgroup's elements.
fn is_outside<F: FftField, D: EvaluationDomain<F>>(domain: D, point: F) -> bool {
    !point.is_zero() && !point.pow(domain.size() as u64).is_one()
}

// The values at the points by those over a subgroup, if each of the points is zero or in it.
fn values_in<F: FftField, D: EvaluationDomain<F>>(
    alloc: Global,
    polynomial: &DensePolynomial<F>,
    points: &[F],
    domain: D,
) -> Result<Option<Vec<F>>, PolyError>
    requires subgroup { (D.domain domain).offset ≡ F.field.one }
    requires some { 0 < (D.domain domain).size }
    ensures values { IfOk result (λ found. IfSome found (λ v. AreValuesAt F.field points.now v.items
        (of_list F.field polynomial.now))) }
    ensures memory { IsOkUnless result PolyError.Memory }
{
    let mut rests = Vec::from_slice(alloc, points)?;
    let places = take_places(
        alloc,
        rests.as_mut_slice(),
        domain.group_gen(),
        domain.group_gen_inv(),
        domain.size(),
    )?;
    if !are_found(points, &rests) {
        return Ok(None);
    }
    let at_zero = polynomial.evaluate(alloc, &F::zero())?;
    let all = polynomial.evaluate_over_domain_by_ref(alloc, domain)?;
    let known = SubgroupValues { at_zero, all };
    looked_up(alloc, points, &rests, &places, &known)
}

// Whether each of the points is zero or has one as its rest.
fn are_found<F: Field>(points: &[F], rests: &[F]) -> bool
    requires { length rests.now ≡ length points.now }
    ensures { IsTrue result ↔ ((i : ℕ) → i < length points.now
        → (of_list F.field rests.now i ≡ F.field.one) ⊎ (of_list F.field points.now i ≡ F.field.zero)) }
{
    for i in 0..points.len() {
        if !is_found(points[i], rests[i]) {
            return false;
        }
    }
    true
}

// Whether a point is zero or has one as its rest.
fn is_found<F: Field>(point: F, rest: F) -> bool
    ensures { IsTrue result ↔ (rest ≡ F.field.one) ⊎ (point ≡ F.field.zero) }
{
    rest.is_one() || point.is_zero()
}

// The values of a polynomial at zero and over a subgroup.
#[derive(Drop)]
struct SubgroupValues<F: FftField, D: EvaluationDomain<F>> {
    at_zero: F,
    all: Evaluations<F, D>,
}

// The values at points from those over a subgroup and at zero, where each of the points is a root's power at
// a place times a rest.
fn looked_up<F: FftField, D: EvaluationDomain<F>>(
    alloc: Global,
    points: &[F],
    rests: &[F],
    places: &[usize],
    known: &SubgroupValues<F, D>,
) -> Result<Option<Vec<F>>, PolyError>
    requires rests { length rests.now ≡ length points.now }
    requires places { length places.now ≡ length points.now }
    requires subgroup { (D.domain known.now.all.domain).offset ≡ F.field.one }
    requires below { (i : ℕ) → i < length points.now
        → get_or places.now i 0 < (D.domain known.now.all.domain).size }
    requires products { (i : ℕ) → i < length points.now → of_list F.field points.now i
        ≡ F.field.times (of_list F.field rests.now i)
        (power F.field (D.domain known.now.all.domain).root (get_or places.now i 0)) }
    ensures values { IfOk result (λ found. IfSome found (λ v. (p : ℕ → F)
        → AreValues F.field (D.domain known.now.all.domain) p known.now.all.evals
        → IsValue F.field p F.field.zero known.now.at_zero
        → AreValuesAt F.field points.now v.items p)) }
    ensures memory { IsOkUnless result PolyError.Memory }
{
    let mut values = Vec::with_capacity(alloc, points.len())?;
    for i in 0..points.len() {
        let Some(value) = value_at_place(points[i], rests[i], places[i], known) else {
            return Ok(None);
        };
        values.push(value)?;
    }
    Ok(Some(values))
}

// The value at a point that is zero, or that is a root's power with nothing left.
fn value_at_place<F: FftField, D: EvaluationDomain<F>>(
    point: F,
    rest: F,
    place: usize,
    known: &SubgroupValues<F, D>,
) -> Option<F>
    requires subgroup { (D.domain known.now.all.domain).offset ≡ F.field.one }
    requires below { place < (D.domain known.now.all.domain).size }
    requires product { point ≡ F.field.times rest (power F.field (D.domain known.now.all.domain).root place) }
    ensures { IfSome result (λ y. (p : ℕ → F)
        → AreValues F.field (D.domain known.now.all.domain) p known.now.all.evals
        → IsValue F.field p F.field.zero known.now.at_zero
        → IsValue F.field p point y) }
{
    if rest.is_one() {
        Some(known.all[place])
    } else if point.is_zero() {
        Some(known.at_zero)
    } else {
        None
    }
}
