//! Lists of terms with coefficients: their degrees and values, and sums in rising order.

ghost use Rattle.std.specs.Prelude.{◌≡◌, ◌≢◌, [], length, All, IfOk, OnOk, IfSome, IsNone, IsOkUnless};
ghost use Rattle.std.specs.declared.cmp.Ordering.TheVariants.{Less, Greater};
ghost use Rattle.ark_math_variables.specs.Multivariate.{single, IsTotalDegree, IsValueAt, of_listed};
ghost use Rattle.ark_multi.specs.SortedTerms.{AreRising, IsLeastTerm};
ghost use Rattle.ark_math_variables.specs.Term.{IsWithin};
ghost use Rattle.ark_math.specs.Univariate.{added, scaled};
ghost use Rattle.ark_coeffs.specs.Multiples.{factor_of};

use crate::multivariate::Term;
use ark_coeffs::multiple::Multiple;
use ark_traits::{Field, PolyError};
use std::alloc::Global;
use std::cmp::Ordering;

// The greatest total degree of the terms, 0 where there are none.
pub(crate) fn degree_of_terms<F: Field, T: Term>(terms: &[(F, T)]) -> usize
    requires { AreRising F.field T.cmp terms.now }
    ensures { IsTotalDegree F.field (of_listed F.field T.listed terms.now) result }
{
    let mut degree = 0;
    for term in terms {
        degree = degree.max(term.1.degree());
    }
    degree
}

// The value at a point that has an item for each variable.
pub(crate) fn value_of_terms<F: Field, T: Term>(terms: &[(F, T)], point: &[F]) -> F
    requires { All (λ c. IsWithin (length point.now) (T.listed c.1)) terms.now }
    ensures { IsValueAt F.field (of_listed F.field T.listed terms.now) point.now result }
{
    let mut value = F::zero();
    for term in terms {
        value += term.0 * term.1.evaluate(point);
    }
    value
}

// Adds a term above the others, unless its coefficient is zero.
fn push_term<F: Field, T: Term>(
    terms: &mut Vec<(F, T)>,
    coefficient: F,
    term: T,
) -> Result<(), PolyError>
    requires rising { AreRising F.field T.cmp terms.old.items }
    requires below { All (λ c. T.cmp c.1 term ≡ Less) terms.old.items }
    ensures rising { OnOk result (AreRising F.field T.cmp terms.new.items) }
    ensures sum { OnOk result (of_listed F.field T.listed terms.new.items
        ≡ added F.field (of_listed F.field T.listed terms.old.items)
        (single F.field (T.listed term) coefficient)) }
    ensures upto { OnOk result (All (λ c. T.cmp c.1 term ≢ Greater) terms.new.items) }
    ensures memory { IsOkUnless result PolyError.Memory }
{
    if !coefficient.is_zero() {
        terms.push((coefficient, term))?;
    }
    Ok(())
}

// The least term of two lists, with its coefficient in their sum, and what is left of them.
#[derive(Drop)]
struct Least<'a, F, T> {
    coefficient: F,
    term: &'a T,
    left: &'a [(F, T)],
    right: &'a [(F, T)],
}

// The least term of the sum of one list and a multiple of another; `None` where both are empty.
fn least_term<'a, F: Field, T: Term>(
    left: &'a [(F, T)],
    multiple: Multiple<F>,
    right: &'a [(F, T)],
) -> Option<Least<'a, F, T>>
    requires left { AreRising F.field T.cmp left.now }
    requires right { AreRising F.field T.cmp right.now }
    ensures least { IfSome result (λ l. IsLeastTerm F.field T.cmp T.listed left.now
        (factor_of F.field multiple) right.now l.coefficient l.term.now l.left.now l.right.now) }
    ensures none { IsNone result → (left.now ≡ []) × (right.now ≡ []) }
{
    match (left.split_first(), right.split_first()) {
        (Some((term, rest)), Some((other, others))) => match term.1.cmp(&other.1) {
            Ordering::Less => Some(Least {
                coefficient: term.0,
                term: &term.1,
                left: rest,
                right,
            }),
            Ordering::Equal => Some(Least {
                coefficient: term.0 + multiple.of(other.0),
                term: &term.1,
                left: rest,
                right: others,
            }),
            Ordering::Greater => Some(Least {
                coefficient: multiple.of(other.0),
                term: &other.1,
                left,
                right: others,
            }),
        },
        (Some((term, rest)), None) => Some(Least {
            coefficient: term.0,
            term: &term.1,
            left: rest,
            right,
        }),
        (None, Some((other, others))) => Some(Least {
            coefficient: multiple.of(other.0),
            term: &other.1,
            left,
            right: others,
        }),
        (None, None) => None,
    }
}

// The sum of terms and a multiple of others, without zeros. One pass over both lists, and room for both at
// once.
pub(crate) fn sum_of_terms<F: Field, T: Term>(
    alloc: Global,
    left: &[(F, T)],
    multiple: Multiple<F>,
    right: &[(F, T)],
) -> Result<Vec<(F, T)>, PolyError>
    requires left { AreRising F.field T.cmp left.now }
    requires right { AreRising F.field T.cmp right.now }
    ensures rising { IfOk result (λ s. AreRising F.field T.cmp s.items) }
    ensures sum { IfOk result (λ s. of_listed F.field T.listed s.items
        ≡ added F.field (of_listed F.field T.listed left.now)
        (scaled F.field (factor_of F.field multiple) (of_listed F.field T.listed right.now))) }
    ensures memory { IsOkUnless result PolyError.Memory }
{
    let mut sum = Vec::with_capacity(alloc, left.len().saturating_add(right.len()))?;
    let mut left = left;
    let mut right = right;
    while let Some(least) = least_term(left, multiple, right) {
        push_term(&mut sum, least.coefficient, least.term.clone()?)?;
        left = least.left;
        right = least.right;
    }
    Ok(sum)
}

// Takes the last term off if it is this one, and gives its coefficient; zero otherwise.
fn take_like<F: Field, T: Term>(terms: &mut Vec<(F, T)>, term: &T) -> F
    requires rising { AreRising F.field T.cmp terms.old.items }
    requires upto { All (λ c. T.cmp c.1 term.now ≢ Greater) terms.old.items }
    ensures rising { AreRising F.field T.cmp terms.new.items }
    ensures below { All (λ c. T.cmp c.1 term.now ≡ Less) terms.new.items }
    ensures sum { of_listed F.field T.listed terms.old.items
        ≡ added F.field (of_listed F.field T.listed terms.new.items)
        (single F.field (T.listed term.now) result) }
{
    match terms.last() {
        Some(last) if last.1 == *term => {}
        _ => return F::zero(),
    }
    match terms.pop() {
        Some(last) => last.0,
        None => F::zero(),
    }
}

// The sums of like terms that aren't zero, of terms in any order. One sort, and then one pass.
pub(crate) fn gathered_terms<F: Field, T: Term>(
    alloc: Global,
    terms: Vec<(F, T)>,
) -> Result<Vec<(F, T)>, PolyError>
    ensures rising { IfOk result (λ m. AreRising F.field T.cmp m.items) }
    ensures sum { IfOk result (λ m. of_listed F.field T.listed m.items
        ≡ of_listed F.field T.listed terms.items) }
    ensures memory { IsOkUnless result PolyError.Memory }
{
    // The greatest stands first, since the terms are taken from the back.
    let mut rest = terms;
    rest.sort_by(|a, b| b.1.cmp(&a.1))?;
    let mut gathered = Vec::new(alloc);
    while let Some(next) = rest.pop() {
        let like = take_like(&mut gathered, &next.1);
        push_term(&mut gathered, like + next.0, next.1)?;
    }
    Ok(gathered)
}
