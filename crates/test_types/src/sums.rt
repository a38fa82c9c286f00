//! What sums, differences and multiples of polynomials of any form have to do with each other and with their values.
//!
//! An error counts as no.

use ark_base::{Field, Polynomial};
use std::alloc::Global;

/// How two polynomials are put together.
#[derive(Clone, Copy)]
pub enum Way {
    Add,
    Sub,
    AddInPlace,
    SubInPlace,
}

/// The two put together, where they can be.
pub fn combined<F: Field, P: Polynomial<F>>(alloc: Global, p: &P, way: Way, q: &P) -> Option<P> {
    if !p.addable(q) {
        return None;
    }
    match way {
        Way::Add => p.add(alloc, q).ok(),
        Way::Sub => p.sub(alloc, q).ok(),
        _ => in_place(alloc, p, way, q),
    }
}

fn in_place<F: Field, P: Polynomial<F>>(alloc: Global, p: &P, way: Way, q: &P) -> Option<P> {
    let mut changed = p.clone().ok()?;
    if !changed.addable(q) {
        return None;
    }
    let done = match way {
        Way::SubInPlace => changed.sub_assign(alloc, q),
        _ => changed.add_assign(alloc, q),
    };
    if done.is_ok() { Some(changed) } else { None }
}

/// The first with a multiple of the second added in place, where they can be added.
pub fn with_multiple<F: Field, P: Polynomial<F>>(
    alloc: Global,
    p: &P,
    factor: F,
    q: &P,
) -> Option<P> {
    let mut changed = p.clone().ok()?;
    if changed.addable(q) && changed.add_assign_scaled(alloc, factor, q).is_ok() {
        Some(changed)
    } else {
        None
    }
}

/// Whether there are both, and they are the same.
pub fn same<T: PartialEq + Drop>(left: Option<T>, right: Option<T>) -> bool {
    match (left, right) {
        (Some(left), Some(right)) => left == right,
        _ => false,
    }
}

/// The value at a point that fits.
pub fn value<F: Field, P: Polynomial<F>>(alloc: Global, p: &P, point: &P::Point) -> Option<F> {
    if !p.point_fits(point) {
        return None;
    }
    p.evaluate(alloc, point).ok()
}

/// Whether there is one, and it has this value at the point.
pub fn has_value<F: Field, P: Polynomial<F>>(
    alloc: Global,
    p: Option<P>,
    point: &P::Point,
    known: F,
) -> bool {
    match p {
        Some(p) => value(alloc, &p, point) == Some(known),
        None => false,
    }
}

// Whether the sum is the other way round the same, and sums and differences are those in place.
fn agree<F: Field, P: Polynomial<F>>(alloc: Global, p: &P, q: &P) -> bool {
    same(
        combined(alloc, p, Way::Add, q),
        combined(alloc, q, Way::Add, p),
    ) && same(
        combined(alloc, p, Way::Add, q),
        combined(alloc, p, Way::AddInPlace, q),
    ) && same(
        combined(alloc, p, Way::Sub, q),
        combined(alloc, p, Way::SubInPlace, q),
    )
}

// Whether the difference gives the first back when the second is added, and is the opposite of the other difference.
fn come_back<F: Field, P: Polynomial<F>>(alloc: Global, p: &P, q: &P) -> bool {
    let (Some(difference), Some(turned)) = (
        combined(alloc, p, Way::Sub, q),
        combined(alloc, q, Way::Sub, p),
    ) else {
        return false;
    };
    same(combined(alloc, &difference, Way::Add, q), p.clone().ok())
        && same(turned.neg(alloc).ok(), Some(difference))
}

// Whether sum, difference, opposite and the sum with a multiple have the values of these two.
fn have_values<F: Field, P: Polynomial<F>>(
    alloc: Global,
    p: &P,
    q: &P,
    factor: F,
    point: &P::Point,
) -> bool {
    let (Some(x), Some(y)) = (value(alloc, p, point), value(alloc, q, point)) else {
        return false;
    };
    has_value(alloc, combined(alloc, p, Way::Add, q), point, x + y)
        && has_value(alloc, combined(alloc, p, Way::Sub, q), point, x - y)
        && has_value(alloc, p.neg(alloc).ok(), point, -x)
        && has_value(
            alloc,
            with_multiple(alloc, p, factor, q),
            point,
            x + factor * y,
        )
}

/// Whether all this holds of the two at the point.
pub fn add_up<F: Field, P: Polynomial<F>>(
    alloc: Global,
    p: &P,
    q: &P,
    factor: F,
    point: &P::Point,
) -> bool {
    agree(alloc, p, q) && come_back(alloc, p, q) && have_values(alloc, p, q, factor, point)
}

/// Whether zero changes nothing on either side.
pub fn is_kept_by_zero<F: Field, P: Polynomial<F>>(alloc: Global, p: &P) -> bool {
    match P::zero(alloc) {
        Ok(zero) => {
            same(combined(alloc, p, Way::Add, &zero), p.clone().ok())
                && same(combined(alloc, &zero, Way::Add, p), p.clone().ok())
                && same(with_multiple(alloc, &zero, F::one(), p), p.clone().ok())
        }
        Err(_) => false,
    }
}
