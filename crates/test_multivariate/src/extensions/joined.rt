//! Values of tables that are joined.

use crate::extensions::forms::{drawn, one_at_a_time};
use ark_base::{Field, Polynomial};
use ark_multi::multilinear::{DenseMultilinearExtension, MultilinearExtension};
use rand_pcg::Pcg64;
use std::alloc::Global;
use test_types::sums::value;
use test_types::trials::drawn_elements;

// The value at a point that has at least as many items: the further variables are zero past the table.
fn padded_value<F: Field>(
    alloc: Global,
    p: &DenseMultilinearExtension<F>,
    point: &[F],
) -> Option<F> {
    let (own, others) = point.split_at(p.num_vars().min(point.len()));
    let own = Vec::from_slice(alloc, own).ok()?;
    let mut known = value(alloc, p, &own)?;
    for x in others {
        known = known * (F::one() - *x);
    }
    Some(known)
}

// Between the values of the parts, which have at most `num_vars` variables each, by the last items of the point.
fn between<F: Field>(
    alloc: Global,
    parts: &[DenseMultilinearExtension<F>],
    num_vars: usize,
    point: &[F],
) -> Option<F> {
    let (first, last) = point.split_at(num_vars.min(point.len()));
    let mut values = Vec::new(alloc);
    for part in parts {
        values.push(padded_value(alloc, part, first)?).ok()?;
    }
    let between = one_at_a_time(alloc, &values, last).ok()?;
    between.first().copied()
}

fn drawn_parts<F: Field>(
    alloc: Global,
    rng: &mut Pcg64,
    lens: &[usize],
) -> Option<Vec<DenseMultilinearExtension<F>>> {
    let mut parts = Vec::new(alloc);
    for num_vars in lens {
        parts.push(drawn(alloc, rng, *num_vars)?).ok()?;
    }
    Some(parts)
}

// Whether drawn parts of so many variables have, when they are joined, the value between theirs at ten points with so
// many items. Those before the last have just `num_vars` variables.
fn goes_between<F: Field>(
    alloc: Global,
    rng: &mut Pcg64,
    lens: &[usize],
    (num_vars, items): (usize, usize),
) -> bool {
    let Some(parts) = drawn_parts::<F>(alloc, rng, lens) else {
        return false;
    };
    let Ok(joined) = DenseMultilinearExtension::concat(alloc, &parts) else {
        return false;
    };
    let mut right = true;
    for _ in 0..10 {
        let Ok(point) = drawn_elements(alloc, rng, items) else {
            return false;
        };
        let known = between(alloc, &parts, num_vars, &point);
        right = right && known.is_some() && value(alloc, &joined, &point) == known;
    }
    right
}

/// Two of as many variables, one of fewer, which is padded with zeros, and four.
pub fn draws<F: Field>(alloc: Global) -> bool {
    let mut rng = Pcg64::new(49, 1);
    let cases: [(&[usize], (usize, usize)); 6] = [
        (&[10, 10], (10, 11)),
        (&[10, 9], (10, 11)),
        (&[8, 8, 8, 8], (8, 10)),
        (&[3, 3, 0], (3, 5)),
        (&[0, 0, 0], (0, 2)),
        (&[5], (5, 5)),
    ];
    let mut right = true;
    for (lens, shape) in cases {
        right = right && goes_between::<F>(alloc, &mut rng, lens, shape);
    }
    right
}
