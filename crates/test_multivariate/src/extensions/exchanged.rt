//! Windows of variables that are exchanged one after the other.

use crate::extensions::forms::drawn;
use ark_base::Field;
use ark_multi::multilinear::{
    DenseMultilinearExtension, MultilinearExtension, SparseMultilinearExtension,
};
use rand_pcg::Pcg64;
use std::alloc::{AllocError, Global};
use test_types::sums::value;
use test_types::trials::drawn_elements;

// The starts of two windows of variables, and their length.
type Windows = (usize, usize, usize);

const WINDOWS: [Windows; 6] = [
    (2, 2, 1),
    (3, 4, 1),
    (7, 5, 1),
    (2, 5, 3),
    (7, 0, 2),
    (0, 9, 1),
];

// Where the variable is after two windows are exchanged.
fn exchanged_place(place: usize, (a, b, k): Windows) -> usize {
    if place >= a && place - a < k {
        b.saturating_add(place - a)
    } else if place >= b && place - b < k {
        a.saturating_add(place - b)
    } else {
        place
    }
}

// The point with the items of two windows exchanged.
fn exchanged<F: Field>(alloc: Global, point: &[F], windows: Windows) -> Result<Vec<F>, AllocError> {
    let mut exchanged = Vec::new(alloc);
    for place in 0..point.len() {
        let item = point.get(exchanged_place(place, windows));
        exchanged.push(item.copied().unwrap_or(F::zero()))?;
    }
    Ok(exchanged)
}

// The extension with the windows exchanged, where they fit.
fn relabelled<F: Field, E: MultilinearExtension<F>>(
    alloc: Global,
    p: &E,
    (a, b, k): Windows,
) -> Option<E> {
    if !p.relabel_fits(a, b, k) {
        return None;
    }
    p.relabel(alloc, a, b, k).ok()
}

// Whether a draw of ten variables keeps its value at a drawn point when windows are exchanged in both.
fn keeps_value<F: Field, E: MultilinearExtension<F>>(alloc: Global, rng: &mut Pcg64) -> bool {
    let (Some(mut p), Ok(mut point)) = (
        drawn::<F, E>(alloc, rng, 10),
        drawn_elements(alloc, rng, 10),
    ) else {
        return false;
    };
    let known = value(alloc, &p, &point);
    let mut right = known.is_some();
    for windows in WINDOWS {
        let (Some(turned), Ok(items)) = (
            relabelled(alloc, &p, windows),
            exchanged(alloc, &point, windows),
        ) else {
            return false;
        };
        p = turned;
        point = items;
        right = right && value(alloc, &p, &point) == known;
    }
    right
}

/// Draws of both forms.
pub fn windows<F: Field>(alloc: Global) -> bool {
    let mut rng = Pcg64::new(72, 1);
    let mut right = true;
    for _ in 0..20 {
        right = right
            && keeps_value::<F, DenseMultilinearExtension<F>>(alloc, &mut rng)
            && keeps_value::<F, SparseMultilinearExtension<F>>(alloc, &mut rng);
    }
    right
}
