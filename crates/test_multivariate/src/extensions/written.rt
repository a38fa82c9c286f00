//! Drawn extensions that are written, and read from their bytes.

use crate::extensions::forms::drawn;
use ark_base::{Field, IoSink, IoSource};
use ark_multi::multilinear::{
    DenseMultilinearExtension, MultilinearExtension, SparseMultilinearExtension,
};
use rand_pcg::Pcg64;
use std::alloc::Global;
use test_types::sums::value;
use test_types::trials::drawn_elements;

// The extension that is read from the bytes of this one.
fn read_back<F: Field, E: MultilinearExtension<F>>(alloc: Global, p: &E) -> Option<E> {
    let mut sink = IoSink::new(Vec::new(alloc));
    p.serialize_compressed(&mut sink).ok()?;
    let bytes = sink.into_inner();
    E::deserialize_compressed(alloc, &mut IoSource::new(bytes.as_slice())).ok()
}

// Whether a draw of ten variables is read back as an equal one, with its value at a drawn point.
fn draw_comes_back<F: Field, E: MultilinearExtension<F>>(alloc: Global, rng: &mut Pcg64) -> bool {
    let (Some(p), Ok(point)) = (
        drawn::<F, E>(alloc, rng, 10),
        drawn_elements(alloc, rng, 10),
    ) else {
        return false;
    };
    let Some(read) = read_back::<F, E>(alloc, &p) else {
        return false;
    };
    let known = value(alloc, &p, &point);
    known.is_some() && read == p && value(alloc, &read, &point) == known
}

/// Draws of both forms.
pub fn draws<F: Field>(alloc: Global) -> bool {
    let mut rng = Pcg64::new(73, 1);
    let mut right = true;
    for _ in 0..20 {
        right = right
            && draw_comes_back::<F, DenseMultilinearExtension<F>>(alloc, &mut rng)
            && draw_comes_back::<F, SparseMultilinearExtension<F>>(alloc, &mut rng);
    }
    right
}
