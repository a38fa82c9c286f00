//! A transform in parts: the columns as one block, and then the rows as one.

ghost use Rattle.std.specs.Prelude.{◌≡◌, length, map, IfOk};
ghost use Rattle.ark_math.specs.Domain.{radix2};
ghost use Rattle.ark_math.specs.Transform.{transform};
ghost use Rattle.ark_fft.specs.Coset.{coset_domain};
ghost use Rattle.ark_fft_parts.specs.Parts.{AreInParts, row};

use ark_base::{DomainCoeff, FftField, PolyError, Work};
use ark_fft_parts::{Parts, parts_make_the_transform};
use ark_fields::F65537;
use ark_poly::{EvaluationDomain, Radix2EvaluationDomain};
use std::alloc::Global;

/// The transform of a list of as many items as the whole domain has elements: item j of row i is item
/// i + r * j of it, where there are r rows.
pub fn transformed_in_parts<F: FftField, T: DomainCoeff<F>>(
    alloc: Global,
    parts: &Parts<F>,
    coeffs: &[T],
) -> Result<Vec<T>, PolyError>
    requires { length coeffs.now ≡ parts.now.whole.size }
    ensures { IfOk result (λ values. AreInParts T.group parts.now.column.size parts.now.row.size
        (transform F.field T.group (coset_domain radix2 parts.now.whole) (map T.meaning coeffs.now))
        (row T.group parts.now.row.size (map T.meaning values.items))) }
{
    let columns = parts.row.size as usize;
    let mut work = Work::new();
    let made = parts.columns(alloc, coeffs, columns, &mut work)?;
    let values = parts.rows(alloc, &made, 0, &mut work)?;
    parts_make_the_transform::<F, T>(parts);
    Ok(values)
}

/// The transform of 1, 2, .., 16 by four rows of four items, whose columns are its items in order.
pub fn sixteen_in_parts(alloc: Global) -> Result<Vec<F65537>, PolyError> {
    let domain = Radix2EvaluationDomain::<F65537>::new(16).ok_or(PolyError::NoDomain)?;
    let parts = Parts::new(domain.coset(), 2).ok_or(PolyError::NoDomain)?;
    let mut coeffs = Vec::with_capacity(alloc, 16)?;
    for i in 1..17 {
        coeffs.push(F65537::from(i))?;
    }
    if coeffs.len() as u64 != parts.whole.size {
        return Err(PolyError::NoDomain);
    }
    transformed_in_parts(alloc, &parts, &coeffs)
}
