//! Drawn coefficients.

ghost use Rattle.std.specs.Prelude.{◌≡◌, ◌≢◌, ◌+◌, ◌<◌, length, OnOk, IfOk, IfSome, IsNone};
ghost use Rattle.ark_math.specs.Univariate.{IsTrimmed};

use ark_traits::Field;
use rand::Rng;
use std::alloc::{AllocError, Global};

/// Adds this many drawn items at the end.
pub fn push_drawn<F: Field, R: Rng>(
    items: &mut Vec<F>,
    count: usize,
    rng: &mut R,
) -> Result<(), AllocError>
    ensures { OnOk result (length items.new.items ≡ length items.old.items + count) }
{
    for _ in 0..count {
        items.push(F::rand(rng))?;
    }
    Ok(())
}

// The first of at most `tries` draws that isn't zero.
fn drawn_nonzero<F: Field, R: Rng>(rng: &mut R, tries: usize) -> Option<F>
    ensures nonzero { IfSome result (λ x. x ≢ F.field.zero) }
    ensures spent { tries ≡ 0 → IsNone result }
{
    for _ in 0..tries {
        let item = F::rand(rng);
        if !item.is_zero() {
            return Some(item);
        }
    }
    None
}

/// Coefficients of a polynomial of this degree: the lower ones as they are drawn, then the first of at most
/// `tries` draws for the leading one that isn't zero, and `None` where these are spent. Memory is taken once,
/// before any draw.
pub fn drawn<F: Field, R: Rng>(
    alloc: Global,
    degree: usize,
    rng: &mut R,
    tries: usize,
) -> Result<Option<Vec<F>>, AllocError>
    requires { degree < usize.MAX }
    ensures trimmed { IfOk result (λ drawn. IfSome drawn (λ c. IsTrimmed F.field c.items)) }
    ensures len { IfOk result (λ drawn. IfSome drawn (λ c. length c.items ≡ degree + 1)) }
    ensures spent { tries ≡ 0 → IfOk result (λ drawn. IsNone drawn) }
{
    let mut coeffs = Vec::with_capacity(alloc, degree + 1)?;
    push_drawn(&mut coeffs, degree, rng)?;
    let Some(leading) = drawn_nonzero(rng, tries) else {
        return Ok(None);
    };
    coeffs.push(leading)?;
    Ok(Some(coeffs))
}
