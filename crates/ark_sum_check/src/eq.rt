//! The table that makes a sum over the cube a value at a point.

ghost use Rattle.std.specs.Prelude.{◌≡◌, ℕ, ◌<◌, ◌^◌, [], ◌∷◌, length, IfOk, IsOkUnless};
ghost use Rattle.ark_math_variables.specs.Multilinear.{extension, weight};
ghost use Rattle.ark_math.specs.Univariate.{of_list};
ghost use Rattle.ark_sum_check.specs.Cube.{cube_sum, product_of};

use crate::error::SumCheckError;
use ark_tables::windows::weights;
use ark_traits::Field;
use std::alloc::Global;

/// The table of eq, the extension that is one where corner and point are the same, at this point: the value
/// at a corner is the product of the point's items where the corner's are one, and of one less each
/// elsewhere. The sum over the cube of its product with a factor is the factor's value at the point.
pub fn eq_table<F: Field>(alloc: Global, point: &[F]) -> Result<Vec<F>, SumCheckError>
    requires { length point.now < 64 }
    ensures length { IfOk result (λ eq. length eq.items ≡ 2 ^ length point.now) }
    ensures values { IfOk result (λ eq. (b : ℕ) → b < 2 ^ length point.now
        → of_list F.field eq.items b ≡ weight F.field point.now b) }
    ensures sum { IfOk result (λ eq. (t : ℕ → F) → cube_sum F.field (length point.now)
        (product_of F.field (of_list F.field eq.items ∷ t ∷ [])) ≡ extension F.field t point.now) }
    ensures memory { IsOkUnless result SumCheckError.Memory }
{
    match weights(alloc, point) {
        Ok(table) => Ok(table),
        Err(_) => Err(SumCheckError::Memory),
    }
}
