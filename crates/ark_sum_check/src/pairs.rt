//! A round of two factors, in one pass over their tables: of all products the most common one.

ghost use Rattle.std.specs.Prelude.{◌≡◌, ℕ, ◌+◌, ◌*◌, ◌^◌, ◌≤◌, [], ◌∷◌, length, IfOk, IsOkUnless};
ghost use Rattle.ark_math.specs.Field.{natural};
ghost use Rattle.ark_math.specs.Module.{itself, sum_below};
ghost use Rattle.ark_math.specs.Univariate.{of_list};
ghost use Rattle.ark_sum_check.specs.Cube.{bound_to, product_of, sum_at};
ghost use Rattle.ark_sum_check.specs.Rounds.{IsTrueRound};

use crate::error::SumCheckError;
use ark_traits::Field;
use std::alloc::Global;

// The round of two factors by their tables, with 2^m corners left after it.
pub(crate) fn round_of_two<F: Field>(
    alloc: Global,
    left: &[F],
    right: &[F],
    half: usize,
) -> Result<Vec<F>, SumCheckError>
    requires few { half ≤ 2 ^ 62 }
    requires left { length left.now ≡ 2 * half }
    requires right { length right.now ≡ 2 * half }
    ensures truth { (m : ℕ) → half ≡ 2 ^ m → IfOk result (λ values. IsTrueRound F.field 2 m
        (product_of F.field (of_list F.field left.now ∷ of_list F.field right.now ∷ [])) values.items) }
    ensures memory { IsOkUnless result SumCheckError.Memory }
{
    let (zero, one, two) = sums_of_two(left, right, half);
    let mut values = Vec::with_capacity(alloc, 3)?;
    values.push(zero)?;
    values.push(one)?;
    values.push(two)?;
    Ok(values)
}

// The sums of the products of two tables where the first variable is zero, where it is one, and where it is
// two. At two a factor is as far from its value at one as this is from that at zero: no product is needed to
// bind it.
fn sums_of_two<F: Field>(left: &[F], right: &[F], half: usize) -> (F, F, F)
    requires few { half ≤ 2 ^ 62 }
    requires left { length left.now ≡ 2 * half }
    requires right { length right.now ≡ 2 * half }
    ensures zero { result.0 ≡ sum_below (itself F.field) half (λ c. sum_at F.field
        (product_of F.field (of_list F.field left.now ∷ of_list F.field right.now ∷ [])) (2 * c + 0)) }
    ensures one { result.1 ≡ sum_below (itself F.field) half (λ c. sum_at F.field
        (product_of F.field (of_list F.field left.now ∷ of_list F.field right.now ∷ [])) (2 * c + 1)) }
    ensures two { result.2 ≡ sum_below (itself F.field) half (sum_at F.field (bound_to F.field (natural F.field 2)
        (product_of F.field (of_list F.field left.now ∷ of_list F.field right.now ∷ [])))) }
{
    let mut zero = F::zero();
    let mut one = F::zero();
    let mut two = F::zero();
    for corner in 0..half {
        let (low, high) = (left[2 * corner], left[2 * corner + 1]);
        let (other_low, other_high) = (right[2 * corner], right[2 * corner + 1]);
        zero += low * other_low;
        one += high * other_high;
        two += (high + (high - low)) * (other_high + (other_high - other_low));
    }
    (zero, one, two)
}
