//! A sum-check from a claim on a sum to a claim on one value.

ghost use Rattle.std.specs.Prelude.{◌≡◌, length, IfOk, Vec};
ghost use Rattle.std.specs.declared.alloc.Global.{Global};
ghost use Rattle.ark_sum_check.specs.Cube.{cube_sum, sum_value};
ghost use Rattle.ark_sum_check.specs.Provers.{factor_of, sum_of, variables_of};
ghost use Rattle.ark_sum_check.specs.Rounds.{IsDetermined};

use ark_base::Field;
use ark_sum_check::{
    Challenger, Claim, Prover, SparseProver, SumCheckError, Verdict, prove, prove_sparse, verify,
};
use std::alloc::Global;

/// What a verifier says of a claim on the sum over the cube, when the prover follows the rounds and both draw
/// the same challenges, as from transcripts that begin alike. A true claim is reduced to the true value at as
/// many challenges as there are variables.
pub fn sum_check_whole<F: Field, C: Challenger<F>>(
    alloc: Global,
    prover: Prover<F>,
    sum: F,
    challenger: &mut C,
    verifier: &mut C,
) -> Result<Verdict<F>, SumCheckError>
    ensures { IsDetermined C.challenge_gives → challenger.old ≡ verifier.old
        → sum ≡ cube_sum F.field (variables_of prover) (sum_of F.field prover)
        → IfOk result (λ verdict. (point : Vec F Global) × (length point.items ≡ variables_of prover)
        × (verdict ≡ Verdict.Reduced (sum_value F.field (sum_of F.field prover) point.items) point)) }
{
    let claim = Claim {
        num_vars: prover.num_vars(),
        degree: prover.degree(),
        sum,
    };
    let proof = prove(alloc, prover, challenger)?;
    verify(alloc, claim, &proof.rounds, verifier)
}

/// A sum-check of one factor that is given by its entries: the verifier doesn't tell it from one that is given whole.
pub fn sum_check_of_entries<F: Field, C: Challenger<F>>(
    alloc: Global,
    prover: SparseProver<F>,
    sum: F,
    challenger: &mut C,
    verifier: &mut C,
) -> Result<Verdict<F>, SumCheckError>
    ensures { IsDetermined C.challenge_gives → challenger.old ≡ verifier.old
        → sum ≡ cube_sum F.field prover.variables (factor_of F.field prover)
        → IfOk result (λ verdict. (point : Vec F Global) × (length point.items ≡ prover.variables)
        × (verdict ≡ Verdict.Reduced (sum_value F.field (factor_of F.field prover) point.items) point)) }
{
    let claim = Claim {
        num_vars: prover.num_vars(),
        degree: 1,
        sum,
    };
    let proof = prove_sparse(alloc, prover, challenger)?;
    verify(alloc, claim, &proof.rounds, verifier)
}
