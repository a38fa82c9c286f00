//! Calls of sum-checks.

ghost use Rattle.std.specs.Prelude.{List, ℕ, OnOk};
ghost use Rattle.ark_math.specs.Words.{number_of_words};
ghost use Rattle.ark_sum_check.specs.Cube.{Product};
ghost use Rattle.ark_word_sums.specs.Proofs.{IsReducedTo, ProvesSum, claim_by};
ghost use Rattle.ark_word_sums.specs.Sums.{AreAddends};

use ark_word_sums::{SumElement, SumNumbers, SumsError, prove, verify};
use std::alloc::Global;

/// The proof of a sum.
pub fn proved<F: SumElement>(
    alloc: Global,
    label: &[u8],
    statement: &[u8],
    num_vars: u32,
    degree: u32,
    tables: &[u64],
    addends: &[u64],
    proof: &mut [u8],
    sum: &mut [u64],
) -> Result<(), SumsError>
    ensures { OnOk result ((ps : List (Product ℕ)) → AreAddends F.spelled ps addends.now
        → ProvesSum ⟦<F as SumNumbers>⟧.checked label.now statement.now num_vars degree tables.now ps sum.new
        proof.new) }
{
    prove::<F>(
        alloc, label, statement, num_vars, degree, tables, addends, proof, sum,
    )
}

/// What a proof reduces its sum to.
pub fn reduced<F: SumElement>(
    alloc: Global,
    label: &[u8],
    statement: &[u8],
    num_vars: u32,
    degree: u32,
    sum: &[u64],
    proof: &[u8],
    point: &mut [u64],
    value: &mut [u64],
) -> Result<(), SumsError>
    ensures { OnOk result (IsReducedTo ⟦<F as SumNumbers>⟧.checked label.now statement.now
        (claim_by ⟦<F as SumNumbers>⟧.checked num_vars degree (number_of_words sum.now)) proof.now point.new
        value.new) }
{
    verify::<F>(
        alloc, label, statement, num_vars, degree, sum, proof, point, value,
    )
}
