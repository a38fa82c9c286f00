//! Proofs of sums, and values of sums at points.

ghost use Rattle.std.specs.Prelude.{◌≡◌, ◌≢◌, ◌↔◌, ℕ, List, ◌*◌, ◌<◌, Err, IfErr, IfOk, IsTrue, OnErr, OnOk};
ghost use Rattle.std.specs.Prelude.{length};
ghost use Rattle.ark_numbers.specs.Fields.{operations};
ghost use Rattle.ark_sum_check.specs.Cube.{Product, cube_sum, sum_value};
ghost use Rattle.ark_words.specs.Numbers.{AreReduced};
ghost use Rattle.ark_word_sums.specs.Challenges.{AreElementsOf, element_words};
ghost use Rattle.ark_word_sums.specs.Faults.{IsOfSums, IsRefusalOfNumbers, IsSumFault};
ghost use Rattle.ark_word_sums.specs.Proofs.{FitProver, FitValue, IsSumValue, ProvesNumber, ProvesSum};
ghost use Rattle.ark_word_sums.specs.Proofs.{size_of_proof, sum_over};
ghost use Rattle.ark_word_sums.specs.Sums.{AreAddends, AreTables, HasSum, IsCubeSum, IsReducedSum, sum_by};

use crate::element::{SumElement, SumNumbers};
use crate::error::SumsError;
use crate::proofs::{bytes_of, proof_size, transcript_of};
use crate::sums::{prover_of, sum_by_round};
use crate::values::value_within;
use crate::words::{challenges, put_challenge};
use ark_fiat_shamir::prove_transcript_within_from;
use ark_words::{WordElement, are_reduced};
use std::alloc::Global;

/// Writes the sum over the cube of a sum of products of tables, and a proof of it in bytes: what `verify`
/// with the same label, statement and sum accepts, and reduces to the value of the same sum at a point, which
/// `value_at` writes too. `verify` gives the prover this point as well.
///
/// The tables have `2^num_vars` numbers each, and stand one after another. Each addend is its coefficient,
/// how many factors it has, and the indices of these factors' tables, and so one addend after another; a
/// table may come as a factor several times. The longest has `degree` factors; where no addend has one,
/// `degree` is 1. The challenges follow from the label, which names the protocol, and the statement: **bytes
/// that fix tables and addends**, as these or a commitment to them. Else a prover may choose tables after it
/// sees the challenges. It takes memory for the tables, for half of each in the field of the challenges, for
/// the addends and the proof.
///
/// The errors are judged in this order: `Length` where there are more variables than 63, the degree is none
/// of 1 to 65535, the tables aren't whole ones, the proof hasn't `proof_size` bytes, or the sum's words
/// aren't one number; `Addends` where the words of the addends spell no products of these tables of which the
/// longest has as many factors as the degree; `NotReduced` where a number of a table, or a coefficient, isn't
/// below the modulus; `Memory` where none of these holds.
pub fn prove<F: SumElement>(
    alloc: Global,
    label: &[u8],
    statement: &[u8],
    num_vars: u32,
    degree: u32,
    tables: &[u64],
    addends: &[u64],
    proof: &mut [u8],
    sum: &mut [u64],
) -> Result<(), SumsError>
    ensures sum { OnOk result ((ps : List (Product ℕ)) → AreAddends F.spelled ps addends.now
        → IsCubeSum F.spelled num_vars tables.now ps sum.new) }
    ensures proof { OnOk result ((ps : List (Product ℕ)) → AreAddends F.spelled ps addends.now
        → ProvesSum ⟦<F as SumNumbers>⟧.checked label.now statement.now num_vars degree tables.now ps sum.new
        proof.new) }
    ensures kept { OnErr result ((proof.new ≡ proof.old) × (sum.new ≡ sum.old)) }
    ensures taken { OnOk result (
        FitProver ⟦<F as SumNumbers>⟧.checked num_vars degree tables.now proof.old sum.old
        × IsReducedSum F.spelled num_vars degree tables.now addends.now) }
    ensures length { (result ≡ Err SumsError.Length)
        ↔ (¬ FitProver ⟦<F as SumNumbers>⟧.checked num_vars degree tables.now proof.old sum.old) }
    ensures addends { (result ≡ Err SumsError.Addends)
        ↔ (FitProver ⟦<F as SumNumbers>⟧.checked num_vars degree tables.now proof.old sum.old
        × (¬ HasSum F.spelled num_vars degree tables.now addends.now)) }
    ensures not_reduced { (result ≡ Err SumsError.NotReduced)
        ↔ (FitProver ⟦<F as SumNumbers>⟧.checked num_vars degree tables.now proof.old sum.old
        × HasSum F.spelled num_vars degree tables.now addends.now
        × (¬ IsReducedSum F.spelled num_vars degree tables.now addends.now)) }
    ensures no_other { IfErr result IsOfSums }
{
    if proof_size::<F>(num_vars, degree) != Some(proof.len())
        || !are_tables::<F>(num_vars, tables)
        || sum.len() != F::WIDTH
    {
        return Err(SumsError::Length);
    }
    let (total, bytes) = proof_of_sum::<F>(
        alloc, label, statement, num_vars, degree, tables, addends,
    )?;
    proof.copy_from_slice(&bytes);
    total.write_words(sum);
    Ok(())
}

// The sum over the cube, and its proof in bytes.
fn proof_of_sum<F: SumElement>(
    alloc: Global,
    label: &[u8],
    statement: &[u8],
    num_vars: u32,
    degree: u32,
    tables: &[u64],
    addends: &[u64],
) -> Result<(F, Vec<u8>), SumsError>
    requires few { num_vars < 64 }
    requires whole { AreTables F.spelled num_vars tables.now }
    ensures sum { IfOk result (λ made. (ps : List (Product ℕ)) → AreAddends F.spelled ps addends.now
        → F.numbering.number made.0
        ≡ cube_sum (operations F.spelled.known) num_vars (sum_by F.spelled num_vars tables.now ps)) }
    ensures proof { IfOk result (λ made. (ps : List (Product ℕ)) → AreAddends F.spelled ps addends.now
        → ProvesNumber ⟦<F as SumNumbers>⟧.checked label.now statement.now num_vars degree tables.now ps
        (F.numbering.number made.0) made.1.items) }
    ensures size { IfOk result (λ made. length made.1.items
        ≡ size_of_proof ⟦<F as SumNumbers>⟧.checked num_vars degree) }
    ensures taken { IfOk result (λ _. IsReducedSum F.spelled num_vars degree tables.now addends.now) }
    ensures fault { IfErr result (IsSumFault (HasSum F.spelled num_vars degree tables.now addends.now)
        (IsReducedSum F.spelled num_vars degree tables.now addends.now)) }
{
    let prover = prover_of::<F>(alloc, num_vars, degree, tables, addends)?;
    let first = prover.first_round(alloc)?;
    let total = sum_by_round(alloc, &prover, &first)?;
    let mut transcript = transcript_of(label, statement);
    let made = prove_transcript_within_from::<F, F::Challenge>(
        alloc,
        &prover,
        &first,
        total,
        &mut transcript,
    )?;
    let bytes = bytes_of(alloc, &made.proof)?;
    Ok((total, bytes))
}

/// Writes the value of a sum of products of tables, as `prove` takes it, at a point of the field of the
/// challenges, as `verify` writes it: the products of the values there of the tables' multilinear extensions,
/// added up. Where it is the value that `verify` left, the claim holds, but for few challenges.
///
/// The errors are those of `prove`, with `Length` where the point hasn't `num_vars` elements or the value
/// isn't one, each of `challenge_width` words, and `NotReduced` where a number of the point isn't below the
/// modulus, too.
pub fn value_at<F: SumElement>(
    alloc: Global,
    num_vars: u32,
    degree: u32,
    tables: &[u64],
    addends: &[u64],
    point: &[u64],
    value: &mut [u64],
) -> Result<(), SumsError>
    ensures value { OnOk result ((ps : List (Product ℕ)) → AreAddends F.spelled ps addends.now
        → IsSumValue ⟦<F as SumNumbers>⟧.checked num_vars tables.now ps point.now value.new) }
    ensures kept { OnErr result (value.new ≡ value.old) }
    ensures taken { OnOk result (
        FitValue ⟦<F as SumNumbers>⟧.checked num_vars degree tables.now point.now value.old
        × IsReducedSum F.spelled num_vars degree tables.now addends.now
        × AreReduced F.spelled point.now) }
    ensures length { (result ≡ Err SumsError.Length)
        ↔ (¬ FitValue ⟦<F as SumNumbers>⟧.checked num_vars degree tables.now point.now value.old) }
    ensures addends { (result ≡ Err SumsError.Addends)
        ↔ (FitValue ⟦<F as SumNumbers>⟧.checked num_vars degree tables.now point.now value.old
        × (¬ HasSum F.spelled num_vars degree tables.now addends.now)) }
    ensures not_reduced { (result ≡ Err SumsError.NotReduced)
        ↔ (FitValue ⟦<F as SumNumbers>⟧.checked num_vars degree tables.now point.now value.old
        × HasSum F.spelled num_vars degree tables.now addends.now
        × (¬ (IsReducedSum F.spelled num_vars degree tables.now addends.now
        × AreReduced F.spelled point.now))) }
    ensures no_other { IfErr result IsOfSums }
{
    let width = F::challenge_width();
    if proof_size::<F>(num_vars, degree).is_none()
        || !are_tables::<F>(num_vars, tables)
        || point.len() != num_vars as usize * width
        || value.len() != width
    {
        return Err(SumsError::Length);
    }
    let found = value_of_sum::<F>(alloc, num_vars, degree, tables, addends, point)?;
    put_challenge::<F>(value, &found);
    Ok(())
}

// The value at a point.
fn value_of_sum<F: SumElement>(
    alloc: Global,
    num_vars: u32,
    degree: u32,
    tables: &[u64],
    addends: &[u64],
    point: &[u64],
) -> Result<F::Challenge, SumsError>
    requires few { num_vars < 64 }
    requires whole { AreTables F.spelled num_vars tables.now }
    requires elements { length point.now ≡ num_vars * element_words ⟦<F as SumNumbers>⟧.checked }
    ensures value { IfOk result (λ found. (ps : List (Product ℕ)) → AreAddends F.spelled ps addends.now
        → (x : List F.Challenge) × AreElementsOf ⟦<F as SumNumbers>⟧.checked x point.now
        × (found ≡ sum_value F.Challenge.field
        (sum_over ⟦<F as SumNumbers>⟧.checked num_vars tables.now ps) x)) }
    ensures taken { IfOk result (λ _. IsReducedSum F.spelled num_vars degree tables.now addends.now
        × AreReduced F.spelled point.now) }
    ensures fault { IfErr result (IsSumFault (HasSum F.spelled num_vars degree tables.now addends.now)
        (IsReducedSum F.spelled num_vars degree tables.now addends.now × AreReduced F.spelled point.now)) }
{
    let prover = match prover_of::<F>(alloc, num_vars, degree, tables, addends) {
        Ok(prover) => prover,
        Err(error) => return Err(refusal_at::<F>(point, error)),
    };
    let point = challenges::<F>(alloc, point)?;
    Ok(value_within::<F, F::Challenge>(alloc, &prover, &point)?)
}

// This error, or where it is `Memory`, that a number of the point isn't below the modulus.
fn refusal_at<F: WordElement>(point: &[u64], error: SumsError) -> SumsError
    ensures memory { error ≡ SumsError.Memory
        → IsRefusalOfNumbers (AreReduced F.spelled point.now) result }
    ensures other { error ≢ SumsError.Memory → result ≡ error }
{
    if error == SumsError::Memory && !are_reduced::<F>(point) {
        SumsError::NotReduced
    } else {
        error
    }
}

// Whether the words are whole tables of so many variables, which are fewer than 64.
fn are_tables<F: WordElement>(num_vars: u32, words: &[u64]) -> bool
    requires { num_vars < 64 }
    ensures { IsTrue result ↔ AreTables F.spelled num_vars words.now }
{
    if words.len() % F::WIDTH != 0 {
        return false;
    }
    (words.len() / F::WIDTH) % (1usize << num_vars) == 0
}
