//! A prover, and its sum over the cube, from words.

ghost use Rattle.std.specs.Prelude.{◌≡◌, ◌≢◌, ◌↔◌, ℕ, List, ◌-◌, ◌*◌, ◌/◌, ◌^◌, ◌<◌, ◌≤◌, All, IfErr, IfOk};
ghost use Rattle.std.specs.Prelude.{IfSome, IsOkUnless, drop, length, map, max, take, Err};
ghost use Rattle.ark_sum_check.specs.Cube.{Product, cube_sum, degree_of, longest};
ghost use Rattle.ark_sum_check.specs.Embedded.{embedded_sum};
ghost use Rattle.ark_sum_check.specs.Provers.{sum_of, variables_of};
ghost use Rattle.ark_sum_check.specs.Rounds.{IsTrueRound};
ghost use Rattle.ark_words.specs.Numbers.{AreReduced, numbers};
ghost use Rattle.ark_word_sums.specs.Faults.{IsRefusalOfNumbers};
ghost use Rattle.ark_word_sums.specs.Read.{numbered, table_lists};
ghost use Rattle.ark_word_sums.specs.Sums.{AreAddends, AreCoefficients, AreTables, HasSum, IsReducedSum};
ghost use Rattle.ark_word_sums.specs.Sums.{IsSum};
ghost use Rattle.ark_word_sums.specs.Sums.{sum_by, table_count};

use crate::addends::{addends_of, are_addends, are_coefficients};
use crate::error::SumsError;
use ark_sum_check::{Prover, SumCheckError};
use ark_traits::Field;
use ark_words::{WordElement, are_reduced, elements};
use std::alloc::{AllocError, Global};

/// The prover of the sum that the words spell: a sum of products of tables of `2^num_vars` numbers each.
pub fn prover_of<F: WordElement>(
    alloc: Global,
    num_vars: u32,
    degree: u32,
    tables: &[u64],
    addends: &[u64],
) -> Result<Prover<F>, SumsError>
    requires few { num_vars < 64 }
    requires whole { AreTables F.spelled num_vars tables.now }
    ensures variables { IfOk result (λ prover. variables_of prover ≡ num_vars) }
    ensures degree { IfOk result (λ prover. max 1 (degree_of (sum_of F.field prover)) ≡ degree) }
    ensures sum { IfOk result (λ prover. (ps : List (Product ℕ)) → AreAddends F.spelled ps addends.now
        → embedded_sum F.numbering.number (sum_of F.field prover) ≡ sum_by F.spelled num_vars tables.now ps) }
    ensures taken { IfOk result (λ _. IsReducedSum F.spelled num_vars degree tables.now addends.now) }
    ensures addends { (result ≡ Err SumsError.Addends)
        ↔ (¬ HasSum F.spelled num_vars degree tables.now addends.now) }
    ensures refusal { HasSum F.spelled num_vars degree tables.now addends.now
        → IfErr result (IsRefusalOfNumbers (IsReducedSum F.spelled num_vars degree tables.now addends.now)) }
    ensures spelled { IfErr result (λ e. e ≢ SumsError.Addends
        → HasSum F.spelled num_vars degree tables.now addends.now) }
{
    let len = 1usize << num_vars;
    let count = tables.len() / F::WIDTH / len;
    if !are_addends::<F>(addends, count, degree as usize) {
        return Err(SumsError::Addends);
    }
    // Whatever stops the way there, the words tell why.
    let Ok(Some(prover)) = read_prover::<F>(alloc, num_vars, count, tables, addends) else {
        return Err(refusal_of_sum::<F>(tables, addends));
    };
    Ok(prover)
}

// The prover of the addends of so many tables.
fn read_prover<F: WordElement>(
    alloc: Global,
    num_vars: u32,
    count: usize,
    tables: &[u64],
    addends: &[u64],
) -> Result<Option<Prover<F>>, SumsError>
    requires few { num_vars < 64 }
    requires whole { length tables.now ≡ count * (2 ^ num_vars * F.WIDTH) }
    ensures variables { IfOk result (λ read. IfSome read (λ prover. variables_of prover ≡ num_vars)) }
    ensures sum { IfOk result (λ read. IfSome read (λ prover. (ps : List (Product ℕ))
        × AreAddends F.spelled ps addends.now × AreCoefficients F.spelled ps
        × (embedded_sum F.numbering.number (sum_of F.field prover) ≡ sum_by F.spelled num_vars tables.now ps))) }
    ensures reduced { IfOk result (λ read. AreReduced F.spelled tables.now) }
{
    let values = tables_of::<F>(alloc, tables, 1 << num_vars, count)?;
    let addends = addends_of::<F>(alloc, addends)?;
    Ok(Prover::of_sum(num_vars as usize, values, addends))
}

// So many tables of `len` numbers each, one after another.
fn tables_of<F: WordElement>(
    alloc: Global,
    words: &[u64],
    len: usize,
    count: usize,
) -> Result<Vec<Vec<F>>, SumsError>
    requires { length words.now ≡ count * (len * F.WIDTH) }
    ensures whole { IfOk result (λ tables. All (λ t. length t.items ≡ len) tables.items) }
    ensures tables { IfOk result (λ tables. map (λ t. map F.numbering.number t.items) tables.items
        ≡ table_lists len count (numbers F.WIDTH words.now)) }
{
    let mut tables = Vec::with_capacity(alloc, count)?;
    for i in 0..count {
        // The words of `len` numbers, which fit a word where there is a table.
        let size = words.len() / count;
        let table = elements::<F>(alloc, &words[i * size..(i + 1) * size])?;
        tables.push(table)?;
    }
    Ok(tables)
}

// Why there is no prover of these tables and addends, judged without memory.
fn refusal_of_sum<F: WordElement>(tables: &[u64], addends: &[u64]) -> SumsError
    ensures { (ps : List (Product ℕ)) → AreAddends F.spelled ps addends.now
        → IsRefusalOfNumbers (AreReduced F.spelled tables.now × AreCoefficients F.spelled ps) result }
{
    if are_reduced::<F>(tables) && are_coefficients::<F>(addends) {
        SumsError::Memory
    } else {
        SumsError::NotReduced
    }
}

/// The sum over the cube of a prover's sum, by its first round: the values at 0 and 1 add up to it.
pub fn sum_by_round<F: Field>(
    alloc: Global,
    prover: &Prover<F>,
    first: &[F],
) -> Result<F, SumCheckError>
    requires first { 0 < variables_of prover.now → IsTrueRound F.field
        (max 1 (degree_of (sum_of F.field prover.now))) (variables_of prover.now - 1)
        (sum_of F.field prover.now) first.now }
    ensures sum { IfOk result (λ sum. sum
        ≡ cube_sum F.field (variables_of prover.now) (sum_of F.field prover.now)) }
    ensures memory { IsOkUnless result SumCheckError.Memory }
{
    if prover.num_vars() == 0 {
        return prover.last_value(alloc);
    }
    Ok(first[0] + first[1])
}
