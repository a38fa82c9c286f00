//! A sum-check by words and bytes, by a caller that knows no type of a field: of three tables a, b and c,
//! that the products a * b and three times c add up to a sum.

ghost use Rattle.std.specs.Prelude.{◌≡◌, ◌⊎◌, ◌^◌, ◌<◌, List, ℕ, All, IfOk, true};
ghost use Rattle.ark_math.specs.Words.{number_of_words};
ghost use Rattle.ark_sum_check.specs.Cube.{Product};
ghost use Rattle.ark_word_sums.specs.Proofs.{IsUnluckyProof, ProvesSum};
ghost use Rattle.ark_word_sums.specs.Sums.{AreAddends, IsCubeSum};

use ark_fields::{BabyBear, Goldilocks, KoalaBear};
use ark_prime256::Bls12_381Scalar;
use ark_word_sums::{
    SumElement, SumNumbers, SumsError, honest_is_shown, proof_size, prove, shown_or_unlucky,
    value_at, verify,
};
use ark_words::WordElement;
use std::alloc::Global;
use std::io::Print;

/// Prints what prover and verifier give over four fields.
pub fn print_word_sums(rt: &impl Print, alloc: Global) -> anyhow::Result<()> {
    print_sum::<BabyBear>(rt, alloc, "BabyBear")?;
    print_sum::<KoalaBear>(rt, alloc, "KoalaBear")?;
    print_sum::<Goldilocks>(rt, alloc, "Goldilocks")?;
    print_sum::<Bls12_381Scalar>(rt, alloc, "scalars of BLS12-381")
}

/// Whether a verifier that has the tables is shown the sum: the bytes are a proof, and what it leaves is
/// true. Then the sum is that over the cube, or a round of the proof is unlucky. What `prove` wrote is shown.
fn is_shown<F: SumElement>(
    alloc: Global,
    label: &[u8],
    statement: &[u8],
    num_vars: u32,
    degree: u32,
    tables: &[u64],
    addends: &[u64],
    sum: &[u64],
    proof: &[u8],
) -> Result<bool, SumsError>
    ensures sum { IfOk result (λ shown. shown ≡ true
        → (ps : List (Product ℕ)) × AreAddends F.spelled ps addends.now
        × (IsCubeSum F.spelled num_vars tables.now ps sum.now
        ⊎ IsUnluckyProof ⟦<F as SumNumbers>⟧.checked label.now statement.now num_vars degree tables.now ps
        (number_of_words sum.now) proof.now)) }
    ensures honest { IfOk result (λ shown. (ps : List (Product ℕ)) → AreAddends F.spelled ps addends.now
        → ProvesSum ⟦<F as SumNumbers>⟧.checked label.now statement.now num_vars degree tables.now ps sum.now
        proof.now → shown ≡ true) }
{
    let width = F::challenge_width();
    let mut challenges = vec![in alloc; 0u64; (num_vars as usize).saturating_mul(width)]?;
    let mut left = vec![in alloc; 0u64; width]?;
    let mut own = vec![in alloc; 0u64; width]?;
    let point = challenges.as_mut_slice();
    let value = left.as_mut_slice();
    verify::<F>(
        alloc, label, statement, num_vars, degree, sum, proof, point, value,
    )?;
    let found = own.as_mut_slice();
    value_at::<F>(alloc, num_vars, degree, tables, addends, point, found)?;
    are_words(found);
    are_words(value);
    honest_is_shown::<F>();
    shown_or_unlucky::<F>();
    Ok(*found == *value)
}

// What lists of words hold.
fn are_words(words: &[u64])
    ensures { All (λ word. word < 2 ^ 64) words.now }
{
    let _ = words.len();
}

fn print_sum<F: SumElement>(rt: &impl Print, alloc: Global, name: &str) -> anyhow::Result<()> {
    let tables = numbers(alloc, F::WIDTH)?;
    let addends = product_and_multiple(alloc, F::WIDTH)?;
    let Some(size) = proof_size::<F>(2, 2) else {
        return Ok(());
    };
    let mut proof = vec![in alloc; 0u8; size]?;
    let mut sum = vec![in alloc; 0u64; F::WIDTH]?;
    prove::<F>(
        alloc, b"example", b"tables", 2, 2, &tables, &addends, &mut proof, &mut sum,
    )?;
    println!(rt; "{name}: {size} bytes, sum {}", sum[0])?;
    let shown = is_shown::<F>(
        alloc, b"example", b"tables", 2, 2, &tables, &addends, &sum, &proof,
    )?;
    let other = is_shown::<F>(
        alloc, b"example", b"others", 2, 2, &tables, &addends, &sum, &proof,
    );
    if let Some(byte) = proof.get_mut(30) {
        *byte ^= 1;
    }
    let changed = is_shown::<F>(
        alloc, b"example", b"tables", 2, 2, &tables, &addends, &sum, &proof,
    );
    println!(rt;
        "{name}: shown {shown}, of another statement {}, a byte changed {}",
        told(&other),
        told(&changed)
    )?;
    Ok(())
}

// Three tables of four numbers each: 1, 2, 5, 10 and so on.
fn numbers(alloc: Global, width: usize) -> anyhow::Result<Vec<u64>> {
    let mut tables = Vec::new(alloc);
    for i in 0..12u64 {
        push_number(&mut tables, width, i * i + 1)?;
    }
    Ok(tables)
}

// a * b + 3 * c, by the indices of the tables.
fn product_and_multiple(alloc: Global, width: usize) -> anyhow::Result<Vec<u64>> {
    let mut addends = Vec::new(alloc);
    push_number(&mut addends, width, 1)?;
    addends.extend_from_slice(&[2, 0, 1])?;
    push_number(&mut addends, width, 3)?;
    addends.extend_from_slice(&[1, 2])?;
    Ok(addends)
}

// A number in so many words, and one word at least.
fn push_number(words: &mut Vec<u64>, width: usize, number: u64) -> anyhow::Result<()> {
    words.push(number)?;
    for _i in 1..width {
        words.push(0)?;
    }
    Ok(())
}

fn told(outcome: &Result<bool, SumsError>) -> &'static str {
    match outcome {
        Ok(true) => "true",
        Ok(false) => "false",
        Err(SumsError::Memory) => "memory",
        Err(SumsError::Length) => "length",
        Err(SumsError::Addends) => "addends",
        Err(SumsError::NotReduced) => "not reduced",
        Err(SumsError::Refused) => "refused",
    }
}
