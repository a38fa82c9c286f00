//! Sums of products over the cube: proofs in bytes, and what a verifier is left with.

ghost use Rattle.std.specs.Prelude.{◌≡◌, ◌≢◌, ◌↔◌, ◌⊎◌, ◌<◌, ◌≤◌, ℕ, List, Err, IfErr, IsNone, IsSomeAnd};
ghost use Rattle.std.specs.Prelude.{OnErr, OnOk};
ghost use Rattle.ark_math.specs.Words.{number_of_words};
ghost use Rattle.ark_sum_check.specs.Cube.{Product};
ghost use Rattle.ark_words.specs.Numbers.{AreReduced};
ghost use Rattle.ark_word_sums.specs.Challenges.{element_words};
ghost use Rattle.ark_word_sums.specs.Proofs.{FitProver, FitValue, FitVerifier, HasProof, IsReducedTo};
ghost use Rattle.ark_word_sums.specs.Proofs.{IsSumValue, ProvesSum, claim_by, size_of_proof};
ghost use Rattle.ark_word_sums.specs.Sums.{AreAddends, HasSum, IsCubeSum, IsReducedSum, IsShape};
ghost use Rattle.ark_c.specs.Names.{field_named};
ghost use Rattle.ark_c.specs.SumFields.{place_of};

use crate::fields::{NamedFields, SumFields};
use crate::status::sum_status;
use ark_fields::{BabyBear, Goldilocks, KoalaBear};
use ark_prime256::{Bls12_381Scalar, Bn254Scalar};
use ark_word_sums::{SumElement, SumNumbers, proof_size, prove, value_at, verify};
use std::alloc::Global;

/// Answers what a call over the field that a number names for sums answers, and 2 where it names none.
macro_rules! answer_over_sums {
    ($field:expr, $call:ident($($argument:expr),*)) => {
        match $field {
            2013265921 => return $call::<BabyBear>($($argument),*),
            2130706433 => return $call::<KoalaBear>($($argument),*),
            18446744069414584321 => return $call::<Goldilocks>($($argument),*),
            254 => return $call::<Bn254Scalar>($($argument),*),
            12381 => return $call::<Bls12_381Scalar>($($argument),*),
            _ => return 2,
        }
    };
}

/// How many words spell an element of the field of the challenges, and 0 where the number names no field for
/// sums. All calls over sums are over the field that the number names for the other calls, too.
#[unsafe(no_mangle)]
pub extern "C" fn ark_challenge_words(field: u64) -> usize
    ensures words { result ≢ 0 → ⟦<SumFields as NamedFields>⟧.over field (λ _ c. result ≡ element_words c) }
    ensures field { result ≢ 0 → IsSomeAnd (field_named field) (λ f.
        ⟦<SumFields as NamedFields>⟧.over field (λ _ c. c.spelled ≡ f)) }
    ensures no_field { (result ≡ 0) ↔ IsNone (place_of field) }
{
    match field {
        2013265921 => return BabyBear::challenge_width(),
        2130706433 => return KoalaBear::challenge_width(),
        18446744069414584321 => return Goldilocks::challenge_width(),
        254 => return Bn254Scalar::challenge_width(),
        12381 => return Bls12_381Scalar::challenge_width(),
        _ => return 0,
    }
}

/// Writes how many bytes a proof has of a sum of so many variables, by rounds of this degree.
#[unsafe(no_mangle)]
pub extern "C" fn ark_sum_proof_size(field: u64, num_vars: u32, degree: u32, size: &mut u64) -> u32
    ensures size { result ≡ 0 → ⟦<SumFields as NamedFields>⟧.over field (λ _ c.
        size.new ≡ size_of_proof c num_vars degree) }
    ensures kept { result ≢ 0 → size.new ≡ size.old }
    ensures no_field { (result ≡ 2) ↔ IsNone (place_of field) }
    ensures length { (result ≡ 3)
        ↔ ⟦<SumFields as NamedFields>⟧.over field (λ _ _. ¬ IsShape num_vars degree) }
    ensures no_other { (result ≡ 0) ⊎ ((result ≡ 2) ⊎ (result ≡ 3)) }
{
    answer_over_sums!(field, sized(num_vars, degree, size))
}

// Writes how many bytes a proof has, or answers 3 where there is no such shape.
fn sized<F: SumElement>(num_vars: u32, degree: u32, size: &mut u64) -> u32
    ensures size { result ≡ 0 → size.new ≡ size_of_proof ⟦<F as SumNumbers>⟧.checked num_vars degree }
    ensures kept { result ≢ 0 → size.new ≡ size.old }
    ensures length { (result ≡ 3) ↔ (¬ IsShape num_vars degree) }
    ensures no_other { (result ≡ 0) ⊎ (result ≡ 3) }
{
    match proof_size::<F>(num_vars, degree) {
        Some(found) => {
            *size = found as u64;
            0
        }
        None => 3,
    }
}

/// Writes the sum over the cube of a sum of products of tables, and a proof of it in bytes, which
/// `ark_sum_verify` accepts with the same label and statement.
#[unsafe(no_mangle)]
pub extern "C" fn ark_sum_prove(
    alloc: Global,
    field: u64,
    label: &[u8],
    statement: &[u8],
    num_vars: u32,
    degree: u32,
    tables: &[u64],
    addends: &[u64],
    proof: &mut [u8],
    sum: &mut [u64],
) -> u32
    ensures sum { result ≡ 0 → ⟦<SumFields as NamedFields>⟧.over field (λ _ c. (ps : List (Product ℕ))
        → AreAddends c.spelled ps addends.now → IsCubeSum c.spelled num_vars tables.now ps sum.new) }
    ensures proof { result ≡ 0 → ⟦<SumFields as NamedFields>⟧.over field (λ _ c. (ps : List (Product ℕ))
        → AreAddends c.spelled ps addends.now
        → ProvesSum c label.now statement.now num_vars degree tables.now ps sum.new proof.new) }
    ensures kept { result ≢ 0 → (proof.new ≡ proof.old) × (sum.new ≡ sum.old) }
    ensures taken { result ≡ 0 → ⟦<SumFields as NamedFields>⟧.over field (λ _ c.
        FitProver c num_vars degree tables.now proof.old sum.old
        × IsReducedSum c.spelled num_vars degree tables.now addends.now) }
    ensures no_field { (result ≡ 2) ↔ IsNone (place_of field) }
    ensures length { (result ≡ 3) ↔ ⟦<SumFields as NamedFields>⟧.over field (λ _ c.
        ¬ FitProver c num_vars degree tables.now proof.old sum.old) }
    ensures addends { (result ≡ 12) ↔ ⟦<SumFields as NamedFields>⟧.over field (λ _ c.
        FitProver c num_vars degree tables.now proof.old sum.old
        × (¬ HasSum c.spelled num_vars degree tables.now addends.now)) }
    ensures not_reduced { (result ≡ 4) ↔ ⟦<SumFields as NamedFields>⟧.over field (λ _ c.
        FitProver c num_vars degree tables.now proof.old sum.old
        × HasSum c.spelled num_vars degree tables.now addends.now
        × (¬ IsReducedSum c.spelled num_vars degree tables.now addends.now)) }
    ensures no_other { (result ≤ 4) ⊎ (result ≡ 12) }
{
    answer_over_sums!(
        field,
        proved(
            alloc, label, statement, num_vars, degree, tables, addends, proof, sum
        )
    )
}

// `prove`, by the number of its outcome.
fn proved<F: SumElement>(
    alloc: Global,
    label: &[u8],
    statement: &[u8],
    num_vars: u32,
    degree: u32,
    tables: &[u64],
    addends: &[u64],
    proof: &mut [u8],
    sum: &mut [u64],
) -> u32
    ensures sum { result ≡ 0 → (ps : List (Product ℕ)) → AreAddends F.spelled ps addends.now
        → IsCubeSum F.spelled num_vars tables.now ps sum.new }
    ensures proof { result ≡ 0 → (ps : List (Product ℕ)) → AreAddends F.spelled ps addends.now
        → ProvesSum ⟦<F as SumNumbers>⟧.checked label.now statement.now num_vars degree tables.now ps sum.new
        proof.new }
    ensures kept { result ≢ 0 → (proof.new ≡ proof.old) × (sum.new ≡ sum.old) }
    ensures taken { result ≡ 0
        → FitProver ⟦<F as SumNumbers>⟧.checked num_vars degree tables.now proof.old sum.old
        × IsReducedSum F.spelled num_vars degree tables.now addends.now }
    ensures named { result ≢ 2 }
    ensures length { (result ≡ 3)
        ↔ (¬ FitProver ⟦<F as SumNumbers>⟧.checked num_vars degree tables.now proof.old sum.old) }
    ensures addends { (result ≡ 12)
        ↔ (FitProver ⟦<F as SumNumbers>⟧.checked num_vars degree tables.now proof.old sum.old
        × (¬ HasSum F.spelled num_vars degree tables.now addends.now)) }
    ensures not_reduced { (result ≡ 4)
        ↔ (FitProver ⟦<F as SumNumbers>⟧.checked num_vars degree tables.now proof.old sum.old
        × HasSum F.spelled num_vars degree tables.now addends.now
        × (¬ IsReducedSum F.spelled num_vars degree tables.now addends.now)) }
    ensures no_other { (result ≤ 4) ⊎ (result ≡ 12) }
{
    sum_status(Some(prove::<F>(
        alloc, label, statement, num_vars, degree, tables, addends, proof, sum,
    )))
}

/// Whether the bytes are a proof of the sum, as `ark_sum_prove` writes it. Then it writes the point, and the
/// value that the sum of products has to have there.
#[unsafe(no_mangle)]
pub extern "C" fn ark_sum_verify(
    alloc: Global,
    field: u64,
    label: &[u8],
    statement: &[u8],
    num_vars: u32,
    degree: u32,
    sum: &[u64],
    proof: &[u8],
    point: &mut [u64],
    value: &mut [u64],
) -> u32
    ensures reduced { result ≡ 0 → ⟦<SumFields as NamedFields>⟧.over field (λ _ c.
        IsReducedTo c label.now statement.now (claim_by c num_vars degree (number_of_words sum.now)) proof.now
        point.new value.new) }
    ensures refused { result ≡ 13 → ⟦<SumFields as NamedFields>⟧.over field (λ _ c.
        ¬ HasProof c label.now statement.now (claim_by c num_vars degree (number_of_words sum.now))
        proof.now) }
    ensures kept { result ≢ 0 → (point.new ≡ point.old) × (value.new ≡ value.old) }
    ensures taken { result ≡ 0 → ⟦<SumFields as NamedFields>⟧.over field (λ _ c.
        FitVerifier c num_vars degree sum.now proof.now point.old value.old
        × (number_of_words sum.now < c.spelled.known.modulus)) }
    ensures no_field { (result ≡ 2) ↔ IsNone (place_of field) }
    ensures length { (result ≡ 3) ↔ ⟦<SumFields as NamedFields>⟧.over field (λ _ c.
        ¬ FitVerifier c num_vars degree sum.now proof.now point.old value.old) }
    ensures not_reduced { (result ≡ 4) ↔ ⟦<SumFields as NamedFields>⟧.over field (λ _ c.
        FitVerifier c num_vars degree sum.now proof.now point.old value.old
        × (¬ (number_of_words sum.now < c.spelled.known.modulus))) }
    ensures no_other { (result ≤ 4) ⊎ (result ≡ 13) }
{
    answer_over_sums!(
        field,
        verified(
            alloc, label, statement, num_vars, degree, sum, proof, point, value
        )
    )
}

// `verify`, by the number of its outcome.
fn verified<F: SumElement>(
    alloc: Global,
    label: &[u8],
    statement: &[u8],
    num_vars: u32,
    degree: u32,
    sum: &[u64],
    proof: &[u8],
    point: &mut [u64],
    value: &mut [u64],
) -> u32
    ensures reduced { result ≡ 0 → IsReducedTo ⟦<F as SumNumbers>⟧.checked label.now statement.now
        (claim_by ⟦<F as SumNumbers>⟧.checked num_vars degree (number_of_words sum.now)) proof.now
        point.new value.new }
    ensures refused { result ≡ 13 → ¬ HasProof ⟦<F as SumNumbers>⟧.checked label.now statement.now
        (claim_by ⟦<F as SumNumbers>⟧.checked num_vars degree (number_of_words sum.now)) proof.now }
    ensures kept { result ≢ 0 → (point.new ≡ point.old) × (value.new ≡ value.old) }
    ensures taken { result ≡ 0
        → FitVerifier ⟦<F as SumNumbers>⟧.checked num_vars degree sum.now proof.now point.old value.old
        × (number_of_words sum.now < F.spelled.known.modulus) }
    ensures named { result ≢ 2 }
    ensures length { (result ≡ 3)
        ↔ (¬ FitVerifier ⟦<F as SumNumbers>⟧.checked num_vars degree sum.now proof.now point.old value.old) }
    ensures not_reduced { (result ≡ 4)
        ↔ (FitVerifier ⟦<F as SumNumbers>⟧.checked num_vars degree sum.now proof.now point.old value.old
        × (¬ (number_of_words sum.now < F.spelled.known.modulus))) }
    ensures no_other { (result ≤ 4) ⊎ (result ≡ 13) }
{
    sum_status(Some(verify::<F>(
        alloc, label, statement, num_vars, degree, sum, proof, point, value,
    )))
}

/// Writes the value of the sum of products at a point: what `ark_sum_verify` leaves to check.
#[unsafe(no_mangle)]
pub extern "C" fn ark_sum_value(
    alloc: Global,
    field: u64,
    num_vars: u32,
    degree: u32,
    tables: &[u64],
    addends: &[u64],
    point: &[u64],
    value: &mut [u64],
) -> u32
    ensures value { result ≡ 0 → ⟦<SumFields as NamedFields>⟧.over field (λ _ c. (ps : List (Product ℕ))
        → AreAddends c.spelled ps addends.now → IsSumValue c num_vars tables.now ps point.now value.new) }
    ensures kept { result ≢ 0 → value.new ≡ value.old }
    ensures taken { result ≡ 0 → ⟦<SumFields as NamedFields>⟧.over field (λ _ c.
        FitValue c num_vars degree tables.now point.now value.old
        × IsReducedSum c.spelled num_vars degree tables.now addends.now × AreReduced c.spelled point.now) }
    ensures no_field { (result ≡ 2) ↔ IsNone (place_of field) }
    ensures length { (result ≡ 3) ↔ ⟦<SumFields as NamedFields>⟧.over field (λ _ c.
        ¬ FitValue c num_vars degree tables.now point.now value.old) }
    ensures addends { (result ≡ 12) ↔ ⟦<SumFields as NamedFields>⟧.over field (λ _ c.
        FitValue c num_vars degree tables.now point.now value.old
        × (¬ HasSum c.spelled num_vars degree tables.now addends.now)) }
    ensures not_reduced { (result ≡ 4) ↔ ⟦<SumFields as NamedFields>⟧.over field (λ _ c.
        FitValue c num_vars degree tables.now point.now value.old
        × HasSum c.spelled num_vars degree tables.now addends.now
        × (¬ (IsReducedSum c.spelled num_vars degree tables.now addends.now
        × AreReduced c.spelled point.now))) }
    ensures no_other { (result ≤ 4) ⊎ (result ≡ 12) }
{
    answer_over_sums!(
        field,
        valued(alloc, num_vars, degree, tables, addends, point, value)
    )
}

// `value_at`, by the number of its outcome.
fn valued<F: SumElement>(
    alloc: Global,
    num_vars: u32,
    degree: u32,
    tables: &[u64],
    addends: &[u64],
    point: &[u64],
    value: &mut [u64],
) -> u32
    ensures value { result ≡ 0 → (ps : List (Product ℕ)) → AreAddends F.spelled ps addends.now
        → IsSumValue ⟦<F as SumNumbers>⟧.checked num_vars tables.now ps point.now value.new }
    ensures kept { result ≢ 0 → value.new ≡ value.old }
    ensures taken { result ≡ 0
        → FitValue ⟦<F as SumNumbers>⟧.checked num_vars degree tables.now point.now value.old
        × IsReducedSum F.spelled num_vars degree tables.now addends.now × AreReduced F.spelled point.now }
    ensures named { result ≢ 2 }
    ensures length { (result ≡ 3)
        ↔ (¬ FitValue ⟦<F as SumNumbers>⟧.checked num_vars degree tables.now point.now value.old) }
    ensures addends { (result ≡ 12)
        ↔ (FitValue ⟦<F as SumNumbers>⟧.checked num_vars degree tables.now point.now value.old
        × (¬ HasSum F.spelled num_vars degree tables.now addends.now)) }
    ensures not_reduced { (result ≡ 4)
        ↔ (FitValue ⟦<F as SumNumbers>⟧.checked num_vars degree tables.now point.now value.old
        × HasSum F.spelled num_vars degree tables.now addends.now
        × (¬ (IsReducedSum F.spelled num_vars degree tables.now addends.now
        × AreReduced F.spelled point.now))) }
    ensures no_other { (result ≤ 4) ⊎ (result ≡ 12) }
{
    sum_status(Some(value_at::<F>(alloc, num_vars, degree, tables, addends, point, value)))
}
