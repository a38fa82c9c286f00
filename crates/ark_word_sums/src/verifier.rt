//! What a verifier says of a proof in bytes.

ghost use Rattle.std.specs.Prelude.{◌≡◌, ◌↔◌, ◌⊎◌, ◌<◌, ◌^◌, List, Err, IfErr, IfOk, IsTrue, OnErr, OnOk};
ghost use Rattle.ark_math.specs.Words.{number_of_words};
ghost use Rattle.ark_word_sums.specs.Faults.{IsOfProofs};
ghost use Rattle.ark_sum_check.specs.Rounds.{Round, challenges};
ghost use Rattle.ark_word_sums.specs.Proofs.{FitVerifier, HasProof, IsProof, IsReducedTo, claim_by};

use crate::element::{SumElement, SumNumbers};
use crate::error::SumsError;
use crate::proofs::{proof_of, proof_size, transcript_of};
use crate::words::{put_challenge, put_challenges};
use ark_extensions::ExtensionOf;
use ark_fiat_shamir::verify_transcript;
use ark_sum_check::{Claim, SumCheckError, Verdict};
use std::alloc::Global;

/// Whether the bytes are a proof that the sum over the cube of a sum of products, of so many variables and
/// this degree, is this number, as `prove` writes it with the same label and statement. Then it writes what
/// is left to check: that at this point, of `num_vars` elements of the field of the challenges, the sum of
/// products has this value.
///
/// The errors are judged in this order: `Length` where there are more variables than 63, the degree is none
/// of 1 to 65535, the sum's words aren't one number, the proof hasn't `proof_size` bytes, or point and value
/// haven't `num_vars` elements and one, each of `challenge_width` words; `NotReduced` where the sum isn't
/// below the modulus; `Refused` where the bytes are no proof of it; `Memory` where the former two don't hold.
pub fn verify<F: SumElement>(
    alloc: Global,
    label: &[u8],
    statement: &[u8],
    num_vars: u32,
    degree: u32,
    sum: &[u64],
    proof: &[u8],
    point: &mut [u64],
    value: &mut [u64],
) -> Result<(), SumsError>
    ensures reduced { OnOk result (IsReducedTo ⟦<F as SumNumbers>⟧.checked label.now statement.now
        (claim_by ⟦<F as SumNumbers>⟧.checked num_vars degree (number_of_words sum.now)) proof.now point.new
        value.new) }
    ensures refused { result ≡ Err SumsError.Refused
        → ¬ HasProof ⟦<F as SumNumbers>⟧.checked label.now statement.now
        (claim_by ⟦<F as SumNumbers>⟧.checked num_vars degree (number_of_words sum.now)) proof.now }
    ensures kept { OnErr result ((point.new ≡ point.old) × (value.new ≡ value.old)) }
    ensures taken { OnOk result (
        FitVerifier ⟦<F as SumNumbers>⟧.checked num_vars degree sum.now proof.now point.old value.old
        × (number_of_words sum.now < F.spelled.known.modulus)) }
    ensures length { (result ≡ Err SumsError.Length)
        ↔ (¬ FitVerifier ⟦<F as SumNumbers>⟧.checked num_vars degree sum.now proof.now point.old value.old) }
    ensures not_reduced { (result ≡ Err SumsError.NotReduced)
        ↔ (FitVerifier ⟦<F as SumNumbers>⟧.checked num_vars degree sum.now proof.now point.old value.old
        × (¬ (number_of_words sum.now < F.spelled.known.modulus))) }
    ensures no_other { IfErr result IsOfProofs }
{
    if !is_fit::<F>(num_vars, degree, sum, proof, point, value) {
        return Err(SumsError::Length);
    }
    let Some(total) = F::from_words(sum) else {
        return Err(SumsError::NotReduced);
    };
    let claim = Claim {
        num_vars: num_vars as usize,
        degree: degree as usize,
        sum: F::Challenge::embed(total),
    };
    let (last, challenges) = reduction::<F>(alloc, label, statement, claim, proof)?;
    put_challenges::<F>(point, &challenges);
    put_challenge::<F>(value, &last);
    Ok(())
}

// Whether the number of a sum, a proof, and the places of what is left have their lengths.
fn is_fit<F: SumElement>(
    num_vars: u32,
    degree: u32,
    sum: &[u64],
    proof: &[u8],
    point: &[u64],
    value: &[u64],
) -> bool
    ensures { IsTrue result ↔ FitVerifier ⟦<F as SumNumbers>⟧.checked num_vars degree sum.now proof.now
        point.now value.now }
{
    let width = F::challenge_width();
    proof_size::<F>(num_vars, degree) == Some(proof.len())
        && sum.len() == F::WIDTH
        && point.len() == num_vars as usize * width
        && value.len() == width
}

// What a proof in bytes reduces a claim to: the last claim, and the challenges.
fn reduction<F: SumElement>(
    alloc: Global,
    label: &[u8],
    statement: &[u8],
    claim: Claim<F::Challenge>,
    proof: &[u8],
) -> Result<(F::Challenge, Vec<F::Challenge>), SumsError>
    requires variables { claim.num_vars < 64 }
    requires degree { claim.degree < 2 ^ 16 }
    ensures reduced { IfOk result (λ left. (rounds : List (Round F.Challenge))
        × IsProof ⟦<F as SumNumbers>⟧.checked label.now statement.now claim proof.now rounds left.0
        × (challenges rounds ≡ left.1.items)) }
    ensures refused { result ≡ Err SumsError.Refused
        → ¬ HasProof ⟦<F as SumNumbers>⟧.checked label.now statement.now claim proof.now }
    ensures errors { IfErr result (λ e. (e ≡ SumsError.Memory) ⊎ (e ≡ SumsError.Refused)) }
{
    let read = proof_of::<F::Challenge>(alloc, proof)?;
    let mut transcript = transcript_of(label, statement);
    let verdict = match verify_transcript(alloc, claim, &read, &mut transcript) {
        Ok(verdict) => verdict,
        Err(SumCheckError::Memory) => return Err(SumsError::Memory),
        // No degree below 2^16 reaches the characteristic.
        Err(SumCheckError::SmallCharacteristic) => unreachable!(),
    };
    let Verdict::Reduced(last, challenges) = verdict else {
        return Err(SumsError::Refused);
    };
    Ok((last, challenges))
}
