//! Which refusals come, and when.

ghost use Rattle.std.specs.Prelude.{◌≡◌, ◌↔◌, Err, OnOk};
ghost use Rattle.ark_word_sums.specs.Proofs.{FitVerifier};
ghost use Rattle.ark_words.specs.Numbers.{AreTransformable, HaveLengths, HaveReduced};

use ark_word_sums::{SumElement, SumNumbers, SumsError, verify};
use ark_words::{WordElement, WordsError, fft, ifft};
use std::alloc::Global;

/// A transform, only where all numbers are below the modulus and the domain is there.
pub fn taken<F: WordElement>(
    alloc: Global,
    words: &mut [u64],
    offset: &[u64],
) -> Result<(), WordsError>
    ensures { OnOk result (AreTransformable F.spelled words.old offset.now) }
{
    fft::<F>(alloc, words, offset)
}

/// `NotReduced` exactly where the lengths are right and a number isn't below the modulus.
pub fn judged<F: WordElement>(
    alloc: Global,
    words: &mut [u64],
    offset: &[u64],
) -> Result<(), WordsError>
    ensures { (result ≡ Err WordsError.NotReduced)
        ↔ (HaveLengths F.spelled words.old offset.now × (¬ HaveReduced F.spelled words.old offset.now)) }
{
    ifft::<F>(alloc, words, offset)
}

/// `Length` exactly where a length is wrong.
pub fn measured<F: SumElement>(
    alloc: Global,
    label: &[u8],
    statement: &[u8],
    num_vars: u32,
    degree: u32,
    sum: &[u64],
    proof: &[u8],
    point: &mut [u64],
    value: &mut [u64],
) -> Result<(), SumsError>
    ensures { (result ≡ Err SumsError.Length)
        ↔ (¬ FitVerifier ⟦<F as SumNumbers>⟧.checked num_vars degree sum.now proof.now point.old value.old) }
{
    verify::<F>(
        alloc, label, statement, num_vars, degree, sum, proof, point, value,
    )
}
