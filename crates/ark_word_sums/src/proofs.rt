//! Proofs in bytes.

ghost use Rattle.std.specs.Prelude.{◌≡◌, ◌≢◌, ◌↔◌, ◌⊎◌, ℕ, List, ◌+◌, ◌*◌, ◌^◌, ◌<◌, Err, IfErr, IfOk};
ghost use Rattle.std.specs.Prelude.{IfSome, IsNone, IsOkUnless, IsTrue, length, map};
ghost use Rattle.ark_bytes.specs.declared.compress.Compress.{Compress};
ghost use Rattle.ark_math_formats.specs.Format.{list};
ghost use Rattle.ark_fiat_shamir.specs.Sent.{sent};
ghost use Rattle.ark_word_sums.specs.Proofs.{begun, size_of_proof};
ghost use Rattle.ark_word_sums.specs.Sums.{IsShape};

use crate::element::{SumElement, SumNumbers};
use crate::error::SumsError;
use ark_bytes::{CanonicalDeserialize, CanonicalSerialize, Compress, IoSink, SerializationError};
use ark_fiat_shamir::SumCheckProof;
use ark_traits::{Field, Zero};
use ark_transcript::Transcript;
use std::alloc::Global;

// The label under which a statement is absorbed.
const STATEMENT: [u8; 9] = *b"statement";

/// How many bytes a proof has of a sum of so many variables, by rounds of this degree, and `None` where
/// there are more variables than 63, or the degree is none of 1 to 65535: a length, and for each variable a
/// length and `degree + 1` elements of the field of the challenges.
pub fn proof_size<F: SumElement>(num_vars: u32, degree: u32) -> Option<usize>
    ensures some { IfSome result (λ size. size ≡ size_of_proof ⟦<F as SumNumbers>⟧.checked num_vars degree) }
    ensures none { IsNone result ↔ (¬ IsShape num_vars degree) }
{
    if num_vars >= 64 || degree == 0 || degree > 65535 {
        return None;
    }
    let element = element_size::<F::Challenge>();
    Some(8 + num_vars as usize * (8 + (degree as usize + 1) * element))
}

// How many bytes an element has.
fn element_size<F: Field>() -> usize
    requires { F.element_size < 2 ^ 64 }
    ensures { result ≡ F.element_size }
{
    F::zero().serialized_size(Compress::Yes).unwrap_or(0)
}

/// The transcript of a label and a statement.
pub fn transcript_of(label: &[u8], statement: &[u8]) -> Transcript
    ensures { result ≡ begun label.now statement.now }
{
    let mut transcript = Transcript::new(label);
    transcript.absorb_bytes(&STATEMENT, statement);
    transcript
}

/// The bytes that spell a value.
pub fn bytes_of<T: CanonicalSerialize>(alloc: Global, value: &T) -> Result<Vec<u8>, SumsError>
    ensures bytes { IfOk result (λ bytes. bytes.items ≡ (T.format Compress.Yes).spelling value.now) }
    ensures memory { IsOkUnless result SumsError.Memory }
{
    let mut sink = IoSink::new(Vec::new(alloc));
    match value.serialize_compressed(&mut sink) {
        Ok(()) => Ok(sink.into_inner()),
        // A list of bytes fails only where it may not grow.
        Err(_) => Err(SumsError::Memory),
    }
}

/// The proof that the bytes spell, and nothing else.
pub fn proof_of<F: Field>(alloc: Global, bytes: &[u8]) -> Result<SumCheckProof<F>, SumsError>
    ensures spelled { IfOk result (λ proof. bytes.now
        ≡ (list (list (F.format Compress.Yes))).spelling (sent proof)) }
    ensures refused { IfErr result (λ e. e ≡ SumsError.Refused → (rounds : List (List F))
        → bytes.now ≢ (list (list (F.format Compress.Yes))).spelling rounds) }
    ensures errors { IfErr result (λ e. (e ≡ SumsError.Memory) ⊎ (e ≡ SumsError.Refused)) }
{
    let mut source = bytes;
    match SumCheckProof::<F>::deserialize_compressed(alloc, &mut source) {
        Ok(proof) => {
            if source.is_empty() {
                Ok(proof)
            } else {
                Err(SumsError::Refused)
            }
        }
        Err(error) => Err(refusal_of(error)),
    }
}

// Why bytes were not read.
fn refusal_of(error: SerializationError) -> SumsError
    ensures refused { result ≡ SumsError.Refused → error ≢ SerializationError.Memory }
    ensures errors { (result ≡ SumsError.Memory) ⊎ (result ≡ SumsError.Refused) }
{
    match error {
        SerializationError::Memory => SumsError::Memory,
        _ => SumsError::Refused,
    }
}
