//! Codewords in systematic form: a message stands at the first places, and is extended by the values at the others.

ghost use Rattle.std.specs.Prelude.{◌≡◌, ◌≢◌, ◌↔◌, ◌⊎◌, ◌≤◌, ◌++◌, List, length, map, take, Err, IfErr, IfOk, IsOkUnless};
ghost use Rattle.rs_code.specs.Codeword.{IsCodeword, after_first};

use crate::code::DomainCode;
use crate::decoder::DomainDecoder;
use crate::error::RsError;
use ark_traits::{DomainCoeff, FftField};
use ark_univariate::EvaluationDomain;
use std::alloc::{AllocError, Global};

impl<F: FftField, D: EvaluationDomain<F>> DomainCode<F, D> {
    /// The decoder for words of which the first `k` places alone are kept: made once, it extends any number of messages.
    pub fn systematic_decoder(&self, alloc: Global) -> Result<DomainDecoder<F, D>, RsError>
        ensures code { IfOk result (λ d. d.code ≡ self.now) }
        ensures erased { IfOk result (λ d. d.erased ≡ after_first self.now.k self.now.domain.size) }
        ensures memory { IsOkUnless result RsError.Memory }
    {
        let mut erased = Vec::with_capacity(alloc, self.n())?;
        erased.resize(self.k, false)?;
        erased.resize(self.n(), true)?;
        self.decoder(alloc, &erased)
    }

    /// The codeword that has the message's items at its first `k` places, in their order: the code in systematic form.
    /// There is exactly one such codeword. `WrongLength` exactly for another number of items than `k`, judged before
    /// memory is asked for.
    ///
    /// ```
    /// let codeword = code.encode_systematic(alloc, &message)?; // codeword[..k] is the message
    /// ```
    ///
    /// Its other message, that of `encode`, is the list of coefficients of the polynomial with these values. Each call
    /// makes a decoder; for many messages, make a `systematic_decoder` and restore each message with anything behind it.
    pub fn encode_systematic<T: DomainCoeff<F>>(
        &self,
        alloc: Global,
        message: &[T],
    ) -> Result<Vec<T>, RsError>
        ensures codeword { IfOk result (λ c. IsCodeword F.field T.group self.now.domain self.now.k
            (map T.meaning c.items)) }
        ensures systematic { IfOk result (λ c. take self.now.k (map T.meaning c.items) ≡ map T.meaning message.now) }
        ensures only { IfOk result (λ c. (other : List T.Meaning)
            → IsCodeword F.field T.group self.now.domain self.now.k other
            → take self.now.k other ≡ map T.meaning message.now → other ≡ map T.meaning c.items) }
        ensures wrong_length { (result ≡ Err RsError.WrongLength) ↔ (length message.now ≢ self.now.k) }
        ensures errors { IfErr result (λ e. (e ≡ RsError.Memory) ⊎ (e ≡ RsError.WrongLength)) }
    {
        if message.len() != self.k {
            return Err(RsError::WrongLength);
        }
        let decoder = self.systematic_decoder(alloc)?;
        let word = padded::<F, T>(alloc, message, self.n())?;
        decoder.restore(alloc, &word)
    }

    /// The values at the `n - k` places behind the first `k` of the only codeword that has the message's items at these:
    /// what `encode_systematic` adds to the message. `WrongLength` exactly for another number of items than `k`, judged
    /// before memory is asked for.
    pub fn extend<T: DomainCoeff<F>>(&self, alloc: Global, message: &[T]) -> Result<Vec<T>, RsError>
        ensures codeword { IfOk result (λ v. IsCodeword F.field T.group self.now.domain self.now.k
            (map T.meaning message.now ++ map T.meaning v.items)) }
        ensures only { IfOk result (λ v. (others : List T.Meaning)
            → IsCodeword F.field T.group self.now.domain self.now.k (map T.meaning message.now ++ others)
            → others ≡ map T.meaning v.items) }
        ensures wrong_length { (result ≡ Err RsError.WrongLength) ↔ (length message.now ≢ self.now.k) }
        ensures errors { IfErr result (λ e. (e ≡ RsError.Memory) ⊎ (e ≡ RsError.WrongLength)) }
    {
        let codeword = self.encode_systematic(alloc, message)?;
        Ok(Vec::from_slice(alloc, &codeword[self.k..])?)
    }
}

// The message with zeros behind it, so many items in all.
fn padded<F: FftField, T: DomainCoeff<F>>(
    alloc: Global,
    message: &[T],
    size: usize,
) -> Result<Vec<T>, AllocError>
    requires { length message.now ≤ size }
    ensures len { IfOk result (λ word. length word.items ≡ size) }
    ensures begins { IfOk result (λ word. take (length message.now) word.items ≡ message.now) }
{
    let mut word = Vec::with_capacity(alloc, size)?;
    word.extend_from_slice(message)?;
    word.resize(size, T::zero())?;
    Ok(word)
}
