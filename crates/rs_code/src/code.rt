//! Codes, and the codewords of messages.

ghost use Rattle.std.specs.Prelude.{◌≡◌, ◌≢◌, ◌↔◌, ◌⊎◌, ℕ, ◌+◌, ◌-◌, ◌<◌, ◌≤◌, List, length, map};
ghost use Rattle.std.specs.Prelude.{IfSome, IsNone, IfOk, IfErr, Err};
ghost use Rattle.ark_math.specs.Domain.{Kind, HasNoSize};
ghost use Rattle.ark_math.specs.Transform.{transform};
ghost use Rattle.rs_code.specs.Codeword.{AgreesWith, IsCodeword, erasure_count, mark_count};
ghost use Rattle.rs_code.specs.Refusals.{RefusesRightly};

use crate::decoder::DomainDecoder;
use crate::error::RsError;
use crate::locator::factors;
use crate::marks::count_marked;
use crate::part::spaced_part;
use ark_traits::{DomainCoeff, FftField, Work};
use ark_univariate::{EvaluationDomain, GeneralEvaluationDomain};
use std::alloc::Global;
use std::marker::{Model, PhantomData};

/// A code over a general domain: there is one of each length for which the field has a domain.
pub type Code<F> = DomainCode<F, GeneralEvaluationDomain<F>>;

/// A Reed-Solomon code: its codewords are the values, at the `n` elements of a domain, of the polynomials with at most `k`
/// coefficients. Coefficients and values may be of any module over the field. `encode` is not systematic, and `encode_systematic` is.
///
/// ```
/// let code = Code::<F65537>::new(5, 8).ok_or(RsError::WrongLength)?; // any 5 of 8 places give a codeword back
/// let codeword = code.encode(alloc, &message)?;
/// ```
///
/// Contracts see the domain and `k`.
#[derive(Drop)]
pub struct DomainCode<F: FftField, D: EvaluationDomain<F>> {
    pub(crate) domain: D,
    pub(crate) k: usize,
    of: PhantomData<F>,
}

impl<F: FftField, D: EvaluationDomain<F>> Model for DomainCode<F, D> {
    ghost use Rattle.rs_code.specs.Code.{CodeOver, IsCode};

    ghost Value = { CodeOver F };

    ghost view = { λ c. record { domain = D.domain c.domain; k = c.k } };

    ghost invariant = { λ c. IsCode F.field F.adicity F.root (record { domain = D.domain c.domain; k = c.k }) };
}

impl<F: FftField, D: EvaluationDomain<F>> DomainCode<F, D> {
    /// The code for messages of at most `k` items over the domain for `n_at_least`. `None` exactly for `k` zero, without
    /// such a domain, or for `k` above its size.
    pub fn new(k: usize, n_at_least: usize) -> Option<Self>
        ensures chosen { IfSome result (λ c. D.chooses n_at_least c.domain.kind c.domain.size) }
        ensures subgroup { IfSome result (λ c. c.domain.offset ≡ F.field.one) }
        ensures items { IfSome result (λ c. c.k ≡ k) }
        ensures none { IsNone result ↔ (k ≡ 0) ⊎ (HasNoSize D.chooses n_at_least
            ⊎ ((kind : Kind) × (n : ℕ) × D.chooses n_at_least kind n × (n < k))) }
    {
        let domain = D::new(n_at_least)?;
        if k == 0 || k > domain.size() {
            return None;
        }
        Some(DomainCode {
            domain,
            k,
            of: PhantomData,
        })
    }

    /// The code for messages of at most `k` items over this subgroup.
    pub fn over(domain: D, k: usize) -> Self
        requires subgroup { (D.domain domain).offset ≡ F.field.one }
        requires some { 0 < k }
        requires fits { k ≤ (D.domain domain).size }
        ensures domain { result.domain ≡ D.domain domain }
        ensures items { result.k ≡ k }
    {
        DomainCode {
            domain,
            k,
            of: PhantomData,
        }
    }

    /// The greatest number of a message's items.
    pub fn k(&self) -> usize
        ensures { result ≡ self.now.k }
    {
        self.k
    }

    /// The number of a codeword's places.
    pub fn n(&self) -> usize
        ensures { result ≡ self.now.domain.size }
    {
        self.domain.size()
    }

    /// The message's codeword: the message times the Vandermonde matrix of the domain's elements. `WrongLength` exactly
    /// for more than `k` items, judged before memory is asked for.
    ///
    /// It takes one transform, `fft` of the domain.
    pub fn encode<T: DomainCoeff<F>>(&self, alloc: Global, message: &[T]) -> Result<Vec<T>, RsError>
        ensures codeword { IfOk result (λ c. map T.meaning c.items
            ≡ transform F.field T.group self.now.domain (map T.meaning message.now)) }
        ensures wrong_length { (result ≡ Err RsError.WrongLength) ↔ (self.now.k < length message.now) }
        ensures errors { IfErr result (λ e. (e ≡ RsError.Memory) ⊎ (e ≡ RsError.WrongLength)) }
    {
        if message.len() > self.k {
            return Err(RsError::WrongLength);
        }
        Ok(self.domain.fft(alloc, message)?)
    }

    /// A decoder for words that are erased at these places, `true` for each that is: made once, it restores any number of
    /// words. `WrongLength` exactly for another number of places than `n`, and `TooManyErased` exactly for more than
    /// `n - k` erased ones, both judged before memory is asked for.
    ///
    /// ```
    /// let decoder = code.decoder(alloc, &erased)?;
    /// let codeword = decoder.restore(alloc, &word)?; // and so for each word that is erased there
    /// ```
    ///
    /// All of its work is arithmetic of field elements: products of polynomials, and values of these over the domain.
    pub fn decoder(&self, alloc: Global, erased: &[bool]) -> Result<DomainDecoder<F, D>, RsError>
        ensures code { IfOk result (λ d. d.code ≡ self.now) }
        ensures erased { IfOk result (λ d. d.erased ≡ erased.now) }
        ensures wrong_length { (result ≡ Err RsError.WrongLength) ↔ (length erased.now ≢ self.now.domain.size) }
        ensures too_many_erased { (result ≡ Err RsError.TooManyErased)
            ↔ (length erased.now ≡ self.now.domain.size)
            × (self.now.domain.size - self.now.k < mark_count erased.now) }
        ensures no_codeword { result ≢ Err RsError.NoCodeword }
    {
        if erased.len() != self.domain.size() {
            return Err(RsError::WrongLength);
        }
        if count_marked(erased) > self.domain.size() - self.k {
            return Err(RsError::TooManyErased);
        }
        let factors = factors(alloc, self.domain, erased)?;
        let erased = Vec::from_slice(alloc, erased)?;
        let (part, stride) = spaced_part(self.domain, self.k);
        Ok(DomainDecoder {
            domain: self.domain,
            k: self.k,
            erased,
            factors,
            part,
            stride,
        })
    }

    /// The codeword that has the word's values at the places that aren't erased: `None` is an erased one. There is at most
    /// one such codeword. `WrongLength` exactly for another number of places than `n`, and `TooManyErased` exactly for more
    /// than `n - k` erased ones, both judged before memory is asked for; `NoCodeword` where no codeword has these values,
    /// which can't be where exactly `n - k` places are erased.
    ///
    /// ```
    /// let codeword = code.restore(alloc, &word)?; // word[i] is None where place i is erased
    /// ```
    ///
    /// Values that are wrong are not corrected. One decoder, made by `decoder`, serves any number of words that are erased
    /// at the same places. It takes two transforms of the word beside the decoder's.
    pub fn restore<T: DomainCoeff<F>>(
        &self,
        alloc: Global,
        word: &[Option<T>],
    ) -> Result<Vec<T>, RsError>
        ensures codeword { IfOk result (λ c. IsCodeword F.field T.group self.now.domain self.now.k
            (map T.meaning c.items)) }
        ensures agrees { IfOk result (λ c. AgreesWith T.group T.meaning word.now (map T.meaning c.items)) }
        ensures only { IfOk result (λ c. (other : List T.Meaning)
            → IsCodeword F.field T.group self.now.domain self.now.k other
            → AgreesWith T.group T.meaning word.now other → other ≡ map T.meaning c.items) }
        ensures len { IfOk result (λ c. length word.now ≡ self.now.domain.size) }
        ensures few { IfOk result (λ c. erasure_count word.now ≤ self.now.domain.size - self.now.k) }
        ensures refused { RefusesRightly F.field T.group self.now (length word.now) (erasure_count word.now)
            (AgreesWith T.group T.meaning word.now) result }
    {
        self.restore_counted(alloc, word, &mut Work::new())
    }
}
