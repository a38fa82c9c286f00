//! Decoders: what the restoration of words that are erased at the same places has in common.

ghost use Rattle.std.specs.Prelude.{◌≡◌, ◌≢◌, ◌≤◌, List, length, map, IfOk, Err};
ghost use Rattle.ark_math.specs.Transform.{fit, transform};
ghost use Rattle.rs_code.specs.Codeword.{AgreesElsewhere, IsCodeword, mark_count};
ghost use Rattle.rs_code.specs.Refusals.{RefusesRightly};

use crate::error::RsError;
use crate::part::{fill_spaced, fold};
use crate::restore::scale_by_exponents;
use ark_traits::{DomainCoeff, FftField, Work};
use ark_univariate::{EvaluationDomain, GeneralEvaluationDomain};
use std::alloc::Global;
use std::marker::Model;

/// A decoder of a code over a general domain.
pub type Decoder<F> = DomainDecoder<F, GeneralEvaluationDomain<F>>;

/// A decoder of a code, for words that are erased at certain places. It keeps an element of the field for each place.
///
/// Contracts see the code, and the list of the places, `true` for each that is erased.
#[derive(Drop)]
pub struct DomainDecoder<F: FftField, D: EvaluationDomain<F>> {
    pub(crate) domain: D,
    pub(crate) k: usize,
    pub(crate) erased: Vec<bool>,
    pub(crate) factors: Vec<F>,
    // Evenly spaced elements of the domain, at least one for each item of a message, and how far apart they are.
    pub(crate) part: D,
    pub(crate) stride: usize,
}

impl<F: FftField, D: EvaluationDomain<F>> Model for DomainDecoder<F, D> {
    ghost use Rattle.rs_code.specs.Code.{DecoderOver, IsDecoder};

    ghost Value = { DecoderOver F };

    ghost view = { λ d. record {
      code = record { domain = D.domain d.domain; k = d.k };
      erased = d.erased.items;
    } };

    ghost invariant = { λ d. IsDecoder F.field F.adicity F.root (record {
      code = record { domain = D.domain d.domain; k = d.k };
      erased = d.erased.items;
    }) d.factors.items (D.domain d.part) d.stride };
}

impl<F: FftField, D: EvaluationDomain<F>> DomainDecoder<F, D> {
    /// The codeword that has the word's values at the places that aren't erased; what the word has at the others isn't
    /// looked at. There is at most one such codeword. `WrongLength` exactly for another number of places than the code's,
    /// judged before memory is asked for; `NoCodeword` where no codeword has these values, which can't be where exactly
    /// `n - k` places are erased; never `TooManyErased`, since a decoder has at most `n - k` erased places.
    pub fn restore<T: DomainCoeff<F>>(&self, alloc: Global, word: &[T]) -> Result<Vec<T>, RsError>
        ensures codeword { IfOk result (λ c. IsCodeword F.field T.group self.now.code.domain self.now.code.k
            (map T.meaning c.items)) }
        ensures agrees { IfOk result (λ c. AgreesElsewhere T.group self.now.erased (map T.meaning word.now)
            (map T.meaning c.items)) }
        ensures only { IfOk result (λ c. (other : List T.Meaning)
            → IsCodeword F.field T.group self.now.code.domain self.now.code.k other
            → AgreesElsewhere T.group self.now.erased (map T.meaning word.now) other
            → other ≡ map T.meaning c.items) }
        ensures refused { RefusesRightly F.field T.group self.now.code (length word.now)
            (mark_count self.now.erased) (AgreesElsewhere T.group self.now.erased (map T.meaning word.now)) result }
        ensures never_too_many { result ≢ Err RsError.TooManyErased }
    {
        self.restore_counted(alloc, word, &mut Work::new())
    }

    /// The `k` items of the message whose codeword `restore` gives, of a shorter message with zeros behind it. There is
    /// at most one such message. It refuses as `restore` does.
    ///
    /// It takes one transform of the word, and two over the elements of the least domain for `k` items, where those are
    /// among the code's.
    ///
    /// ```
    /// let message = decoder.message(alloc, &word)?; // code.encode(alloc, &message)? agrees with the word
    /// ```
    pub fn message<T: DomainCoeff<F>>(&self, alloc: Global, word: &[T]) -> Result<Vec<T>, RsError>
        ensures len { IfOk result (λ m. length m.items ≡ self.now.code.k) }
        ensures agrees { IfOk result (λ m. AgreesElsewhere T.group self.now.erased (map T.meaning word.now)
            (transform F.field T.group self.now.code.domain (map T.meaning m.items))) }
        ensures only { IfOk result (λ m. (other : List T.Meaning) → length other ≤ self.now.code.k
            → AgreesElsewhere T.group self.now.erased (map T.meaning word.now)
            (transform F.field T.group self.now.code.domain other)
            → fit T.group other self.now.code.k ≡ map T.meaning m.items) }
        ensures refused { RefusesRightly F.field T.group self.now.code (length word.now)
            (mark_count self.now.erased) (AgreesElsewhere T.group self.now.erased (map T.meaning word.now)) result }
        ensures never_too_many { result ≢ Err RsError.TooManyErased }
    {
        let mut items = self.interpolated(alloc, word, &mut Work::new())?;
        scale_by_exponents(items.as_mut_slice(), &mut Work::new());
        fold(items.as_mut_slice(), self.part.size());
        items.truncate(self.part.size());
        self.part.fft_in_place(alloc, &mut items)?;
        fill_spaced(
            items.as_mut_slice(),
            word,
            &self.erased,
            &self.factors,
            self.stride,
        );
        self.part.ifft_in_place(alloc, &mut items)?;
        items.truncate(self.k);
        Ok(items)
    }
}
