//! Elements as words.

ghost use Rattle.std.specs.Prelude.{◌≡◌, ◌↔◌, ◌≤◌, ◌<◌, ℕ, length, IfSome, IsNone, refl};
ghost use Rattle.ark_math.specs.Words.{number_of_words};
ghost use Rattle.ark_numbers.specs.Fields.{known_by};
ghost use Rattle.ark_words.specs.Numbers.{Spelled, in_words};

use ark_base::{PrimeField, PrimeField32, PrimeModulus, PrimeModulus32, PrimeNumbers};
use ark_prime256::{PrimeField256, PrimeModulus256};

/// A field whose elements are the numbers below a prime, each spelled by so many words of 64 bits, the low
/// one first.
pub trait WordElement: PrimeNumbers {
    ghost WIDTH: { ℕ };

    // The field by its numbers, and how many words spell an element.
    ghost spelled: { Spelled };

    // The element whose multiples are read and written without a product.
    ghost unit: { Self };

    /// How many words spell an element.
    const WIDTH: usize;

    /// The element of the number that the words spell, and `None` exactly where it is not below the modulus.
    fn from_words(words: &[u64]) -> Option<Self>
        requires { length words.now ≡ WIDTH }
        ensures some { IfSome result (λ x. Self.numbering.number x ≡ number_of_words words.now) }
        ensures none { IsNone result ↔ (Self.modulus ≤ number_of_words words.now) };

    /// Writes the words of the element's number.
    fn write_words(self, words: &mut [u64])
        requires { length words.old ≡ WIDTH }
        ensures { number_of_words words.new ≡ Self.numbering.number self };

    /// The element whose product with the unit has the number that the words spell, and `None` exactly where
    /// that is not below the modulus. Maps that keep multiples, as transforms do, need no other elements.
    fn from_scaled(words: &[u64]) -> Option<Self>
        requires { length words.now ≡ WIDTH }
        ensures some { IfSome result (λ x. Self.numbering.number (Self.field.times unit x)
            ≡ number_of_words words.now) }
        ensures none { IsNone result ↔ (Self.modulus ≤ number_of_words words.now) };

    /// Writes the words of the number of the element's product with the unit.
    fn write_scaled(self, words: &mut [u64])
        requires { length words.old ≡ WIDTH }
        ensures { number_of_words words.new ≡ Self.numbering.number (Self.field.times unit self) };

    ghost spelled_law: { spelled ≡ in_words WIDTH (known_by Self.modulus Self.adicity Self.generator) };

    ghost width_law: { 0 < WIDTH };
}

/// How many words spell an element.
pub fn width<F: WordElement>() -> usize
    ensures { result ≡ F.spelled.width }
{
    F::WIDTH
}

impl<M: PrimeModulus> WordElement for PrimeField<M> {
    ghost use Rattle.ark_base.specs.Element.{adicity};
    ghost use Rattle.std.proofs.Common.{lit<};

    ghost WIDTH = { 1 };

    ghost spelled = { in_words 1 (known_by Self.modulus Self.adicity Self.generator) };

    ghost unit = { Self.field.one };

    const WIDTH: usize = 1;

    fn from_words(words: &[u64]) -> Option<Self> {
        PrimeField::from_value(words[0])
    }

    fn write_words(self, words: &mut [u64]) {
        words[0] = self.value();
    }

    fn from_scaled(words: &[u64]) -> Option<Self> {
        Self::from_words(words)
    }

    fn write_scaled(self, words: &mut [u64]) {
        self.write_words(words);
    }

    ghost spelled_law = { refl };

    ghost width_law = { lit< tt };
}

impl<M: PrimeModulus32> WordElement for PrimeField32<M> {
    ghost use Rattle.std.proofs.Common.{lit<};
    ghost use Rattle.ark_base.specs.Element32.{unit as unit32};

    ghost WIDTH = { 1 };

    ghost spelled = { in_words 1 (known_by Self.modulus Self.adicity Self.generator) };

    ghost unit = { unit32 M.modulus };

    const WIDTH: usize = 1;

    fn from_words(words: &[u64]) -> Option<Self> {
        let word = words[0];
        if word < M::MODULUS as u64 {
            PrimeField32::from_value(word as u32)
        } else {
            None
        }
    }

    fn write_words(self, words: &mut [u64]) {
        words[0] = self.value() as u64;
    }

    fn from_scaled(words: &[u64]) -> Option<Self> {
        let word = words[0];
        if word < M::MODULUS as u64 {
            PrimeField32::from_scaled(word as u32)
        } else {
            None
        }
    }

    fn write_scaled(self, words: &mut [u64]) {
        words[0] = self.scaled() as u64;
    }

    ghost spelled_law = { refl };

    ghost width_law = { lit< tt };
}

impl<M: PrimeModulus256> WordElement for PrimeField256<M> {
    ghost use Rattle.std.proofs.Common.{lit<};
    ghost use Rattle.ark_prime256.specs.Element.{unit as unit256};

    ghost WIDTH = { 4 };

    ghost spelled = { in_words 4 (known_by Self.modulus Self.adicity Self.generator) };

    ghost unit = { unit256 M.modulus };

    const WIDTH: usize = 4;

    fn from_words(words: &[u64]) -> Option<Self> {
        PrimeField256::from_words([words[0], words[1], words[2], words[3]])
    }

    fn write_words(self, words: &mut [u64]) {
        let [w0, w1, w2, w3] = self.to_words();
        words[0] = w0;
        words[1] = w1;
        words[2] = w2;
        words[3] = w3;
    }

    fn from_scaled(words: &[u64]) -> Option<Self> {
        PrimeField256::from_scaled([words[0], words[1], words[2], words[3]])
    }

    fn write_scaled(self, words: &mut [u64]) {
        let [w0, w1, w2, w3] = self.scaled();
        words[0] = w0;
        words[1] = w1;
        words[2] = w2;
        words[3] = w3;
    }

    ghost spelled_law = { refl };

    ghost width_law = { lit< tt };
}
