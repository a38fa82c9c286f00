//! Fields whose elements are numbers.

ghost use Rattle.std.specs.Prelude.{◌≡◌, ◌≢◌, ℕ, ◌≤◌};
ghost use Rattle.ark_math.specs.Field.{natural};

use ark_base::{FftField, PrimeModulus};
use ark_fields::{F65537, Modulus65537};

/// A field whose elements are the numbers up to 2^16: so many ones, added up.
pub trait NumberField: FftField {
    // The number that an element is.
    ghost number: { Self → ℕ };

    // The inverse of an element but zero.
    ghost inverse_of: { Self → Self };

    /// The number that an element is.
    fn to_number(self) -> u32
        ensures { result ≡ number self };

    ghost number_fits: { (x : Self) → number x ≤ 65536 };

    ghost number_natural: { (n : ℕ) → n ≤ 65536 → number (natural Self.field n) ≡ n };

    ghost natural_number: { (x : Self) → natural Self.field (number x) ≡ x };

    ghost inverse_law: { (x : Self) → x ≢ Self.field.zero → Self.field.times x (inverse_of x) ≡ Self.field.one };

    // It has domains of all powers of two up to 2^16.
    ghost has_domains: { 16 ≤ Self.adicity.two };
}

impl NumberField for F65537 {
    ghost use Rattle.std.proofs.Common.{refl};
    ghost use Rattle.ark_base.specs.Element.{number};
    ghost use Rattle.ark_fields.specs.declared.small.Modulus65537.{Modulus65537};
    ghost use Rattle.shards_lib.specs.NumberLaws.{fits, inverse, inverse_law, of_natural, to_natural, sixteen};

    ghost number = { number };

    ghost number_fits = { fits Modulus65537 ⟦<Modulus65537 as PrimeModulus>⟧ refl };

    ghost number_natural = { of_natural Modulus65537 ⟦<Modulus65537 as PrimeModulus>⟧
        ⟦<Modulus65537 as PrimeModulus>⟧.modulus.prime refl };

    ghost natural_number = { to_natural Modulus65537 ⟦<Modulus65537 as PrimeModulus>⟧
        ⟦<Modulus65537 as PrimeModulus>⟧.modulus.prime };

    ghost inverse_of = { inverse Modulus65537 ⟦<Modulus65537 as PrimeModulus>⟧
        ⟦<Modulus65537 as PrimeModulus>⟧.modulus.prime };

    ghost inverse_law = { inverse_law Modulus65537 ⟦<Modulus65537 as PrimeModulus>⟧
        ⟦<Modulus65537 as PrimeModulus>⟧.modulus.prime };

    ghost has_domains = { sixteen Modulus65537 ⟦<Modulus65537 as PrimeModulus>⟧ refl };

    fn to_number(self) -> u32 {
        self.value() as u32
    }
}
