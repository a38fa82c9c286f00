//! Fields whose elements are the numbers below a prime, and these numbers as text.

ghost use Rattle.std.specs.Prelude.{◌≡◌, ℕ, ◌-◌, ◌/◌, ◌%◌, ◌≤◌, IfOk, IfSome, IfNone, Some, string_bytes};
ghost use Rattle.std.specs.Str.Parse.{AllDigits, digits_value};
ghost use Rattle.ark_math.specs.Field.{natural, power};
ghost use Rattle.ark_math.specs.Prime.{IsPrime};
ghost use Rattle.ark_base.specs.Residues.{Numbering, residues};
ghost use Rattle.ark_base.specs.Numerals.{IsDecimal, IsHexadecimal, decimal_text, hexadecimal_text};

use ark_traits::{FftField, Field};
use std::alloc::{AllocError, Global};
use std::fmt::Display;

/// A field whose elements are the numbers below a prime. `{}` writes an element's number in decimal, with no
/// zero before it.
pub trait PrimeNumbers: FftField + Display {
    // The prime.
    ghost modulus: { ℕ };

    ghost prime: { IsPrime modulus };

    // Each element's number below the prime, and each number's element.
    ghost numbering: { Numbering Self modulus };

    // The number of the generator whose powers the roots of unity are.
    ghost generator: { ℕ };

    /// The element's number in hexadecimal: `0x`, and digits with small letters and no zero before them.
    fn to_hex(self, alloc: Global) -> Result<String, AllocError>
        ensures { IfOk result (λ text. string_bytes text ≡ hexadecimal_text (numbering.number self)) };

    /// The element of a number in decimal, of any length, modulo the prime. `None` where the text is not one
    /// digit or more, and nothing else.
    final fn from_decimal(text: &str) -> Option<Self>
        ensures some { IfSome result (λ x. (n : ℕ) × IsDecimal text.now n × (numbering.number x ≡ n % modulus)) }
        ensures none { IfNone result ((n : ℕ) → ¬ IsDecimal text.now n) }
    {
        if text.is_empty() {
            return None;
        }
        element_of_digits(text.as_bytes(), 10)
    }

    /// The element of a number in hexadecimal, of any length, modulo the prime. `None` where the text is not
    /// `0x` and one digit or more, of either case.
    final fn from_hex(text: &str) -> Option<Self>
        ensures some { IfSome result (λ x. (n : ℕ) × IsHexadecimal text.now n × (numbering.number x ≡ n % modulus)) }
        ensures none { IfNone result ((n : ℕ) → ¬ IsHexadecimal text.now n) }
    {
        let digits = text.strip_prefix("0x")?;
        if digits.is_empty() {
            return None;
        }
        element_of_digits(digits.as_bytes(), 16)
    }

    /// The element's number in decimal, with no zero before it, as `{}` writes it.
    final fn to_decimal(self, alloc: Global) -> Result<String, AllocError>
        ensures { IfOk result (λ text. string_bytes text ≡ decimal_text (numbering.number self)) }
    {
        self.to_string(alloc)
    }

    ghost field_law: { Self.field ≡ residues numbering prime };

    ghost generator_law: { numbering.number Self.GENERATOR ≡ generator };

    ghost root_law: { (n : ℕ) → Self.root n ≡ power Self.field Self.GENERATOR ((modulus - 1) / n) };

    ghost display_law: { (x : Self) → Self.output x ≡ Some (decimal_text (numbering.number x)) };
}

// The element of the number that digits write, by Horner's rule, and `None` where one of them is no digit.
fn element_of_digits<F: Field>(digits: &[u8], base: u32) -> Option<F>
    requires low { 2 ≤ base }
    requires high { base ≤ 16 }
    ensures some { IfSome result (λ x. AllDigits base digits.now
        × (x ≡ natural F.field (digits_value base digits.now))) }
    ensures none { IfNone result (¬ AllDigits base digits.now) }
{
    let times = F::from(base as u64);
    let mut number = F::zero();
    'digits: for byte in digits {
        let digit = char::from(*byte).to_digit(base)?;
        number = number * times + F::from(digit as u64);
    }
    Some(number)
}

/// A number in hexadecimal: `0x`, and digits with small letters and no zero before them.
pub fn hexadecimal(alloc: Global, number: u64) -> Result<String, AllocError>
    ensures { IfOk result (λ text. string_bytes text ≡ hexadecimal_text number) }
{
    format!(in alloc; "0x{number:x}")
}
