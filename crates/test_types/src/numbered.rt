//! Fields whose elements have numbers, by which cases name them.

use crate::four::Four;
use ark_base::{
    FftField, PrimeField, PrimeField32, PrimeModulus, PrimeModulus32, PrimeNumbers, Zero,
};
use ark_prime256::{PrimeField256, PrimeModulus256};
use std::fmt::Display;

/// A field whose elements have numbers, which `{}` writes in decimal.
pub trait Numbered: FftField + Display {
    /// The element whose number the text spells, as far as there is one, and zero where it spells none.
    fn of_text(text: &str) -> Self;

    /// The element with this number, as far as there is one.
    fn of_number(number: u64) -> Self;

    /// The low word of the element's number.
    fn low_word(self) -> u64;
}

impl<M: PrimeModulus> Numbered for PrimeField<M> {
    fn of_text(text: &str) -> Self {
        PrimeField::from_decimal(text).unwrap_or(Self::zero())
    }

    fn of_number(number: u64) -> Self {
        PrimeField::from(number)
    }

    fn low_word(self) -> u64 {
        self.value()
    }
}

impl<M: PrimeModulus32> Numbered for PrimeField32<M> {
    fn of_text(text: &str) -> Self {
        PrimeField32::from_decimal(text).unwrap_or(Self::zero())
    }

    fn of_number(number: u64) -> Self {
        PrimeField32::from(number)
    }

    fn low_word(self) -> u64 {
        self.value() as u64
    }
}

impl<M: PrimeModulus256> Numbered for PrimeField256<M> {
    fn of_text(text: &str) -> Self {
        PrimeField256::from_decimal(text).unwrap_or(Self::zero())
    }

    fn of_number(number: u64) -> Self {
        PrimeField256::from(number)
    }

    fn low_word(self) -> u64 {
        let [low, ..] = self.to_words();
        low
    }
}

impl Numbered for Four {
    fn of_text(text: &str) -> Four {
        Four::of_number(text.parse().unwrap_or(0))
    }

    fn of_number(number: u64) -> Four {
        Four {
            high: number & 2 != 0,
            low: number & 1 != 0,
        }
    }

    fn low_word(self) -> u64 {
        self.to_number()
    }
}
