//! Numbers of four words as text.

ghost use Rattle.std.specs.Prelude.{◌≡◌, ◌+◌, ◌*◌, ◌<◌, ◌≤◌, ◌^◌, Some};
ghost use Rattle.std.specs.Fmt.{WritesOnOk};
ghost use Rattle.ark_base.specs.Numerals.{numeral, decimal_text, hexadecimal_text};
ghost use Rattle.ark_prime256.specs.Words.{integer};

use crate::words::{BigInteger256, divided, is_below, of_word};
use std::fmt;
use std::fmt::{Display, Formatter, Write};

/// The number in decimal, with no zero before it.
impl Display for BigInteger256 {
    ghost output = { λ number. Some (decimal_text (integer number)) };

    fn fmt<W: Write>(&self, f: &mut Formatter<W>) -> fmt::Result {
        write_numeral(*self, 10, f)
    }
}

// A number that is written in hexadecimal: `0x`, and digits with small letters and no zero before them.
#[derive(Clone, Copy)]
pub struct Hexadecimal(pub BigInteger256);

impl Display for Hexadecimal {
    ghost output = { λ number. Some (hexadecimal_text (integer number.0)) };

    fn fmt<W: Write>(&self, f: &mut Formatter<W>) -> fmt::Result {
        write!(f, "0x")?;
        write_numeral(self.0, 16, f)
    }
}

// Writes a number's digits in a base, with no zero before them.
fn write_numeral<W: Write>(number: BigInteger256, base: u64, f: &mut Formatter<W>) -> fmt::Result
    requires low { 2 ≤ base }
    requires high { base ≤ 16 }
    ensures { WritesOnOk W.write_str_gives f.old result (numeral base (integer number)) f.new }
{
    let (front, last) = divided(number, base);
    if is_below(of_word(0), front) {
        write_numeral(front, base, f)?;
    }
    write!(f, "{last:x}")
}
