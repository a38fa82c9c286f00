//! Numbers of four words: sums, differences and multiples.

ghost use Rattle.std.specs.Prelude.{◌≡◌, ◌+◌, ◌*◌, ◌<◌, ◌≤◌, ◌^◌, true, false};
ghost use Rattle.std.specs.Int.{from_bool};
ghost use Rattle.std.specs.Ordering.{nat_cmp};
ghost use Rattle.ark_prime256.specs.Words.{integer};

mod bytes;
mod numerals;

pub use bytes::{read_words, write_words};
pub use numerals::Hexadecimal;
use std::cmp::Ordering;

/// A number below 2^256, the low word first.
#[derive(Clone, Copy, PartialEq, Eq, Hash, Debug)]
pub struct BigInteger256 {
    /// The low word.
    pub w0: u64,
    /// The word at 2^64.
    pub w1: u64,
    /// The word at 2^128.
    pub w2: u64,
    /// The word at 2^192.
    pub w3: u64,
}

impl BigInteger256 {
    ghost use Rattle.ark_math.specs.Words.{number_of_words};

    /// The number that these words spell, the low one first.
    pub const fn new(words: [u64; 4]) -> BigInteger256
        ensures { integer result ≡ number_of_words words }
    {
        BigInteger256 {
            w0: words[0],
            w1: words[1],
            w2: words[2],
            w3: words[3],
        }
    }

    /// The number's words, the low one first.
    pub const fn to_words(self) -> [u64; 4]
        ensures { number_of_words result ≡ integer self }
    {
        [self.w0, self.w1, self.w2, self.w3]
    }
}

// A number of one word.
#[inline(always)]
pub const fn of_word(word: u64) -> BigInteger256
    ensures { integer result ≡ word }
{
    BigInteger256 {
        w0: word,
        w1: 0,
        w2: 0,
        w3: 0,
    }
}

// The sum, and whether it passes 2^256.
#[inline(always)]
pub const fn sum(a: BigInteger256, b: BigInteger256) -> (BigInteger256, bool)
    ensures { integer result.0 + 2 ^ 256 * from_bool result.1 ≡ integer a + integer b }
{
    let (w0, carry) = a.w0.carrying_add(b.w0, false);
    let (w1, carry) = a.w1.carrying_add(b.w1, carry);
    let (w2, carry) = a.w2.carrying_add(b.w2, carry);
    let (w3, carry) = a.w3.carrying_add(b.w3, carry);
    (BigInteger256 { w0, w1, w2, w3 }, carry)
}

// The difference, and whether it is below zero, where 2^256 is added.
#[inline(always)]
pub const fn difference(a: BigInteger256, b: BigInteger256) -> (BigInteger256, bool)
    ensures { integer result.0 + integer b ≡ integer a + 2 ^ 256 * from_bool result.1 }
{
    let (w0, borrow) = a.w0.borrowing_sub(b.w0, false);
    let (w1, borrow) = a.w1.borrowing_sub(b.w1, borrow);
    let (w2, borrow) = a.w2.borrowing_sub(b.w2, borrow);
    let (w3, borrow) = a.w3.borrowing_sub(b.w3, borrow);
    (BigInteger256 { w0, w1, w2, w3 }, borrow)
}

// Whether the number is zero.
#[inline(always)]
pub fn is_zero(a: BigInteger256) -> bool
    ensures zero { result ≡ true → integer a ≡ 0 }
    ensures some { result ≡ false → 0 < integer a }
{
    a.w0 == 0 && a.w1 == 0 && a.w2 == 0 && a.w3 == 0
}

// `t + x * a`, with a fifth word.
#[inline(always)]
pub const fn add_multiple(t: BigInteger256, x: u64, a: BigInteger256) -> (BigInteger256, u64)
    ensures { integer result.0 + 2 ^ 256 * result.1 ≡ integer t + x * integer a }
{
    let (w0, carry) = x.carrying_mul_add(a.w0, 0, t.w0);
    let (w1, carry) = x.carrying_mul_add(a.w1, carry, t.w1);
    let (w2, carry) = x.carrying_mul_add(a.w2, carry, t.w2);
    let (w3, carry) = x.carrying_mul_add(a.w3, carry, t.w3);
    (BigInteger256 { w0, w1, w2, w3 }, carry)
}

// The quotient and the remainder of a number by a word.
pub const fn divided(a: BigInteger256, by: u64) -> (BigInteger256, u64)
    requires { 0 < by }
    ensures whole { integer result.0 * by + result.1 ≡ integer a }
    ensures below { result.1 < by }
{
    let (w3, rest) = divided_word(0, a.w3, by);
    let (w2, rest) = divided_word(rest, a.w2, by);
    let (w1, rest) = divided_word(rest, a.w1, by);
    let (w0, rest) = divided_word(rest, a.w0, by);
    (BigInteger256 { w0, w1, w2, w3 }, rest)
}

// The quotient and the remainder of `word + 2^64 * high` by a word above `high`.
const fn divided_word(high: u64, word: u64, by: u64) -> (u64, u64)
    requires { high < by }
    ensures whole { result.0 * by + result.1 ≡ word + 2 ^ 64 * high }
    ensures below { result.1 < by }
{
    let number = word as u128 + (1 << 64) * high as u128;
    ((number / by as u128) as u64, (number % by as u128) as u64)
}

// Whether one number is below another.
#[inline(always)]
pub const fn is_below(a: BigInteger256, b: BigInteger256) -> bool
    ensures below { result ≡ true → integer a < integer b }
    ensures above { result ≡ false → integer b ≤ integer a }
{
    let (_rest, is_below) = difference(a, b);
    is_below
}

// The order of two numbers.
pub fn compare(a: BigInteger256, b: BigInteger256) -> Ordering
    ensures { result ≡ nat_cmp (integer a) (integer b) }
{
    if is_below(a, b) {
        Ordering::Less
    } else if is_below(b, a) {
        Ordering::Greater
    } else {
        Ordering::Equal
    }
}

/// One of two numbers, word by word: no branch, which a processor could not foretell.
#[inline(always)]
pub const fn chosen(first: bool, a: BigInteger256, b: BigInteger256) -> BigInteger256
    ensures first { first ≡ true → result ≡ a }
    ensures second { first ≡ false → result ≡ b }
{
    BigInteger256 {
        w0: if first { a.w0 } else { b.w0 },
        w1: if first { a.w1 } else { b.w1 },
        w2: if first { a.w2 } else { b.w2 },
        w3: if first { a.w3 } else { b.w3 },
    }
}
