//! Euclid's algorithm by halvings and differences, without a division, on numbers of four words. The halvings of what
//! belongs to the other number are put off: it is doubled, and the halvings are counted (Kaliski, "The Montgomery
//! inverse and its applications", 1995), so no step needs the modulus.

ghost use Rattle.std.specs.Prelude.{◌≡◌, ◌+◌, ◌*◌, ◌%◌, ◌<◌, ◌≤◌, ◌^◌, true, false};
ghost use Rattle.ark_prime256.specs.Words.{integer};
ghost use Rattle.ark_prime256.specs.Euclid.{IsHalved, IsLessened, IsTurned};

use crate::words::{BigInteger256, chosen, difference, sum};

/// Two numbers on the way to zero and their greatest common divisor. Let `x` be the number that `left` was at first,
/// or minus that number where the two are `turned`. Modulo what `right` was at first, `x * of_left` is
/// `left * 2^halvings`, and `x * of_right` is minus `right * 2^halvings`.
#[derive(Clone, Copy)]
pub struct Step {
    pub left: BigInteger256,
    pub right: BigInteger256,
    pub of_left: BigInteger256,
    pub of_right: BigInteger256,
    pub halvings: u64,
    pub turned: bool,
}

impl Step {
    // The even number on the left without its low zeros, at most 63 of them.
    #[inline(always)]
    pub fn halved(self) -> Step
        requires some { 0 < integer self.left }
        requires even { self.left.w0 % 2 ≡ 0 }
        requires fits { integer self.left * integer self.of_right < 2 ^ 256 }
        requires few { self.halvings ≤ 510 }
        ensures { IsHalved self result }
    {
        let zeros = low_zeros(self.left.w0);
        Step {
            left: quotient(self.left, zeros),
            right: self.right,
            of_left: self.of_left,
            of_right: multiple(self.of_right, zeros),
            halvings: self.halvings + zeros as u64,
            turned: self.turned,
        }
    }

    // The difference of the two numbers on the left, and the lesser one on the right. Both differences are made, and
    // the words chosen without a branch, since no processor foresees which number is the lesser one.
    #[inline(always)]
    pub fn lessened(self) -> Step
        requires { integer self.of_left + integer self.of_right < 2 ^ 256 }
        ensures kept { integer self.right ≤ integer self.left → IsLessened self result }
        ensures turned { integer self.left < integer self.right → IsTurned self result }
    {
        let (less, turns) = difference(self.left, self.right);
        let (more, _below) = difference(self.right, self.left);
        let (of_both, _over) = sum(self.of_left, self.of_right);
        Step {
            left: chosen(turns, more, less),
            right: chosen(turns, self.left, self.right),
            of_left: of_both,
            of_right: chosen(turns, self.of_left, self.of_right),
            halvings: self.halvings,
            turned: self.turned != turns,
        }
    }
}

// How many zeros an even word ends in, or 63 for zero.
#[inline(always)]
fn low_zeros(word: u64) -> u32
    requires { word % 2 ≡ 0 }
    ensures some { 0 < result }
    ensures few { result < 64 }
    ensures zeros { word % 2 ^ result ≡ 0 }
{
    if word == 0 { 63 } else { word.trailing_zeros() }
}

// The low one of two words, after a shift of both by so many bits.
#[inline(always)]
fn shifted(low: u64, high: u64, bits: u32) -> u64
    requires some { 0 < bits }
    requires few { bits < 64 }
    ensures { result * 2 ^ bits + low % 2 ^ bits ≡ low + 2 ^ 64 * (high % 2 ^ bits) }
{
    (low >> bits) + (high << (64 - bits))
}

// The number without so many zeros at its end.
#[inline(always)]
pub fn quotient(a: BigInteger256, zeros: u32) -> BigInteger256
    requires some { 0 < zeros }
    requires few { zeros < 64 }
    requires zeros { a.w0 % 2 ^ zeros ≡ 0 }
    ensures { integer result * 2 ^ zeros ≡ integer a }
{
    BigInteger256 {
        w0: shifted(a.w0, a.w1, zeros),
        w1: shifted(a.w1, a.w2, zeros),
        w2: shifted(a.w2, a.w3, zeros),
        w3: shifted(a.w3, 0, zeros),
    }
}

// The number with so many zeros after it.
#[inline(always)]
fn multiple(a: BigInteger256, zeros: u32) -> BigInteger256
    requires some { 0 < zeros }
    requires few { zeros < 64 }
    requires fits { integer a * 2 ^ zeros < 2 ^ 256 }
    ensures { integer result ≡ integer a * 2 ^ zeros }
{
    let rest = 64 - zeros;
    BigInteger256 {
        w0: shifted(0, a.w0, rest),
        w1: shifted(a.w0, a.w1, rest),
        w2: shifted(a.w1, a.w2, rest),
        w3: shifted(a.w2, a.w3, rest),
    }
}
