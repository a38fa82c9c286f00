//! Sums, differences and products modulo an odd number `p` below 2^255, the products by Montgomery's method
//! ("Modular multiplication without trial division", 1985), one word after another (the CIOS form of Koc,
//! Acar and Kaliski, 1996). `i` is minus the inverse of the low word of `p`, modulo 2^64.

ghost use Rattle.std.specs.Prelude.{◌≡◌, ◌+◌, ◌*◌, ◌-◌, ◌%◌, ◌<◌, ◌^◌};
ghost use Rattle.ark_prime256.specs.Words.{integer, IsMontgomery, IsReduced};

use crate::words::{BigInteger256, add_multiple, chosen, difference, of_word, sum};

// `t` and some times `p`, without the low word, which is zero: the factor is the low word times `i`.
#[inline(always)]
const fn reduce(t: BigInteger256, top: u64, p: BigInteger256, i: u64) -> BigInteger256
    requires wide { IsMontgomery p i }
    requires fits { integer t + 2 ^ 256 * top + 18446744073709551615 * integer p < 2 ^ 320 }
    ensures { IsReduced (integer t + 2 ^ 256 * top) (integer p) (integer result) }
{
    let m = t.w0.wrapping_mul(i);
    let (_zero, carry) = m.carrying_mul_add(p.w0, 0, t.w0);
    let (w0, carry) = m.carrying_mul_add(p.w1, carry, t.w1);
    let (w1, carry) = m.carrying_mul_add(p.w2, carry, t.w2);
    let (w2, carry) = m.carrying_mul_add(p.w3, carry, t.w3);
    let w3 = top + carry;
    BigInteger256 { w0, w1, w2, w3 }
}

// A row of the product: `t + x * a`, reduced by a word.
#[inline(always)]
const fn row(t: BigInteger256, x: u64, a: BigInteger256, p: BigInteger256, i: u64) -> BigInteger256
    requires wide { IsMontgomery p i }
    requires t_in { integer t < 2 * integer p }
    requires a_in { integer a < integer p }
    ensures below { integer result < 2 * integer p }
    ensures reduced { IsReduced (integer t + x * integer a) (integer p) (integer result) }
{
    let (sum, top) = add_multiple(t, x, a);
    reduce(sum, top, p, i)
}

// A number below twice `p`, modulo `p`.
#[inline(always)]
const fn less_once(t: BigInteger256, p: BigInteger256) -> BigInteger256
    requires { integer t < 2 * integer p }
    ensures residue { integer result ≡ integer t % integer p }
    ensures below { integer result < integer p }
{
    let (less, is_below) = difference(t, p);
    chosen(is_below, t, less)
}

// Montgomery's product: 2^256 times the result leaves what `a * b` does.
#[inline]
pub const fn product(a: BigInteger256, b: BigInteger256, p: BigInteger256, i: u64) -> BigInteger256
    requires wide { IsMontgomery p i }
    requires a_in { integer a < integer p }
    ensures below { integer result < integer p }
    ensures residue { (2 ^ 256 * integer result) % integer p ≡ (integer a * integer b) % integer p }
{
    let t = of_word(0);
    let t1 = row(t, b.w0, a, p, i);
    let t2 = row(t1, b.w1, a, p, i);
    let t3 = row(t2, b.w2, a, p, i);
    let t4 = row(t3, b.w3, a, p, i);
    less_once(t4, p)
}

// The sum modulo `p`.
#[inline]
pub const fn plus(a: BigInteger256, b: BigInteger256, p: BigInteger256) -> BigInteger256
    requires small { integer p < 2 ^ 255 }
    requires a_in { integer a < integer p }
    requires b_in { integer b < integer p }
    ensures residue { integer result ≡ (integer a + integer b) % integer p }
    ensures below { integer result < integer p }
{
    let (whole, _over) = sum(a, b);
    less_once(whole, p)
}

// The difference modulo `p`.
#[inline]
pub const fn minus(a: BigInteger256, b: BigInteger256, p: BigInteger256) -> BigInteger256
    requires a_in { integer a < integer p }
    requires b_in { integer b < integer p }
    ensures residue { integer result ≡ (integer a + (integer p - integer b)) % integer p }
    ensures below { integer result < integer p }
{
    let (rest, below) = difference(a, b);
    let more = chosen(below, p, of_word(0));
    let (whole, _over) = sum(rest, more);
    whole
}

// The negative modulo `p`.
#[inline]
pub const fn negated(a: BigInteger256, p: BigInteger256) -> BigInteger256
    requires { integer a < integer p }
    ensures residue { integer result ≡ (integer p - integer a) % integer p }
    ensures below { integer result < integer p }
{
    minus(of_word(0), a, p)
}
