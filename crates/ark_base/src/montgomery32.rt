//! Sums, differences and products modulo an odd number `p` below 2^31, the products by Montgomery's method
//! ("Modular multiplication without trial division", 1985). `i` is minus the inverse of `p`, modulo 2^32.

ghost use Rattle.std.specs.Prelude.{◌≡◌, ◌+◌, ◌*◌, ◌-◌, ◌%◌, ◌<◌, ◌≤◌, ◌^◌};

// A number below twice `p`, modulo `p`: the lesser of it and what it is less `p`, which is a great number
// where it is below zero. There are instructions that choose so for several items at a time.
#[inline(always)]
fn less_once(value: u32, p: u32) -> u32
    requires small { p < 2 ^ 31 }
    requires twice { value < 2 * p }
    ensures below { result < p }
    ensures residue { result ≡ value % p }
{
    value.min(value.wrapping_sub(p))
}

// Montgomery's reduction: 2^32 times the result leaves what the value does. With `m` times `p` the low word
// is zero.
#[inline(always)]
fn reduce(value: u64, p: u32, i: u32) -> u32
    requires small { p < 2 ^ 31 }
    requires inverse { (p * i + 1) % 2 ^ 32 ≡ 0 }
    requires product { value < 2 ^ 32 * p }
    ensures below { result < p }
    ensures residue { (2 ^ 32 * result) % p ≡ value % p }
{
    let m = ((value % (1 << 32)) as u32).wrapping_mul(i);
    let sum = value + m as u64 * p as u64;
    less_once((sum >> 32) as u32, p)
}

// Montgomery's product: 2^32 times the result leaves what `a * b` does.
#[inline(always)]
pub fn product(a: u32, b: u32, p: u32, i: u32) -> u32
    requires small { p < 2 ^ 31 }
    requires inverse { (p * i + 1) % 2 ^ 32 ≡ 0 }
    requires a_in { a < p }
    ensures below { result < p }
    ensures residue { (2 ^ 32 * result) % p ≡ (a * b) % p }
{
    reduce(a as u64 * b as u64, p, i)
}

// Montgomery's reduction of a number that may be twice as large, such as the sum of four products.
#[inline(always)]
pub fn reduce_sum(value: u64, p: u32, i: u32) -> u32
    requires small { p < 2 ^ 31 }
    requires inverse { (p * i + 1) % 2 ^ 32 ≡ 0 }
    requires sum { value < 2 ^ 32 * (2 * p) }
    ensures below { result < p }
    ensures residue { (2 ^ 32 * result) % p ≡ value % p }
{
    reduce(less_once_wide(value, p), p, i)
}

// A number below 2^32 times twice `p`, less 2^32 times `p` where it isn't below that.
#[inline(always)]
fn less_once_wide(value: u64, p: u32) -> u64
    requires small { p < 2 ^ 31 }
    requires twice { value < 2 ^ 32 * (2 * p) }
    ensures below { result < 2 ^ 32 * p }
    ensures residue { result % p ≡ value % p }
{
    let whole = (p as u64) << 32;
    if value < whole { value } else { value - whole }
}

// The sum modulo `p`.
#[inline(always)]
pub fn plus(a: u32, b: u32, p: u32) -> u32
    requires small { p < 2 ^ 31 }
    requires a_in { a < p }
    requires b_in { b < p }
    ensures below { result < p }
    ensures residue { result ≡ (a + b) % p }
{
    less_once(a + b, p)
}

// The difference modulo `p`.
#[inline(always)]
pub fn minus(a: u32, b: u32, p: u32) -> u32
    requires small { p < 2 ^ 31 }
    requires a_in { a < p }
    requires b_in { b < p }
    ensures below { result < p }
    ensures residue { result ≡ (a + (p - b)) % p }
{
    let less = a.wrapping_sub(b);
    less.min(less.wrapping_add(p))
}

// The negative modulo `p`.
#[inline(always)]
pub fn negated(a: u32, p: u32) -> u32
    requires small { p < 2 ^ 31 }
    requires a_in { a < p }
    ensures below { result < p }
    ensures residue { result ≡ (p - a) % p }
{
    less_once(p - a, p)
}
