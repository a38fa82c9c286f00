//! Whole numbers: exponents and logarithms.

ghost use Rattle.std.specs.Prelude.{◌≡◌, ◌≢◌, ℕ, ◌≤◌};
ghost use Rattle.ark_math.specs.Root.{IsGreatestPower};
ghost use Rattle.ark_math.specs.Cost.{IsLog2Up};

/// The greatest `a` for which `k^a` divides `n`, for `k` at least 2; 0 for `n` = 0.
pub fn k_adicity(k: u64, n: u64) -> u32
    requires { 2 ≤ k }
    ensures zero { n ≡ 0 → result ≡ 0 }
    ensures greatest { n ≢ 0 → IsGreatestPower k n result }
{
    if n == 0 {
        return 0;
    }
    let mut rest = n;
    let mut adicity = 0;
    'divide: while rest % k == 0 {
        rest /= k;
        adicity += 1;
    }
    adicity
}

/// The base two logarithm, rounded up; 0 for 0.
pub fn log2(x: usize) -> u32
    ensures { IsLog2Up x result }
{
    if x < 2 { 0 } else { (x - 1).ilog2() + 1 }
}
