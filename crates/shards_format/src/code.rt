//! What splitting and joining ask of a code.

ghost use Rattle.std.specs.Prelude.{◌≡◌, ◌≢◌, ℕ, ◌+◌, ◌*◌, ◌<◌, ◌≤◌, ◌^◌, ◌↔◌, List, length, get_or, IsSome, IfOk, IfSome, OnOk};

use std::alloc::{AllocError, Global};

/// Numbers that stripes have at places that differ.
#[derive(Clone, Copy, Debug)]
pub struct PlacedNumbers<'a> {
    /// The places.
    pub places: &'a [usize],
    /// How many stripes have numbers there.
    pub stripes: usize,
    /// One number for each stripe, those at the first place first.
    pub numbers: &'a [u32],
    ghost apart: { (a b : ℕ) → a < b → b < length places.now → get_or places.now a 0 ≢ get_or places.now b 0 },
    ghost len: { length numbers.now ≡ length places.now * stripes },
}

/// A code for stripes, in systematic form. A stripe is `k` items below 2^16; it has a number of at most 2^16 at each of `n`
/// places, at the first `k` places its items, and the numbers at any `k` places tell all the others.
pub trait StripeCode: Drop + Sized {
    /// What the numbers at wanted places are found by from those at `k` given ones. It is made once for these places, and
    /// serves any number of stripes.
    type Extender: Drop;

    // The number of a stripe's items at a place: `number k n items place`.
    ghost number: { ℕ → ℕ → (ℕ → ℕ) → ℕ → ℕ };

    ghost k_of: { Self → ℕ };

    ghost n_of: { Self → ℕ };

    // Whether there is a code for `k` items and `n` places.
    ghost has: { ℕ → ℕ → Type 0 };

    // Whether an extender is one of the code, the places that are given to it, and those that are wanted.
    ghost is_of: { Self → Self.Extender → Type 0 };

    ghost given_of: { Self.Extender → List ℕ };

    ghost wanted_of: { Self.Extender → List ℕ };

    /// The code for `k` items and `n` places, and `None` exactly where there is none.
    fn new(k: usize, n: usize) -> Option<Self>
        ensures exists { IsSome result ↔ has k n }
        ensures k { IfSome result (λ c. Self.k_of c ≡ k) }
        ensures n { IfSome result (λ c. Self.n_of c ≡ n) };

    /// The number of a stripe's items.
    fn k(&self) -> usize
        ensures k { result ≡ Self.k_of self.now }
        ensures positive { 0 < result }
        ensures few { result ≤ 65536 }
        ensures fits { result ≤ Self.n_of self.now }
        ensures has { has (Self.k_of self.now) (Self.n_of self.now) };

    /// The number of places.
    fn n(&self) -> usize
        ensures n { result ≡ Self.n_of self.now }
        ensures few { result ≤ 65536 };

    /// What the numbers at the wanted places are found by from those at the given ones: `k` places, which differ.
    fn extender(
        &self,
        alloc: Global,
        given: &[usize],
        wanted: &[usize],
    ) -> Result<Self::Extender, AllocError>
        requires given { length given.now ≡ Self.k_of self.now }
        requires given_below { (a : ℕ) → a < length given.now → get_or given.now a 0 < Self.n_of self.now }
        requires apart { (a b : ℕ) → a < b → b < length given.now → get_or given.now a 0 ≢ get_or given.now b 0 }
        requires wanted_below { (b : ℕ) → b < length wanted.now → get_or wanted.now b 0 < Self.n_of self.now }
        ensures code { IfOk result (λ e. is_of self.now e) }
        ensures given { IfOk result (λ e. given_of e ≡ given.now) }
        ensures wanted { IfOk result (λ e. wanted_of e ≡ wanted.now) };

    /// The numbers of stripes at the wanted places, those at the first of them first, from their numbers at the given ones.
    fn extend(
        &self,
        alloc: Global,
        extender: &Self::Extender,
        given: &PlacedNumbers<'_>,
        wanted: &mut [u32],
    ) -> Result<(), AllocError>
        requires code { is_of self.now extender.now }
        requires given { given.now.places.now ≡ given_of extender.now }
        requires small { (p : ℕ) → get_or given.now.numbers.now p 0 ≤ 65536 }
        requires wanted { length wanted.old ≡ length (wanted_of extender.now) * given.now.stripes }
        ensures { OnOk result ((s : ℕ) (stripe : ℕ → ℕ) → s < given.now.stripes
            → ((j : ℕ) → j < Self.k_of self.now → stripe j < 2 ^ 16)
            → ((a : ℕ) → a < Self.k_of self.now → get_or given.now.numbers.now (a * given.now.stripes + s) 0
            ≡ number (Self.k_of self.now) (Self.n_of self.now) stripe (get_or given.now.places.now a 0))
            → (b : ℕ) → b < length (wanted_of extender.now) → get_or wanted.new (b * given.now.stripes + s) 0
            ≡ number (Self.k_of self.now) (Self.n_of self.now) stripe (get_or (wanted_of extender.now) b 0)) };

    // A number depends on the stripe's items alone, and is at most 2^16.
    ghost number_below: { (k n : ℕ) (a b : ℕ → ℕ) (i : ℕ) → ((j : ℕ) → j < k → a j ≡ b j) → number k n a i ≡ number k n b i };

    ghost number_fits: { (k n : ℕ) (a : ℕ → ℕ) (i : ℕ) → number k n a i ≤ 65536 };

    // At the first places are the items themselves.
    ghost systematic: { (k n : ℕ) (a : ℕ → ℕ) (i : ℕ) → has k n → i < k → a i < 2 ^ 16 → number k n a i ≡ a i };
}
