//! A generator that counts what is drawn from it.

use rand::Rng;

/// A generator, and how many words it has given. A draw of an element of a small field takes one.
#[derive(Drop)]
pub struct Counting<R> {
    pub rng: R,
    pub draws: u64,
}

impl<R> Counting<R> {
    /// The generator, from which nothing was drawn.
    pub fn new(rng: R) -> Counting<R> {
        Counting { rng, draws: 0 }
    }
}

impl<R: Rng> Rng for Counting<R> {
    ghost stream = { λ counting. R.stream counting.rng };

    fn next_u32(&mut self) -> u32 {
        self.draws = self.draws.saturating_add(1);
        self.rng.next_u32()
    }

    fn next_u64(&mut self) -> u64 {
        self.draws = self.draws.saturating_add(1);
        self.rng.next_u64()
    }

    fn fill_bytes(&mut self, dst: &mut [u8]) {
        self.draws = self.draws.saturating_add(1);
        self.rng.fill_bytes(dst)
    }
}
