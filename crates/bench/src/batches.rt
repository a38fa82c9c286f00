//! Calls in batches of some 20 milliseconds, of which the least counts.

use ark_base::{
    FftField, Field, Lanes, PolyError, PrimeField, PrimeField32, PrimeModulus, PrimeModulus32,
};
use ark_extensions::Quadratic;
use ark_prime256::{PrimeField256, PrimeModulus256};
use ark_rows::Row;
use std::alloc::Global;
use std::io::Print;
use std::time::{Clock, Instant};

/// A call to be timed, whose results all go into the checksum.
pub trait Benchmark {
    /// One call, on an input that the last one changed.
    fn call(&mut self, alloc: Global) -> Result<(), PolyError>;

    /// Of the results so far.
    fn checksum(&self) -> u64;
}

/// An element or a byte that counts in checksums, as this number.
pub trait Number {
    fn number(&self) -> u64;
}

/// A field whose elements count in checksums.
pub trait Counted: FftField + Number {}

impl<M: PrimeModulus> Counted for PrimeField<M> {}

impl<M: PrimeModulus> Number for PrimeField<M> {
    fn number(&self) -> u64 {
        self.value()
    }
}

impl<M: PrimeModulus32> Counted for PrimeField32<M> {}

impl<M: PrimeModulus32> Number for PrimeField32<M> {
    fn number(&self) -> u64 {
        self.value() as u64
    }
}

impl<M: PrimeModulus256> Counted for PrimeField256<M> {}

impl<M: PrimeModulus256> Number for PrimeField256<M> {
    fn number(&self) -> u64 {
        self.to_words()[0]
    }
}

impl<F: Field + Number> Number for Lanes<F> {
    fn number(&self) -> u64 {
        let first = self.get(0).number().wrapping_mul(31);
        first.wrapping_add(self.get(1).number())
    }
}

impl<F: Number, M> Number for Quadratic<F, M> {
    fn number(&self) -> u64 {
        let first = self.c0.number().wrapping_mul(31);
        first.wrapping_add(self.c1.number())
    }
}

impl<F: Field + Number, const N: usize> Number for Row<F, N> {
    fn number(&self) -> u64 {
        mixed(self.as_slice())
    }
}

impl Number for u8 {
    fn number(&self) -> u64 {
        u64::from(*self)
    }
}

/// A number in which each value of the list counts by its place.
pub fn mixed<F: Number>(values: &[F]) -> u64 {
    let mut sum: u64 = 0;
    for value in values {
        sum = sum.wrapping_mul(31).wrapping_add(value.number());
    }
    sum
}

/// Where the lines go, and whether benchmarks are timed or made once.
#[derive(Drop)]
pub struct Reporter<'a, R> {
    pub rt: &'a R,
    pub alloc: Global,
    pub timed: bool,
}

const BATCHES: u32 = 30;

const BATCH_NANOS: u64 = 20_000_000;

impl<'a, R: Print + Clock> Reporter<'a, R> {
    /// Prints a benchmark's line: its name, its size, and its checksum after one call or, timed, the nanoseconds of a
    /// call.
    pub fn report<B: Benchmark>(
        &self,
        name: &str,
        size: usize,
        benchmark: &mut B,
    ) -> anyhow::Result<()> {
        if self.timed {
            let nanos = self.least(benchmark)?;
            println!(self.rt; "# checksum {}", benchmark.checksum())?;
            println!(self.rt; "{name}\t{size}\t{nanos}")?;
        } else {
            benchmark.call(self.alloc)?;
            println!(self.rt; "{name}\t{size}\t{}", benchmark.checksum())?;
        }
        Ok(())
    }

    // The nanoseconds of a call in the quickest batch.
    fn least<B: Benchmark>(&self, benchmark: &mut B) -> anyhow::Result<u64> {
        let once = self.batch(benchmark, 1)?;
        let calls = (BATCH_NANOS / once.max(1)).clamp(1, 1_000_000);
        let mut least = once;
        for _ in 0..BATCHES {
            least = least.min(self.batch(benchmark, calls)? / calls);
        }
        Ok(least)
    }

    // The nanoseconds of some calls.
    fn batch<B: Benchmark>(&self, benchmark: &mut B, calls: u64) -> anyhow::Result<u64> {
        let start = Instant::now(self.rt)?;
        for _ in 0..calls {
            benchmark.call(self.alloc)?;
        }
        Ok(u64::try_from(start.elapsed(self.rt)?.as_nanos()).unwrap_or(u64::MAX))
    }
}
