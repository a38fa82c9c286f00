//! Inputs, the same at each run.

ghost use Rattle.std.specs.Prelude.{◌<◌};

use ark_base::{Field, Lanes, PolyError};
use ark_poly::univariate::DensePolynomial;
use ark_poly::{DenseUVPolynomial, MultilinearExtension};
use rand::seq::SliceRandom;
use rand_core::Rng;
use rand_pcg::Pcg64;
use std::alloc::{AllocError, Global};

#[derive(Drop)]
pub struct Draws {
    rng: Pcg64,
}

impl Draws {
    pub fn new() -> Draws {
        Draws {
            rng: Pcg64::new(1, 1),
        }
    }

    pub fn element<F: Field>(&mut self) -> F {
        F::from(self.rng.next_u64())
    }

    pub fn list<F: Field>(&mut self, alloc: Global, len: usize) -> Result<Vec<F>, AllocError> {
        let mut list = Vec::with_capacity(alloc, len)?;
        for _ in 0..len {
            list.push(self.element())?;
        }
        Ok(list)
    }

    /// Elements drawn among all of a field, which numbers of a word may be few of.
    pub fn random_list<F: Field>(
        &mut self,
        alloc: Global,
        len: usize,
    ) -> Result<Vec<F>, AllocError> {
        let mut list = Vec::with_capacity(alloc, len)?;
        for _ in 0..len {
            list.push(F::rand(&mut self.rng))?;
        }
        Ok(list)
    }

    pub fn bytes(&mut self, alloc: Global, len: usize) -> Result<Vec<u8>, AllocError> {
        let mut bytes = Vec::with_capacity(alloc, len)?;
        for _ in 0..len {
            bytes.push((self.rng.next_u64() % 256) as u8)?;
        }
        Ok(bytes)
    }

    /// A list of `len` marks. A drawn choice of `set` of them are set, or all where there are fewer.
    pub fn marks(
        &mut self,
        alloc: Global,
        len: usize,
        set: usize,
    ) -> Result<Vec<bool>, AllocError> {
        let mut marks = Vec::with_capacity(alloc, len)?;
        for i in 0..len {
            marks.push(i < set)?;
        }
        marks.shuffle(&mut self.rng);
        Ok(marks)
    }

    pub fn pairs<F: Field>(
        &mut self,
        alloc: Global,
        len: usize,
    ) -> Result<Vec<Lanes<F>>, AllocError> {
        let mut pairs = Vec::with_capacity(alloc, len)?;
        for _ in 0..len {
            pairs.push(Lanes::new(self.element(), self.element()))?;
        }
        Ok(pairs)
    }

    /// A polynomial with so many coefficients, or fewer where the last ones are drawn as zero.
    pub fn dense<F: Field>(
        &mut self,
        alloc: Global,
        len: usize,
    ) -> Result<DensePolynomial<F>, AllocError> {
        Ok(DensePolynomial::from_coefficients_vec(self.list(alloc, len)?))
    }

    /// Terms of rising degrees, one in each block of 1,024.
    pub fn terms<F: Field>(
        &mut self,
        alloc: Global,
        count: usize,
    ) -> Result<Vec<(usize, F)>, AllocError> {
        let mut terms = Vec::with_capacity(alloc, count)?;
        let mut block: usize = 0;
        for _ in 0..count {
            let place = (self.rng.next_u64() % 1024) as usize;
            terms.push((block.saturating_add(place), self.element()))?;
            block = block.saturating_add(1024);
        }
        Ok(terms)
    }

    /// A multilinear extension of so many variables, where a place is found for each value within 100 draws.
    pub fn extension<F: Field, E: MultilinearExtension<F>>(
        &mut self,
        alloc: Global,
        num_vars: usize,
    ) -> Result<Option<E>, PolyError>
        requires { num_vars < 64 }
    {
        E::rand(alloc, num_vars, &mut self.rng, 100)
    }
}
