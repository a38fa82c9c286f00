//! A dense polynomial in bytes, in memory.

use crate::batches::{Benchmark, Number, mixed};
use ark_base::{CanonicalDeserialize, CanonicalSerialize, Field, IoSink, PolyError};
use ark_poly::DenseUVPolynomial;
use ark_poly::univariate::DensePolynomial;
use std::alloc::Global;
use std::mem;

/// The bytes of a polynomial, into the room that the last ones took.
#[derive(Drop)]
pub struct Written<F: Field> {
    pub polynomial: DensePolynomial<F>,
    pub bytes: Vec<u8>,
}

impl<F: Field + Number> Benchmark for Written<F> {
    fn call(&mut self, alloc: Global) -> Result<(), PolyError> {
        let mut bytes = mem::replace(&mut self.bytes, Vec::new(alloc));
        bytes.clear();
        let mut sink = IoSink::new(bytes);
        let written = self.polynomial.serialize_compressed(&mut sink);
        self.bytes = sink.into_inner();
        // A list takes all bytes for which there is memory.
        written.map_err(|_| PolyError::Memory)
    }

    fn checksum(&self) -> u64 {
        mixed(self.bytes.as_slice())
    }
}

/// The polynomial that the bytes spell.
#[derive(Drop)]
pub struct ReadBack<F: Field> {
    pub bytes: Vec<u8>,
    pub polynomial: DensePolynomial<F>,
}

impl<F: Field + Number> Benchmark for ReadBack<F> {
    fn call(&mut self, alloc: Global) -> Result<(), PolyError> {
        let mut source = self.bytes.as_slice();
        // What was written is read for as long as there is memory.
        self.polynomial = DensePolynomial::deserialize_compressed(alloc, &mut source).map_err(
            |_| PolyError::Memory,
        )?;
        Ok(())
    }

    fn checksum(&self) -> u64 {
        mixed(self.polynomial.coeffs())
    }
}
