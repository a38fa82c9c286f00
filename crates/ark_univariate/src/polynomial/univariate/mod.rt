//! Polynomials in one variable.

mod dense;
mod dense_or_sparse;
mod division;
mod sparse;

use ark_traits::Field;
pub use dense::DensePolynomial;
pub use dense_or_sparse::DenseOrSparsePolynomial;
pub use sparse::SparsePolynomial;
use std::fmt::{self, Formatter, Write};

// A term as `Debug` of either form shows it.
fn write_term<F: Field, W: Write>(
    f: &mut Formatter<W>,
    degree: usize,
    coefficient: &F,
) -> fmt::Result {
    match degree {
        0 => write!(f, "\n{coefficient:?}"),
        1 => write!(f, " + \n{coefficient:?} * x"),
        _ => write!(f, " + \n{coefficient:?} * x^{degree}"),
    }
}
