//! Callers of polynomials and evaluations as another crate writes them: each is proved from public contracts alone.

ghost use Rattle.std.specs.Prelude.{◌≡◌, ◌≢◌, ◌↔◌, ◌-◌, ◌<◌, IsTrue, IfOk, length, slice_get};
ghost use Rattle.ark_math.specs.Univariate.{IsValue, added, of_list, of_pairs};

use ark_base::{FftField, Field, PolyError};
use ark_poly::univariate::{DensePolynomial, SparsePolynomial};
use ark_poly::{DenseUVPolynomial, EvaluationDomain, Evaluations, Polynomial};
use std::alloc::{AllocError, Global};

/// The value of a sum.
pub fn value_of_sum<F: Field>(
    alloc: Global,
    left: &DensePolynomial<F>,
    right: &DensePolynomial<F>,
    point: &F,
) -> Result<F, PolyError>
    ensures { IfOk result (IsValue F.field
        (added F.field (of_list F.field left.now) (of_list F.field right.now)) point.now) }
{
    left.add(alloc, right)?.evaluate(alloc, point)
}

/// The degree is the number of coefficients less one, and 0 where there is none.
pub fn degree_is_count_less_one<F: Field, P: DenseUVPolynomial<F>>(polynomial: &P) -> bool
    ensures { IsTrue result }
{
    polynomial.degree() == polynomial.coeffs().len().saturating_sub(1)
}

/// The coefficient of the highest power.
pub fn leading_coefficient<F: Field, P: DenseUVPolynomial<F>>(polynomial: &P) -> F
    requires { 0 < length (P.listed polynomial.now) }
    ensures { result ≢ F.field.zero }
{
    let coeffs = polynomial.coeffs();
    coeffs[coeffs.len() - 1]
}

/// Whether two forms denote the same polynomial.
pub fn denote_the_same<F: Field, P: Polynomial<F>>(left: &P, right: &P) -> bool
    ensures { IsTrue result ↔ (P.meaning left.now ≡ P.meaning right.now) }
{
    left == right
}

/// Whether two dense polynomials have the same coefficients.
pub fn denote_the_same_dense<F: Field>(
    left: &DensePolynomial<F>,
    right: &DensePolynomial<F>,
) -> bool
    ensures { IsTrue result ↔ (of_list F.field left.now ≡ of_list F.field right.now) }
{
    denote_the_same(left, right)
}

/// Whether two sparse polynomials have the same terms.
pub fn denote_the_same_sparse<F: Field>(
    left: &SparsePolynomial<F>,
    right: &SparsePolynomial<F>,
) -> bool
    ensures { IsTrue result ↔ (of_pairs F.field left.now ≡ of_pairs F.field right.now) }
{
    left.equality_law(right);
    left == right
}

/// Whether both values and domains are the same.
pub fn same_evaluations<F: FftField, D: EvaluationDomain<F>>(
    left: &Evaluations<F, D>,
    right: &Evaluations<F, D>,
) -> bool
    ensures { IsTrue result
        ↔ (left.now.evals ≡ right.now.evals) × (D.domain left.now.domain ≡ D.domain right.now.domain) }
{
    left.equality_law(right);
    left == right
}

/// The value at the last element.
pub fn last_value<F: FftField, D: EvaluationDomain<F>>(evaluations: &Evaluations<F, D>) -> F
    requires { 0 < (D.domain evaluations.now.domain).size }
    ensures { slice_get evaluations.now.evals ((D.domain evaluations.now.domain).size - 1) ≡ Some result }
{
    evaluations.evals()[evaluations.domain().size() - 1]
}

/// A clone of a polynomial by its coefficients is the same.
pub fn cloned_dense<F: Field>(
    polynomial: &DensePolynomial<F>,
) -> Result<DensePolynomial<F>, AllocError>
    ensures { IfOk result (λ clone. clone ≡ polynomial.now) }
{
    polynomial.clone()
}

/// A clone of a polynomial by its terms is the same.
pub fn cloned_sparse<F: Field>(
    polynomial: &SparsePolynomial<F>,
) -> Result<SparsePolynomial<F>, AllocError>
    ensures { IfOk result (λ clone. clone ≡ polynomial.now) }
{
    polynomial.clone()
}

/// A clone of evaluations has their values and their domain.
pub fn cloned_evaluations<F: FftField, D: EvaluationDomain<F>>(
    evaluations: &Evaluations<F, D>,
) -> Result<Evaluations<F, D>, AllocError>
    ensures { IfOk result (λ clone. clone ≡ evaluations.now) }
{
    evaluations.clone()
}
