//! Calls of polynomials in one variable and of values over a domain that change what they are given, or that no case
//! makes.

use crate::given::{domain_named, named, size_named};
use crate::kinds::{Kind, both_named};
use crate::swept::Call;
use ark_base::{Compress, FftField, PolyError, batch_inversion};
use ark_poly::laws::values_read_back;
use ark_poly::univariate::{DenseOrSparsePolynomial, DensePolynomial, SparsePolynomial};
use ark_poly::{DenseUVPolynomial, EvaluationDomain, Evaluations};
use rand_pcg::Pcg64;
use std::alloc::Global;
use test_cases::answers::Answer;
use test_cases::words::{elements, no_case, text_of, text_of_flags, text_of_terms};
use test_types::numbered::Numbered;

/// Two dense polynomials and a sparse one, a list, a number, a domain, and values over it.
#[derive(Drop)]
pub struct OfOne<F: FftField, D: EvaluationDomain<F>> {
    left: DensePolynomial<F>,
    right: DensePolynomial<F>,
    sparse: SparsePolynomial<F>,
    list: Vec<F>,
    number: usize,
    domain: D,
    values: Evaluations<F, D>,
    divisors: Evaluations<F, D>,
}

/// What the calls answer.
#[derive(Drop)]
pub enum Answered<F: FftField> {
    Dense(DensePolynomial<F>),
    Sparse(SparsePolynomial<F>),
    DenseInPlace,
    ValuesInPlace,
    ListInPlace,
    Flag(bool),
    NoCall,
}

// The values of this name over the domain: zeros without a word.
fn values_named<F: Numbered, D: EvaluationDomain<F>>(
    alloc: Global,
    domain: D,
    word: &str,
) -> Result<Evaluations<F, D>, PolyError> {
    let values = elements(alloc, word)?;
    if values.len() != domain.size() {
        return Evaluations::zero(alloc, domain);
    }
    Ok(Evaluations::from_vec_and_domain(values, domain))
}

// The values of both names.
fn both_values_named<F: Numbered, D: EvaluationDomain<F>>(
    alloc: Global,
    domain: D,
    words: &[String],
) -> Result<(Evaluations<F, D>, Evaluations<F, D>), PolyError> {
    let values = values_named(alloc, domain, named(words, "values"))?;
    let divisors = values_named(alloc, domain, named(words, "divisors"))?;
    Ok((values, divisors))
}

// The sparse polynomial, and the list.
fn lists_named<F: Numbered>(
    alloc: Global,
    words: &[String],
) -> Result<(SparsePolynomial<F>, Vec<F>), PolyError> {
    let sparse = Kind::of(alloc, named(words, "sparse"))?;
    let list = elements(alloc, named(words, "list"))?;
    Ok((sparse, list))
}

impl<F: Numbered, D: EvaluationDomain<F>> Call for OfOne<F, D> {
    type Answered = Answered<F>;

    fn given(alloc: Global, words: &[String]) -> Result<Self, PolyError> {
        let domain = domain_named(words, "domain")?;
        let (left, right) = both_named(alloc, words, "left", "right")?;
        let (sparse, list) = lists_named(alloc, words)?;
        let (values, divisors) = both_values_named(alloc, domain, words)?;
        Ok(OfOne {
            left,
            right,
            sparse,
            list,
            number: size_named(words, "number"),
            domain,
            values,
            divisors,
        })
    }

    fn call(&mut self, alloc: Global, name: &str) -> Result<Answered<F>, PolyError> {
        match name.split_once(' ') {
            Some(("dense", name)) => self.of_dense(alloc, name),
            Some(("sparse", name)) => self.of_sparse(alloc, name),
            Some(("values", name)) => self.values_in_place(alloc, name),
            _ if name == "values_read_back" => self.read_back(alloc),
            _ => in_place(
                batch_inversion(alloc, &mut self.list),
                Answered::ListInPlace,
            ),
        }
    }

    fn is_same(&self, other: &Self) -> bool {
        self.left == other.left
            && self.right == other.right
            && self.sparse == other.sparse
            && self.list == other.list
            && self.values == other.values
            && self.divisors == other.divisors
    }

    fn text(&self, alloc: Global, answered: &Answered<F>) -> Answer {
        match answered {
            Answered::Dense(p) => text_of(alloc, p.coeffs()),
            Answered::Sparse(p) => text_of_terms(alloc, p.coeffs()),
            Answered::DenseInPlace => text_of(alloc, self.left.coeffs()),
            Answered::ValuesInPlace => text_of(alloc, self.values.evals()),
            Answered::ListInPlace => text_of(alloc, &self.list),
            Answered::Flag(flag) => text_of_flags(alloc, &[*flag]),
            Answered::NoCall => no_case(alloc),
        }
    }
}

impl<F: Numbered, D: EvaluationDomain<F>> OfOne<F, D> {
    // Makes a call of dense polynomials.
    fn of_dense(&mut self, alloc: Global, name: &str) -> Result<Answered<F>, PolyError> {
        match name {
            "add_assign_sparse" => in_place(
                self.left.add_assign_sparse(alloc, &self.sparse),
                Answered::DenseInPlace,
            ),
            "sub_assign_sparse" => in_place(
                self.left.sub_assign_sparse(alloc, &self.sparse),
                Answered::DenseInPlace,
            ),
            "mul_over_domain" => dense_of(
                self.left.mul_over_domain(alloc, &self.right, self.domain),
            ),
            "rand" => self.drawn(alloc),
            "mul" => dense_of(self.left.mul(alloc, &self.right)),
            "div" => dense_of(self.left.div(alloc, &self.right)),
            "add_sparse" => dense_of(self.left.add_sparse(alloc, &self.sparse)),
            "sub_sparse" => dense_of(self.left.sub_sparse(alloc, &self.sparse)),
            "divide_by_transforms" => {
                let division = self.left.divide_by_transforms(alloc, &self.right)?;
                Ok(Answered::Flag(division.is_some()))
            }
            "into_sparse" => sparse_of(DenseOrSparsePolynomial::from(&self.left).into_sparse(
                alloc,
            )),
            _ => Ok(Answered::NoCall),
        }
    }

    // Makes a call of sparse polynomials.
    fn of_sparse(&self, alloc: Global, name: &str) -> Result<Answered<F>, PolyError> {
        let held = DenseOrSparsePolynomial::from(&self.sparse);
        match name {
            "mul" => sparse_of(self.sparse.mul(alloc, &self.sparse)),
            "to_dense" => dense_of(DensePolynomial::from_sparse(alloc, &self.sparse)),
            "into_dense" => dense_of(held.into_dense(alloc)),
            "divide_with_q_and_r" => {
                let divisor = DenseOrSparsePolynomial::from(&self.right);
                let division = held.divide_with_q_and_r(alloc, &divisor)?;
                Ok(Answered::Flag(division.is_some()))
            }
            _ => Ok(Answered::NoCall),
        }
    }

    // The values that are read from their own bytes, whose only refusal is that of memory.
    fn read_back(&self, alloc: Global) -> Result<Answered<F>, PolyError> {
        match values_read_back(alloc, &self.values, Compress::No) {
            Ok(read) => Ok(Answered::Flag(read == self.values)),
            Err(_) => Err(PolyError::Memory),
        }
    }

    fn drawn(&self, alloc: Global) -> Result<Answered<F>, PolyError> {
        let mut rng = Pcg64::new(48, 1);
        let drawn = DensePolynomial::<F>::rand(alloc, self.number, &mut rng, 1000)?;
        Ok(Answered::Flag(drawn.is_some_and(|p| p.coeffs().len() > self.number)))
    }

    // Makes a call that changes values over a domain.
    fn values_in_place(&mut self, alloc: Global, name: &str) -> Result<Answered<F>, PolyError> {
        if is_changed(alloc, name, &mut self.values, &self.divisors)? {
            Ok(Answered::ValuesInPlace)
        } else {
            Ok(Answered::NoCall)
        }
    }
}

// ---- outcomes as answers

fn in_place<F: FftField, E: Into<PolyError>>(
    done: Result<(), E>,
    answer: Answered<F>,
) -> Result<Answered<F>, PolyError> {
    match done {
        Ok(()) => Ok(answer),
        Err(error) => Err(error.into()),
    }
}

fn dense_of<F: FftField>(
    made: Result<DensePolynomial<F>, PolyError>,
) -> Result<Answered<F>, PolyError> {
    Ok(Answered::Dense(made?))
}

fn sparse_of<F: FftField>(
    made: Result<SparsePolynomial<F>, PolyError>,
) -> Result<Answered<F>, PolyError> {
    Ok(Answered::Sparse(made?))
}

// Makes a call that changes the first values, where they are over one domain, and tells whether there is one of this
// name.
fn is_changed<F: FftField, D: EvaluationDomain<F>>(
    alloc: Global,
    name: &str,
    p: &mut Evaluations<F, D>,
    q: &Evaluations<F, D>,
) -> Result<bool, PolyError> {
    if p.domain() != q.domain() {
        return Ok(false);
    }
    match name {
        "add_assign" => p.add_assign(q),
        "sub_assign" => p.sub_assign(q),
        "mul_assign" => p.mul_assign(q),
        "div_assign" => p.div_assign(alloc, q)?,
        _ => return Ok(false),
    }
    Ok(true)
}
