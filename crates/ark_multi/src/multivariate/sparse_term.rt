//! Terms by the variables that stand in them.

ghost use Rattle.std.specs.Prelude.{◌≡◌, ◌==◌, ◌++◌, refl};
ghost use Rattle.std.specs.Cmp.{and_equiv, and_per, nat_eq_equiv, on_equiv, on_per, partial_equiv_from_equiv};
ghost use Rattle.std.specs.Cmp.{unsigned_Decides};
ghost use Rattle.std.specs.Cmp.Lexicographic.{lists_equiv, lists_per};
ghost use Rattle.std.specs.Hash as fed;
ghost use Rattle.std.specs.Hash.{and-Alike, items_Alike, on_Alike, same_Alike};
ghost use Rattle.std.specs.Ordering.{as_partial_cmp};
ghost use Rattle.ark_math_variables.specs.Multivariate.{same_term};
ghost use Rattle.ark_tables.specs.Graded.{graded_cmp};
ghost use Rattle.ark_tables.proofs.GradedOrder.{graded_partial, graded_ties, graded_total, same_term_Decides};

mod bytes;

use crate::multivariate::Term;
use ark_tables::powers::{collected_powers, compared_powers, total_power, value_of_powers};
use ark_traits::{Field, PolyError};
use std::alloc::{AllocError, Global};
use std::cmp::Ordering;
use std::fmt::{self, Debug, Formatter, Write};
use std::hash::{Hash, Hasher};
use std::marker::Model;

/// A term by the powers of the variables that stand in it, by rising variables. The constant term has none.
///
/// By `cmp` the greater total degree is greater, and of equal totals that with the greater power of the least
/// variable where two differ: `laws::graded_order` states this order. Contracts see the list of the pairs of
/// variable and power.
#[derive(Drop)]
pub struct SparseTerm {
    powers: Vec<(usize, usize)>,
}

impl Model for SparseTerm {
    ghost use Rattle.std.specs.Prelude.{ℕ, List};
    ghost use Rattle.ark_math_variables.specs.Term.{IsTerm};

    ghost Value = { List (ℕ × ℕ) };

    ghost view = { λ t. t.powers.items };

    ghost invariant = { λ t. IsTerm t.powers.items };
}

impl PartialEq for SparseTerm {
    ghost eq = { same_term };

    ghost laws = { lists_per (and_per (on_per (λ p. p.0) (partial_equiv_from_equiv nat_eq_equiv))
        (on_per (λ p. p.1) (partial_equiv_from_equiv nat_eq_equiv))) };

    fn eq(&self, other: &Self) -> bool {
        self.powers == other.powers
    }
}

impl Eq for SparseTerm {
    ghost laws = { lists_equiv (and_equiv (on_equiv (λ p. p.0) nat_eq_equiv) (on_equiv (λ p. p.1) nat_eq_equiv)) };
}

impl PartialOrd for SparseTerm {
    ghost partial_cmp = { as_partial_cmp graded_cmp };

    ghost laws = { graded_partial };

    fn partial_cmp(&self, other: &Self) -> Option<Ordering> {
        Some(self.cmp(other))
    }
}

impl Ord for SparseTerm {
    ghost cmp = { graded_cmp };

    ghost total = { graded_total };

    ghost matches_partial_cmp = { λ s t. refl };

    ghost matches_eq = { graded_ties };

    fn cmp(&self, other: &Self) -> Ordering {
        compared_powers(&self.powers, &other.powers)
    }
}

impl Hash for SparseTerm {
    ghost hash_input = { fed.slice (λ p. fed.usize p.0 ++ fed.usize p.1) };

    ghost respects_eq = { (items_Alike (and-Alike (on_Alike (λ p. p.0) (same_Alike fed.usize unsigned_Decides))
        (on_Alike (λ p. p.1) (same_Alike fed.usize unsigned_Decides)))).fed };

    fn hash<H: Hasher>(&self, state: &mut H) {
        self.powers.hash(state);
    }
}

impl Clone for SparseTerm {
    ghost is_clone = { λ s t. t ≡ s };

    fn clone(&self) -> Result<Self, AllocError> {
        Ok(SparseTerm {
            powers: self.powers.clone()?,
        })
    }
}

impl Debug for SparseTerm {
    fn fmt<W: Write>(&self, f: &mut Formatter<W>) -> fmt::Result {
        for (variable, power) in &self.powers {
            match *power {
                1 => write!(f, " * x_{variable}")?,
                _ => write!(f, " * x_{variable}^{power}")?,
            }
        }
        Ok(())
    }
}

impl Term for SparseTerm {
    ghost use Rattle.ark_multi.specs.Layouts.{term};
    ghost use Rattle.ark_math_formats.proofs.Formats.Modes.{one_format};
    ghost use Rattle.ark_multi.specs.LayoutLaws.{term_tells};

    ghost listed = { λ t. t };

    fn new(alloc: Global, powers: Vec<(usize, usize)>) -> Result<Self, PolyError> {
        Ok(SparseTerm {
            powers: collected_powers(alloc, powers)?,
        })
    }

    fn pairs(&self) -> &[(usize, usize)] {
        &self.powers
    }

    fn degree(&self) -> usize {
        total_power(&self.powers)
    }

    fn vars(&self, alloc: Global) -> Result<Vec<usize>, PolyError> {
        Ok(self.powers.iter().map(|pair| pair.0).collect(alloc)?)
    }

    fn powers(&self, alloc: Global) -> Result<Vec<usize>, PolyError> {
        Ok(self.powers.iter().map(|pair| pair.1).collect(alloc)?)
    }

    fn is_constant(&self) -> bool {
        self.powers.is_empty()
    }

    fn evaluate<F: Field>(&self, point: &[F]) -> F {
        value_of_powers(&self.powers, point)
    }

    ghost equality_law = { same_term_Decides };

    ghost clone_law = { λ s t e. e };

    ghost pairs_law = { λ _. term_tells };

    ghost modes_law = { λ _ _. one_format term };
}
