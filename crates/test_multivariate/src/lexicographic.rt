//! Terms in another order: the lexicographic one, in which lower variables weigh more, whatever the total degrees.

ghost use Rattle.std.specs.Prelude.{◌≡◌};
ghost use Rattle.std.specs.Cmp.{on_total, po};
ghost use Rattle.std.specs.Cmp.Lexicographic.{slice_cmp};
ghost use Rattle.std.specs.Ordering.{as_partial_cmp, on};
ghost use Rattle.ark_tables.specs.Graded.{pair_cmp};
ghost use Rattle.ark_tables.proofs.GradedOrder.{pairs_ties, pairs_total, same_term_Decides};
ghost use Rattle.std.proofs.Common.{refl};

use ark_base::{
    CanonicalDeserialize, CanonicalSerialize, Compress, Field, PolyError, SerializationError, Sink,
    Source, Spelled, Valid,
};
use ark_multi::multivariate::{SparseTerm, Term};
use ark_tables::powers::compared_pairs;
use std::alloc::{AllocError, Global};
use std::cmp::Ordering;

#[derive(PartialEq, Eq, Hash, Debug, Drop)]
pub struct LexicographicTerm {
    term: SparseTerm,
}

impl Clone for LexicographicTerm {
    ghost is_clone = { λ s t. t.term ≡ s.term };

    fn clone(&self) -> Result<Self, AllocError> {
        Ok(LexicographicTerm {
            term: self.term.clone()?,
        })
    }
}

impl PartialOrd for LexicographicTerm {
    ghost partial_cmp = { as_partial_cmp (on (λ t. t.term) (slice_cmp pair_cmp)) };

    ghost laws = { po (on_total (λ t. t.term) pairs_total) (λ s t. pairs_ties s.term t.term) };

    fn partial_cmp(&self, other: &Self) -> Option<Ordering> {
        Some(self.cmp(other))
    }
}

impl Ord for LexicographicTerm {
    ghost cmp = { on (λ t. t.term) (slice_cmp pair_cmp) };

    ghost total = { on_total (λ t. t.term) pairs_total };

    ghost matches_partial_cmp = { λ s t. refl };

    ghost matches_eq = { λ s t. pairs_ties s.term t.term };

    fn cmp(&self, other: &Self) -> Ordering {
        compared_pairs(self.term.pairs(), other.term.pairs())
    }
}

impl Spelled for LexicographicTerm {
    ghost use Rattle.std.specs.Prelude.{ℕ, List};
    ghost use Rattle.ark_math_formats.specs.Format.{stored};
    ghost use Rattle.ark_multi.specs.Layouts.{term};
    ghost use Rattle.ark_math_formats.proofs.Formats.Ends.{lawful_is_format};
    ghost use Rattle.ark_math_formats.proofs.Formats.OneToOne.{lawful_shows};
    ghost use Rattle.ark_multi.specs.LayoutLaws.{term_is_format, term_tells};

    ghost format = { λ _. stored term (λ t. t.term) };

    ghost format_law = { λ _. lawful_is_format term (λ t. t.term) (λ _. Unit {0}) term_is_format };

    ghost Shown = { List (ℕ × ℕ) };

    ghost shown = { λ t. t.term };

    ghost tells = { λ _. lawful_shows term (λ t. t.term) (λ _. Unit {0}) (λ ps. ps) (λ t. t.term)
        term_tells (λ s t e. e) };
}

impl CanonicalSerialize for LexicographicTerm {
    ghost use Rattle.ark_math_formats.specs.Format.{stored};
    ghost use Rattle.ark_multi.specs.Layouts.{term};
    ghost use Rattle.ark_math_formats.proofs.Formats.Modes.{keeps_itself};

    fn serialize_with_mode<W: Sink>(
        &self,
        writer: &mut W,
        mode: Compress,
    ) -> Result<(), SerializationError> {
        self.term.serialize_with_mode(writer, mode)
    }

    fn serialized_size(&self, mode: Compress) -> Option<usize> {
        self.term.serialized_size(mode)
    }

    ghost both_modes = { λ _ _. keeps_itself (stored term (λ t. t.term)) };
}

impl Valid for LexicographicTerm {
    fn check(&self) -> Result<(), SerializationError> {
        Ok(())
    }
}

impl CanonicalDeserialize for LexicographicTerm {
    ghost takes_memory = { Unit {0} };

    fn deserialize_with_mode<R: Source>(
        alloc: Global,
        reader: &mut R,
        mode: Compress,
    ) -> Result<Self, SerializationError> {
        Ok(LexicographicTerm {
            term: SparseTerm::deserialize_with_mode(alloc, reader, mode)?,
        })
    }
}

impl Term for LexicographicTerm {
    ghost use Rattle.ark_math_formats.specs.Format.{stored};
    ghost use Rattle.ark_multi.specs.Layouts.{term};
    ghost use Rattle.ark_math_formats.proofs.Formats.Modes.{one_format};
    ghost use Rattle.ark_math_formats.proofs.Formats.OneToOne.{lawful_shows};
    ghost use Rattle.ark_multi.specs.LayoutLaws.{term_tells};

    ghost listed = { λ t. t.term };

    fn new(alloc: Global, powers: Vec<(usize, usize)>) -> Result<Self, PolyError> {
        Ok(LexicographicTerm {
            term: SparseTerm::new(alloc, powers)?,
        })
    }

    fn pairs(&self) -> &[(usize, usize)] {
        self.term.pairs()
    }

    fn degree(&self) -> usize {
        self.term.degree()
    }

    fn vars(&self, alloc: Global) -> Result<Vec<usize>, PolyError> {
        self.term.vars(alloc)
    }

    fn powers(&self, alloc: Global) -> Result<Vec<usize>, PolyError> {
        self.term.powers(alloc)
    }

    fn is_constant(&self) -> bool {
        self.term.is_constant()
    }

    fn evaluate<F: Field>(&self, point: &[F]) -> F {
        self.term.evaluate(point)
    }

    ghost equality_law = { λ s t. same_term_Decides s.term t.term };

    ghost clone_law = { λ s t e. e };

    ghost pairs_law = { λ _. lawful_shows term (λ t. t.term) (λ _. Unit {0}) (λ ps. ps) (λ t. t.term)
        term_tells (λ s t e. e) };

    ghost modes_law = { λ _ _. one_format (stored term (λ t. t.term)) };
}
