//! The order of elements, and how they are written.

ghost use Rattle.std.proofs.Common.{rules};
ghost use Rattle.std.specs.Cmp.{partial_order_from_own_ties};
ghost use Rattle.std.specs.Cmp.Rules.{comparing};
ghost use Rattle.std.specs.Ordering.{on, then_cmp, as_partial_cmp};

use crate::quadratic::Quadratic;
use std::cmp::Ordering;
use std::fmt;
use std::fmt::{Debug, Display, Formatter, Write};

/// By the coefficient of x, and where these are equal by that of 1.
impl<F: Ord, M> Ord for Quadratic<F, M> {
    ghost cmp = { then_cmp (on (λ a. a.c1) F.cmp) (on (λ a. a.c0) F.cmp) };

    ghost total = { Prim.search (comparing, rules) };

    ghost matches_partial_cmp = { Prim.search (comparing, rules) };

    ghost matches_eq = { Prim.search (comparing, rules) };

    fn cmp(&self, other: &Self) -> Ordering {
        self.c1.cmp(&other.c1).then(self.c0.cmp(&other.c0))
    }
}

impl<F: Ord, M> PartialOrd for Quadratic<F, M> {
    ghost partial_cmp = { as_partial_cmp (then_cmp (on (λ a. a.c1) F.cmp) (on (λ a. a.c0) F.cmp)) };

    ghost laws = { partial_order_from_own_ties (Prim.search (comparing, rules))
        (Prim.search (comparing, rules)) };

    fn partial_cmp(&self, other: &Self) -> Option<Ordering> {
        Some(self.cmp(other))
    }
}

/// The coefficients of 1 and x in parentheses, as `(1 + 2 x)`.
impl<F: Debug, M> Debug for Quadratic<F, M> {
    fn fmt<W: Write>(&self, f: &mut Formatter<W>) -> fmt::Result {
        write!(f, "({:?} + {:?} x)", self.c0, self.c1)
    }
}

/// As ark-ff writes it.
impl<F: Display, M> Display for Quadratic<F, M> {
    fn fmt<W: Write>(&self, f: &mut Formatter<W>) -> fmt::Result {
        write!(f, "QuadExtField({} + {} * u)", self.c0, self.c1)
    }
}
