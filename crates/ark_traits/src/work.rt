//! What a kernel did, counted for contracts alone. A kernel's values are a `Summand`, so that `Work::scale` alone
//! multiplies one.

ghost use Rattle.std.specs.Prelude.{◌≡◌};
ghost use Rattle.ark_math.specs.Cost.{counts, GrowsBy};

use crate::field::Field;
use crate::summand::Summand;
use ark_bytes::counter::Counter;
use std::marker::Model;

/// Counts of what a kernel did. They have no greatest value, and take no bytes at run time.
#[derive(Drop)]
pub struct Work {
    products: Counter,
    butterflies: Counter,
    steps: Counter,
}

impl Model for Work {
    ghost use Rattle.ark_math.specs.Cost.{Counts};

    ghost Value = { Counts };

    ghost view = { λ w. record {
      products = w.products.count;
      butterflies = w.butterflies.count;
      steps = w.steps.count;
    } };
}

impl Work {
    /// All counts zero.
    pub fn new() -> Work
        ensures { result ≡ counts 0 0 0 }
    {
        Work {
            products: Counter::zero(),
            butterflies: Counter::zero(),
            steps: Counter::zero(),
        }
    }

    /// Multiplies a module value by a field element, and counts a product.
    pub fn scale<F: Field, T: Summand<F>>(&mut self, value: &mut T, factor: F)
        ensures product { T.meaning value.new ≡ T.group.scale factor (T.meaning value.old) }
        ensures counted { GrowsBy (counts 1 0 0) self.old self.new }
    {
        value.scale(factor, self);
    }

    // Counts a product.
    pub(crate) fn product(&mut self)
        ensures { GrowsBy (counts 1 0 0) self.old self.new }
    {
        self.products.add_one();
    }

    /// Counts a butterfly.
    pub fn butterfly(&mut self)
        ensures { GrowsBy (counts 0 1 0) self.old self.new }
    {
        self.butterflies.add_one();
    }

    /// Counts a step.
    pub fn step(&mut self)
        ensures { GrowsBy (counts 0 0 1) self.old self.new }
    {
        self.steps.add_one();
    }
}
