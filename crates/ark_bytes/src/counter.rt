//! A count for contracts alone, of what a call did.

ghost use Rattle.std.specs.Prelude.{◌≡◌, ℕ, ◌+◌};
ghost use Rattle.std.specs.Borrow.{ftrue};

use std::marker::Model;

/// A count. It has no greatest value, and takes no bytes at run time.
// Its two functions that make one are proved by hand.
#[derive(Drop)]
pub struct Counter {
    pub ghost count: { ℕ },
}

impl Model for Counter {
    ghost also_owns = { λ _. ftrue };
}

impl Counter {
    /// The count of nothing yet.
    pub fn zero() -> Counter
        ensures { result ≡ record { count = 0 } }
    {
        Counter {}
    }

    fn one_more(_before: &Counter) -> Counter
        ensures { result ≡ record { count = _before.now.count + 1 } }
    {
        Counter {}
    }

    /// Counts one more.
    pub fn add_one(&mut self)
        ensures { self.new.count ≡ self.old.count + 1 }
    {
        *self = Counter::one_more(self);
    }
}
