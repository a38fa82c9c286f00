//! The elements of a domain, one after the other.

use ark_traits::FftField;

/// The elements of a domain in order, and then the end.
#[derive(Drop)]
pub struct Elements<F: FftField> {
    current: F,
    index: u64,
    size: u64,
    group_gen: F,
}

impl<F: FftField> Elements<F> {
    ghost use Rattle.ark_fft.specs.Elements.{left};
    ghost use Rattle.std.specs.Iterator.{AlwaysYields, YieldsFirst};
    ghost use Rattle.ark_math.specs.Module.{tabulate};
    ghost use Rattle.ark_math.specs.Field.{power};

    /// The elements `offset * group_gen^i` for `i` below `size`.
    pub fn new(size: u64, offset: F, group_gen: F) -> Elements<F>
        ensures { AlwaysYields (YieldsFirst (left F.field)) (λ x. x) result
            (tabulate size (λ i. F.field.times offset (power F.field group_gen i))) }
    {
        Elements {
            current: offset,
            index: 0,
            size,
            group_gen,
        }
    }
}

impl<F: FftField> Iterator for Elements<F> {
    ghost use Rattle.ark_fft.specs.Elements.{left};
    ghost use Rattle.std.specs.Iterator.{YieldsFirst, item_count};

    type Item = F;

    ghost next_gives = { YieldsFirst (left F.field) };

    ghost remaining = { item_count (left F.field) };

    fn next(&mut self) -> Option<F> {
        if self.index < self.size {
            let element = self.current;
            self.current = element * self.group_gen;
            self.index += 1;
            Some(element)
        } else {
            None
        }
    }
}
