//! What codewords tell, stated as contracts of functions that callers may cite: they promise nothing but their contracts.

ghost use Rattle.std.specs.Prelude.{◌≡◌, ◌≢◌, ◌+◌, ◌-◌, ◌<◌, ◌≤◌, Bool, List, Some, None, get_or, length};
ghost use Rattle.ark_math.specs.Domain.Kind.{radix2};
ghost use Rattle.ark_math.specs.Module.{item};
ghost use Rattle.rs_code.specs.Codeword.{AgreesBut, AgreesElsewhere, AgreesWith, IsCodeword, erasure_count};
ghost use Rattle.rs_code.specs.Codeword.{mark_count};

use crate::code::DomainCode;
use ark_traits::{DomainCoeff, FftField};
use ark_univariate::{EvaluationDomain, Radix2EvaluationDomain};

/// A law: two codewords that agree at `k` places are one. So two of them differ at `n - k + 1` places at least, the
/// minimum distance of the code. Marked are the places at which they may differ.
pub fn minimum_distance<F: FftField, D: EvaluationDomain<F>, T: DomainCoeff<F>>(
    code: &DomainCode<F, D>,
)
    ensures one { (marks : List Bool) (a b : List T.Meaning) → length marks ≡ code.now.domain.size
        → code.now.k + mark_count marks ≤ code.now.domain.size
        → IsCodeword F.field T.group code.now.domain code.now.k a
        → IsCodeword F.field T.group code.now.domain code.now.k b → AgreesElsewhere T.group marks a b → a ≡ b }
    ensures distance { (marks : List Bool) (a b : List T.Meaning) → length marks ≡ code.now.domain.size
        → IsCodeword F.field T.group code.now.domain code.now.k a
        → IsCodeword F.field T.group code.now.domain code.now.k b → AgreesElsewhere T.group marks a b → a ≢ b
        → code.now.domain.size - code.now.k < mark_count marks }
{
    let _ = &code.domain;
}

/// A law: where more than `k` places aren't erased, and a codeword has the values at all of them but one, no codeword has
/// all these values. So `restore` refuses one wrong value where a place is to spare.
pub fn one_wrong_value<F: FftField, D: EvaluationDomain<F>, T: DomainCoeff<F>>(
    code: &DomainCode<F, D>,
    word: &[Option<T>],
    place: usize,
)
    ensures { (x : T) (c other : List T.Meaning) → length word.now ≡ code.now.domain.size
        → code.now.k + erasure_count word.now < code.now.domain.size
        → IsCodeword F.field T.group code.now.domain code.now.k c
        → AgreesBut T.group T.meaning word.now place c
        → get_or word.now place None ≡ Some x → item T.group c place ≢ T.meaning x
        → IsCodeword F.field T.group code.now.domain code.now.k other
        → AgreesWith T.group T.meaning word.now other → ⊥ }
{
    let _ = &code.domain;
}

/// A law: the domain of a code over radix 2 domains is of that kind.
pub fn is_of_radix2<F: FftField>(code: &DomainCode<F, Radix2EvaluationDomain<F>>)
    ensures { code.now.domain.kind ≡ radix2 }
{
    let _ = &code.domain;
}
