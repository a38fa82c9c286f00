//! An erasure code: values for n holders, of whom any k give all of them back, and one more than k show a wrong value;
//! and a message whose own items the first k holders have.

ghost use Rattle.std.specs.Prelude.{◌≡◌, ◌≢◌, ◌+◌, ◌<◌, List, Some, None, get_or, length, map, IfOk};
ghost use Rattle.ark_math.specs.Module.{item};
ghost use Rattle.ark_math.specs.Transform.{transform};
ghost use Rattle.rs_code.specs.Codeword.{AgreesBut, AgreesWith, IsCodeword, erasure_count};

use ark_base::{DomainCoeff, FftField};
use rs_code::{Code, RsError, one_wrong_value};
use std::alloc::Global;

/// What comes back of a message's values when those at the marked places are lost: all of them.
pub fn lost_and_restored<F: FftField, T: DomainCoeff<F>>(
    alloc: Global,
    code: &Code<F>,
    message: &[T],
    lost: &[bool],
) -> Result<Vec<T>, RsError>
    ensures restored { IfOk result (λ values. map T.meaning values.items
        ≡ transform F.field T.group code.now.domain (map T.meaning message.now)) }
{
    let values = code.encode(alloc, message)?;
    code.decoder(alloc, lost)?.restore(alloc, &values)
}

/// A message from a word that begins with it, whichever places are lost.
pub fn message_restored<F: FftField, T: DomainCoeff<F>>(
    alloc: Global,
    code: &Code<F>,
    message: &[T],
    lost: &[bool],
) -> Result<Vec<T>, RsError>
    ensures same { IfOk result (λ items. map T.meaning items.items ≡ map T.meaning message.now) }
{
    let word = code.encode_systematic(alloc, message)?;
    let mut items = code.decoder(alloc, lost)?.restore(alloc, &word)?;
    items.truncate(code.k());
    Ok(items)
}

/// What comes back of a word: a list with all its values, and nothing where more than `k` values are known,
/// and all of them but one are a codeword's.
pub fn restored_if_right<F: FftField, T: DomainCoeff<F>>(
    alloc: Global,
    code: &Code<F>,
    word: &[Option<T>],
    place: usize,
) -> Result<Vec<T>, RsError>
    ensures agrees { IfOk result (λ values.
        AgreesWith T.group T.meaning word.now (map T.meaning values.items)) }
    ensures refused { (c : List T.Meaning) (x : T) → length word.now ≡ code.now.domain.size
        → code.now.k + erasure_count word.now < code.now.domain.size
        → IsCodeword F.field T.group code.now.domain code.now.k c
        → AgreesBut T.group T.meaning word.now place c
        → get_or word.now place None ≡ Some x → item T.group c place ≢ T.meaning x
        → IfOk result (λ _. ⊥) }
{
    one_wrong_value::<F, _, T>(code, word, place);
    code.restore(alloc, word)
}
