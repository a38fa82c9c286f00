//! Bytes that spell an element of a field.

ghost use Rattle.std.specs.Prelude.{◌≡◌, ◌≢◌, length, IfOk, IfSome, IsNone};
ghost use Rattle.ark_bytes.specs.declared.compress.Compress.{Compress};

use ark_traits::{Compress, Field};
use std::alloc::{AllocError, Global};

fn zeros(alloc: Global, size: usize) -> Result<Vec<u8>, AllocError>
    ensures { IfOk result (λ bytes. length bytes.items ≡ size) }
{
    let bytes = vec![in alloc; 0u8; size]?;
    Ok(bytes)
}

/// A buffer of as many bytes as an element has, for `Transcript::challenge_in`.
pub fn element_buffer<F: Field>(alloc: Global) -> Result<Vec<u8>, AllocError>
    ensures { IfOk result (λ bytes. length bytes.items ≡ F.element_size) }
{
    let Some(size) = F::zero().serialized_size(Compress::Yes) else {
        return Err(AllocError);
    };
    let bytes = zeros(alloc, size)?;
    Ok(bytes)
}

/// The element that these bytes spell.
pub(crate) fn element_of<F: Field>(alloc: Global, bytes: &[u8]) -> Option<F>
    requires { length bytes.now ≡ F.element_size }
    ensures some { IfSome result (λ x. bytes.now ≡ (F.format Compress.Yes).spelling x) }
    ensures none { IsNone result → (x : F) → bytes.now ≢ (F.format Compress.Yes).spelling x }
{
    let mut source = bytes;
    match F::deserialize_compressed(alloc, &mut source) {
        Ok(element) => Some(element),
        Err(_) => None,
    }
}
