//! Saving and loading: a polynomial in a file, and the same one that is read from it.

ghost use Rattle.std.specs.Prelude.{◌≡◌, ◌++◌, ℕ, List, Some, IfOk, IsOkUnless};
ghost use Rattle.std.specs.Io.KnownBytes.{Appends, Consumes};
ghost use Rattle.ark_univariate.specs.Layouts.{dense};

use ark_base::{
    CanonicalDeserialize, CanonicalSerialize, Compress, Field, IoSink, IoSource,
    SerializationError, written_then_read,
};
use ark_poly::univariate::DensePolynomial;
use std::alloc::Global;
use std::io::{Read, Write};

/// The polynomial that is read from the bytes of this one: it is the same.
pub fn saved_and_loaded<F: Field>(
    alloc: Global,
    polynomial: &DensePolynomial<F>,
) -> Result<DensePolynomial<F>, SerializationError>
    ensures same { IfOk result (λ loaded. loaded ≡ polynomial.now) }
    ensures memory { IsOkUnless result SerializationError.Memory }
{
    written_then_read(alloc, polynomial, Compress::Yes)
}

/// Writes the polynomial to a file, or whatever takes bytes, and gives that back, to be flushed: of what is known to be
/// in it, just the spelling is new. `load` gives the same polynomial back, whatever is written behind it.
pub fn save<F: Field, W: Write + Drop>(
    polynomial: &DensePolynomial<F>,
    file: W,
) -> Result<W, SerializationError>
    ensures spelled { IfOk result (λ _. (dense F.field (F.format Compress.Yes)).HasSpelling polynomial.now) }
    ensures saved { IfOk result (λ written. Appends (W.contents file) (W.contents written)
        ((dense F.field (F.format Compress.Yes)).spelling polynomial.now)) }
{
    let mut sink = IoSink::new(file);
    polynomial.serialize_compressed(&mut sink)?;
    Ok(sink.into_inner())
}

/// Reads a polynomial from a file, or whatever gives bytes, and gives that back, to be read on: of what is known to be
/// left in it, just the spelling was taken; and where that begins with what `save` wrote, it is the same polynomial.
pub fn load<F: Field, R: Read + Drop>(
    alloc: Global,
    file: R,
) -> Result<(DensePolynomial<F>, R), SerializationError>
    ensures loaded { IfOk result (λ read. Consumes (R.remaining file) (R.remaining read.1)
        ((dense F.field (F.format Compress.Yes)).spelling read.0)) }
    ensures same { IfOk result (λ read. (p : List F) (more : List ℕ)
        → (dense F.field (F.format Compress.Yes)).HasSpelling p
        → R.remaining file ≡ Some ((dense F.field (F.format Compress.Yes)).spelling p ++ more) → read.0 ≡ p) }
{
    let mut source = IoSource::new(file);
    let polynomial = DensePolynomial::deserialize_compressed(alloc, &mut source)?;
    Ok((polynomial, source.into_inner()))
}
