//! Lists: their length, and then their items. A `Vec` is read and written as its items.

ghost use Rattle.std.specs.Prelude.{◌≡◌, ◌≤◌, ◌^◌, length, IfSome, IsNone};
ghost use Rattle.ark_math_formats.specs.Format.{list};
ghost use Rattle.ark_bytes.specs.Reading.{source_state, ReadsAs};
ghost use Rattle.ark_bytes.specs.Writing.{sink_state, Writes};

use crate::compress::Compress;
use crate::error::SerializationError;
use crate::numbers::{read_number, write_number};
use crate::sink::Sink;
use crate::source::Source;
use crate::traits::{CanonicalDeserialize, CanonicalSerialize, Spelled, Valid};
use std::alloc::Global;

/// Reads a list. It grows as its items arrive: nothing is reserved by a length that was read.
pub fn read_list<T: CanonicalDeserialize, R: Source>(
    alloc: Global,
    reader: &mut R,
    mode: Compress,
) -> Result<Vec<T>, SerializationError>
    ensures { ReadsAs (λ v. v.items) (list (T.format mode)) (Unit {0})
        (source_state R.remaining R.failures reader.old)
        (source_state R.remaining R.failures reader.new) result }
{
    let count = read_number(reader, 8)?;
    let mut items = Vec::new(alloc);
    let mut left = count;
    while left != 0 {
        items.push(T::deserialize_with_mode(alloc, reader, mode)?)?;
        left -= 1;
    }
    Ok(items)
}

/// Writes a list. `IoError` comes where the writer fails.
pub fn write_list<T: CanonicalSerialize, W: Sink>(
    items: &[T],
    writer: &mut W,
    mode: Compress,
) -> Result<(), SerializationError>
    ensures { Writes (list (T.format mode)) items.now
        (sink_state W.contents W.failures writer.old)
        (sink_state W.contents W.failures writer.new) result }
{
    write_number(items.len() as u64, writer, 8)?;
    for item in items {
        item.serialize_with_mode(writer, mode)?;
    }
    Ok(())
}

/// How many bytes a list's spelling has, and `None` exactly where that is past `usize`.
pub fn list_size<T: CanonicalSerialize>(items: &[T], mode: Compress) -> Option<usize>
    ensures some { IfSome result (λ n. n ≡ length ((list (T.format mode)).spelling items.now)) }
    ensures none { IsNone result → 2 ^ 64 ≤ length ((list (T.format mode)).spelling items.now) }
{
    let mut size: usize = 8;
    for item in items {
        size = size.checked_add(item.serialized_size(mode)?)?;
    }
    Some(size)
}

impl<T: Spelled> Spelled for Vec<T> {
    ghost use Rattle.std.specs.Prelude.{List, map};
    ghost use Rattle.ark_math_formats.specs.Format.{list, stored};
    ghost use Rattle.ark_math_formats.proofs.Formats.Ends.{list_is_format, lawful_is_format};
    ghost use Rattle.ark_math_formats.proofs.Formats.OneToOne.{list_shows, lawful_shows};

    ghost format = { λ mode. stored (list (T.format mode)) (λ v. v.items) };

    ghost format_law = { λ mode. lawful_is_format (list (T.format mode)) (λ v. v.items)
        (λ _. Unit {0}) (list_is_format (T.format mode) (T.format_law mode)) };

    ghost Shown = { List T.Shown };

    ghost shown = { λ v. map T.shown v.items };

    ghost tells = { λ mode. lawful_shows (list (T.format mode)) (λ v. v.items) (λ _. Unit {0})
        (map T.shown) (λ v. map T.shown v.items)
        (list_shows (T.format mode) (T.format_law mode) T.shown (T.tells mode)) (λ x y e. e) };
}

impl<T: CanonicalSerialize> CanonicalSerialize for Vec<T> {
    ghost use Rattle.ark_math_formats.specs.Format.{list};
    ghost use Rattle.ark_math_formats.proofs.Formats.Modes.{keeps_by_fields, keeps_in_lists};

    fn serialize_with_mode<W: Sink>(
        &self,
        writer: &mut W,
        mode: Compress,
    ) -> Result<(), SerializationError> {
        write_list(self, writer, mode)
    }

    fn serialized_size(&self, mode: Compress) -> Option<usize> {
        list_size(self, mode)
    }

    ghost both_modes = { λ mode other. keeps_by_fields (list (T.format mode)) (list (T.format other))
        (λ v. v.items) (λ _. Unit {0})
        (keeps_in_lists (T.format mode) (T.format other) (T.format_law mode) (T.both_modes mode other)) };
}

impl<T: Valid> Valid for Vec<T> {
    fn check(&self) -> Result<(), SerializationError> {
        Ok(())
    }
}

impl<T: CanonicalDeserialize> CanonicalDeserialize for Vec<T> {
    ghost takes_memory = { Unit {0} };

    fn deserialize_with_mode<R: Source>(
        alloc: Global,
        reader: &mut R,
        mode: Compress,
    ) -> Result<Self, SerializationError> {
        read_list(alloc, reader, mode)
    }
}
