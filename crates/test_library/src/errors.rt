ghost use Rattle.std.specs.Prelude.{IsOkUnless};

use ark_base::{PolyError, SerializationError};
use ark_points::PointsError;
use ark_sharing::SharingError;
use ark_sum_check::SumCheckError;
use rs_code::RsError;
use shards_format::Damage;
use shards_streams::StreamError;
use std::alloc::{AllocError, Global};
use std::fmt::{Debug, Display};
use std::test::Fail;

// A refused growth is known to be `Memory` after `?`.
fn single(alloc: Global, item: u8) -> Result<Vec<u8>, PolyError>
    ensures { IsOkUnless result PolyError.Memory }
{
    let mut items = Vec::with_capacity(alloc, 1)?;
    items.push(item)?;
    Ok(items)
}

// Whether the error shows the text, and its name for debugging.
fn shows<E: Display + Debug>(
    alloc: Global,
    error: &E,
    text: &str,
    name: &str,
) -> Result<bool, AllocError> {
    let shown = format!(in alloc; "{error}")?;
    let named = format!(in alloc; "{error:?}")?;
    Ok(shown.as_str() == text && named.as_str() == name)
}

#[test]
fn shows_each_name_and_number(rt: HostRuntime) -> Result<(), Fail> {
    let cases = [
        (PolyError::Memory, "Memory", 1),
        (PolyError::NoDomain, "NoDomain", 2),
        (PolyError::Overflow, "Overflow", 3),
        (PolyError::ForeignSubdomain, "ForeignSubdomain", 4),
        (PolyError::ZeroDivisor, "ZeroDivisor", 5),
        (PolyError::NotSparse, "NotSparse", 6),
    ];
    for (error, name, number) in cases {
        assert!(rt; shows(rt.alloc(), &error, name, name)?);
        assert_eq!(rt; error as u8, number);
    }
    assert_eq!(rt; single(rt.alloc(), 7)?.len(), 1);
    Ok(())
}

#[test]
fn errors_of_bytes(rt: HostRuntime) -> Result<(), Fail> {
    let cases = [
        (SerializationError::IoError, "IoError", 1),
        (SerializationError::InvalidData, "InvalidData", 2),
        (SerializationError::Memory, "Memory", 3),
    ];
    for (error, name, number) in cases {
        assert!(rt; shows(rt.alloc(), &error, name, name)?);
        assert_eq!(rt; error as u8, number);
    }
    Ok(())
}

#[test]
fn errors_at_points(rt: HostRuntime) -> Result<(), Fail> {
    let cases = [
        (PointsError::Memory, "Memory", 1),
        (PointsError::RepeatedPoint, "RepeatedPoint", 2),
    ];
    for (error, name, number) in cases {
        assert!(rt; shows(rt.alloc(), &error, name, name)?);
        assert_eq!(rt; error as u8, number);
    }
    Ok(())
}

#[test]
fn errors_of_shares(rt: HostRuntime) -> Result<(), Fail> {
    let cases = [
        (SharingError::Memory, "Memory", 1),
        (SharingError::WrongThreshold, "WrongThreshold", 2),
        (SharingError::ZeroPoint, "ZeroPoint", 3),
        (SharingError::RepeatedPoint, "RepeatedPoint", 4),
    ];
    for (error, name, number) in cases {
        assert!(rt; shows(rt.alloc(), &error, name, name)?);
        assert_eq!(rt; error as u8, number);
    }
    Ok(())
}

#[test]
fn errors_of_sum_checks(rt: HostRuntime) -> Result<(), Fail> {
    let cases = [
        (SumCheckError::Memory, "Memory", 1),
        (SumCheckError::SmallCharacteristic, "SmallCharacteristic", 2),
    ];
    for (error, name, number) in cases {
        assert!(rt; shows(rt.alloc(), &error, name, name)?);
        assert_eq!(rt; error as u8, number);
    }
    Ok(())
}

#[test]
fn errors_of_codes(rt: HostRuntime) -> Result<(), Fail> {
    let cases = [
        (RsError::Memory, "Memory", 1),
        (RsError::WrongLength, "WrongLength", 2),
        (RsError::TooManyErased, "TooManyErased", 3),
        (RsError::NoCodeword, "NoCodeword", 4),
    ];
    for (error, name, number) in cases {
        assert!(rt; shows(rt.alloc(), &error, name, name)?);
        assert_eq!(rt; error as u8, number);
    }
    Ok(())
}

#[test]
fn errors_of_pieces(rt: HostRuntime) -> Result<(), Fail> {
    let cases = [
        (Damage::NoPiece, "not a piece, or cut short", "NoPiece"),
        (
            Damage::Version(1),
            "a piece of version 1, and not of version 2",
            "Version(1)",
        ),
        (Damage::Changed, "damaged", "Changed"),
    ];
    for (error, text, name) in cases {
        assert!(rt; shows(rt.alloc(), &error, text, name)?);
    }
    Ok(())
}

#[test]
fn errors_of_streams(rt: HostRuntime) -> Result<(), Fail> {
    let cases = [
        (StreamError::Memory, "not enough memory", "Memory"),
        (StreamError::Read(7), "reading failed", "Read(7)"),
        (StreamError::Write(7), "writing failed", "Write(7)"),
        (StreamError::TooLong, "the file is too long", "TooLong"),
        (StreamError::Damaged(7), "a piece is damaged", "Damaged(7)"),
        (
            StreamError::Forged,
            "the pieces are of no file: their digests do not agree",
            "Forged",
        ),
    ];
    for (error, text, name) in cases {
        assert!(rt; shows(rt.alloc(), &error, text, name)?);
    }
    Ok(())
}
