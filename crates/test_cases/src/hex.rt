//! Bytes as two hex digits each.

use crate::answers::Answer;
use std::alloc::{AllocError, Global};

/// The bytes that the word spells; what is no digit counts as zero. A byte and a star and a number stand for so many
/// of it.
pub fn bytes_of(alloc: Global, word: &str) -> Result<Vec<u8>, AllocError> {
    let mut bytes = Vec::new(alloc);
    if word.is_empty() {
        return Ok(bytes);
    }
    for piece in word.split(' ') {
        let (digits, count) = piece.split_once('*').unwrap_or((piece, "1"));
        let byte = u8::from_str_radix(digits, 16).unwrap_or(0);
        for _ in 0..count.parse::<usize>().unwrap_or(0) {
            bytes.push(byte)?;
        }
    }
    Ok(bytes)
}

/// The bytes as text, with spaces between them.
pub fn text_of(alloc: Global, bytes: &[u8]) -> Answer {
    let mut text = String::new(alloc);
    for (i, byte) in bytes.iter().enumerate() {
        let space = if i > 0 { " " } else { "" };
        write!(text, "{space}{byte:02x}")?;
    }
    Ok(text)
}
