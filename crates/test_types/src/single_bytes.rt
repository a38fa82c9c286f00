//! A source that gives one byte a call.

use ark_base::{Failed, Source};

/// The bytes of another source, one a call.
#[derive(Drop)]
pub struct SingleBytes<S> {
    pub source: S,
}

impl<S: Source> Source for SingleBytes<S> {
    ghost remaining = { λ single. S.remaining single.source };

    ghost failures = { λ single. S.failures single.source };

    fn take(&mut self, buffer: &mut [u8]) -> Result<usize, Failed> {
        let room = buffer.len().min(1);
        self.source.take(&mut buffer[..room])
    }
}
