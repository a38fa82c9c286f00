//! The sets that pieces are of.

use crate::found::{FoundPiece, SetKey, short_name};
use anyhow::Result;
use shards_format::different_places;
use std::alloc::{AllocError, Global};

/// The pieces of one set.
#[derive(Debug, Drop)]
pub struct PieceSet {
    /// Which set it is.
    pub key: SetKey,
    /// Which of the found pieces are of it.
    pub members: Vec<usize>,
}

impl PieceSet {
    /// The numbers of its pieces, each once and the least first.
    pub fn places(&self, alloc: Global, pieces: &[FoundPiece]) -> Result<Vec<usize>, AllocError> {
        let numbers: Vec<usize> = self
            .members
            .iter()
            .filter_map(|index| pieces.get(*index))
            .map(|piece| piece.number as usize)
            .collect(alloc)?;
        let n = self.key.n as usize;
        different_places(alloc, n, &numbers)
    }

    /// Of which file it is, how many of its pieces are there, and its name where that is wanted.
    pub fn line(
        &self,
        alloc: Global,
        pieces: &[FoundPiece],
        named: bool,
    ) -> Result<String, AllocError> {
        let (title, there) = (self.title(pieces), self.places(alloc, pieces)?.len());
        let SetKey { name, k, n } = self.key;
        if named {
            let short = short_name(alloc, &name)?;
            format!(in alloc; "{title} (set {short}): {there} of {n} pieces, {k} are needed")
        } else {
            format!(in alloc; "{title}: {there} of {n} pieces, {k} are needed")
        }
    }

    // Of which file it is.
    fn title<'a>(&self, pieces: &'a [FoundPiece]) -> &'a str {
        let first = self.members.first().and_then(|index| pieces.get(*index));
        first.map_or("a set", |piece| piece.title.as_str())
    }

    /// For each number the first of its pieces, among those that were found.
    pub fn holders(
        &self,
        alloc: Global,
        pieces: &[FoundPiece],
    ) -> Result<Vec<Option<usize>>, AllocError> {
        let mut holders = vec![in alloc; None::<usize>; self.key.n as usize]?;
        for index in self.members.iter().rev() {
            let number = pieces.get(*index).map(|piece| piece.number as usize);
            if let Some(holder) = number.and_then(|number| holders.get_mut(number)) {
                *holder = Some(*index);
            }
        }
        Ok(holders)
    }

    /// Whether the file can be restored.
    pub fn is_enough(&self, alloc: Global, pieces: &[FoundPiece]) -> Result<bool, AllocError> {
        Ok(self.places(alloc, pieces)?.len() >= self.key.k as usize)
    }
}

/// The sets that pieces are of.
pub fn sets_of(alloc: Global, pieces: &[FoundPiece]) -> Result<Vec<PieceSet>> {
    let mut sets: Vec<PieceSet> = Vec::new(alloc);
    for (index, piece) in pieces.iter().enumerate() {
        let known = sets.iter().position(|set| set.key == piece.key);
        match known.and_then(|at| sets.get_mut(at)) {
            Some(set) => set.members.push(index)?,
            None => {
                let mut members = Vec::new(alloc);
                members.push(index)?;
                sets.push(PieceSet {
                    key: piece.key,
                    members,
                })?;
            }
        }
    }
    Ok(sets)
}
