//! Files in pieces, in memory.

ghost use Rattle.std.specs.Prelude.{◌≡◌, ℕ, ◌*◌, ◌<◌, ◌≤◌, ◌^◌, [], length, get_or, IfOk};
ghost use Rattle.shards_format.specs.Files.{AreApart};
ghost use Rattle.shards_streams.specs.Writers.{HasHashed};

use crate::batches::{Benchmark, Reporter, mixed};
use crate::draws::Draws;
use ark_base::PolyError;
use ark_bytes::IoSink;
use sha2::{Digest, Sha256};
use shards_format::{
    PART, StripeCode, Trailer, block_of, blocks, chunk, data_extender, numbers_of_parts,
    parity_extender, parts_of_block, stripes,
};
use shards_streams::{
    ChosenPieces, PieceReader, PieceWriter, StreamError, join_into, split_into, take_header,
};
use std::alloc::{AllocError, Global};
use std::io::Print;
use std::time::Clock;

// How many bytes the file has.
const FILE: usize = 1 << 20;

/// The pieces of a file.
#[derive(Drop)]
pub struct Splitting<C: StripeCode> {
    pub code: C,
    pub file: Vec<u8>,
    pub pieces: Pieces,
}

/// Pieces, and what they end with.
#[derive(Drop)]
pub struct Pieces {
    pub pieces: Vec<Vec<u8>>,
    pub trailer: Option<Trailer>,
}

impl<C: StripeCode> Benchmark for Splitting<C> {
    fn call(&mut self, alloc: Global) -> Result<(), PolyError> {
        let len = self.file.len().min(FILE);
        self.pieces = pieces_of(alloc, &self.code, &self.file[..len]).map_err(
            |_| PolyError::Memory,
        )?;
        Ok(())
    }

    fn checksum(&self) -> u64 {
        match self.pieces.pieces.last() {
            Some(piece) => mixed(piece.as_slice()),
            None => 0,
        }
    }
}

// The pieces of a file without a label.
fn pieces_of<C: StripeCode>(alloc: Global, code: &C, file: &[u8]) -> Result<Pieces, StreamError> {
    let mut writers = new_writers(alloc, code)?;
    let mut source = file;
    let trailer = split_into(alloc, code, &[], &mut source, writers.as_mut_slice())?;
    let mut pieces = Vec::new(alloc);
    for writer in writers {
        if pieces.push(writer.into_sink().into_inner()).is_err() {
            return Err(StreamError::Memory);
        }
    }
    Ok(Pieces {
        pieces,
        trailer: Some(trailer),
    })
}

// A writer of a piece into a list for each place.
fn new_writers<C: StripeCode>(
    alloc: Global,
    code: &C,
) -> Result<Vec<PieceWriter<IoSink<Vec<u8>>>>, AllocError>
    ensures len { IfOk result (λ writers. length writers.items ≡ C.n_of code.now) }
    ensures new { IfOk result (λ writers. (i : ℕ) (d : _) → i < length writers.items
        → HasHashed (get_or writers.items i d) []) }
{
    let mut writers = Vec::new(alloc);
    for _ in 0..code.n() {
        writers.push(PieceWriter::new(IoSink::new(Vec::new(alloc))))?;
    }
    Ok(writers)
}

/// A file from its last pieces, each compared with its digest.
#[derive(Drop)]
pub struct Joining<C: StripeCode> {
    pub code: C,
    pub pieces: Pieces,
    pub file: Vec<u8>,
}

impl<C: StripeCode> Benchmark for Joining<C> {
    fn call(&mut self, alloc: Global) -> Result<(), PolyError> {
        self.file = joined(alloc, &self.code, &self.pieces).map_err(|_| PolyError::Memory)?;
        Ok(())
    }

    fn checksum(&self) -> u64 {
        mixed(self.file.as_slice())
    }
}

// The file of the last pieces, as many as are needed.
fn joined<C: StripeCode>(alloc: Global, code: &C, pieces: &Pieces) -> Result<Vec<u8>, StreamError> {
    let lost = pieces.pieces.len().saturating_sub(code.k());
    let mut readers = readers_of(alloc, &pieces.pieces[lost..])?;
    let mut sink = IoSink::new(Vec::new(alloc));
    let Some(trailer) = &pieces.trailer else {
        return Ok(sink.into_inner());
    };
    let places = places_from(alloc, code, code.n() - code.k())?;
    let chosen = ChosenPieces {
        places: &places,
        trailer,
    };
    // There is a piece for each place, so as many are left as are needed.
    if readers.len() == code.k() {
        join_into(alloc, code, &chosen, readers.as_mut_slice(), &mut sink)?;
    }
    Ok(sink.into_inner())
}

// Readers of pieces, past their headers.
fn readers_of<'a>(
    alloc: Global,
    pieces: &'a [Vec<u8>],
) -> Result<Vec<PieceReader<&'a [u8]>>, StreamError> {
    let mut readers = Vec::new(alloc);
    for piece in pieces {
        let mut reader = PieceReader::new(piece.as_slice());
        let _ = take_header(alloc, &mut reader)?;
        if readers.push(reader).is_err() {
            return Err(StreamError::Memory);
        }
    }
    Ok(readers)
}

/// The bodies of the pieces of a file: the pieces without headers and digests.
#[derive(Drop)]
pub struct SplittingBodies<C: StripeCode> {
    pub code: C,
    pub file: Vec<u8>,
    pub bodies: Vec<Vec<u8>>,
}

impl<C: StripeCode> Benchmark for SplittingBodies<C> {
    fn call(&mut self, alloc: Global) -> Result<(), PolyError> {
        let len = self.file.len().min(FILE);
        self.bodies = split_bodies(alloc, &self.code, &self.file[..len])?;
        Ok(())
    }

    fn checksum(&self) -> u64 {
        match self.bodies.last() {
            Some(body) => mixed(body.as_slice()),
            None => 0,
        }
    }
}

// The bodies of the pieces of a file, that of piece 0 first.
fn split_bodies<C: StripeCode>(
    alloc: Global,
    code: &C,
    file: &[u8],
) -> Result<Vec<Vec<u8>>, AllocError>
    requires { length file.now < 2 ^ 62 }
{
    let k = code.k();
    let size = 2 * k * PART;
    let extender = parity_extender(alloc, code)?;
    let mut bodies = Vec::new(alloc);
    for _ in 0..code.n() {
        bodies.push(Vec::new(alloc))?;
    }
    for b in 0..blocks(k, file.len()) {
        let parts = parts_of_block(alloc, code, &extender, chunk(file, size, b))?;
        append_each(&mut bodies, &parts)?;
    }
    Ok(bodies)
}

// Appends to each body its part of a block.
fn append_each(bodies: &mut [Vec<u8>], parts: &[Vec<u8>]) -> Result<(), AllocError> {
    for (body, part) in bodies.iter_mut().zip(parts) {
        body.extend_from_slice(part)?;
    }
    Ok(())
}

/// A file from the bodies of as many pieces as are needed, where the first ones are lost; nothing is compared with a digest.
#[derive(Drop)]
pub struct JoiningBodies<C: StripeCode> {
    pub code: C,
    pub bodies: Vec<Vec<u8>>,
    pub lost: usize,
    pub file: Vec<u8>,
}

impl<C: StripeCode> Benchmark for JoiningBodies<C> {
    fn call(&mut self, alloc: Global) -> Result<(), PolyError> {
        let (k, n) = (self.code.k(), self.code.n());
        let first = self.lost.min(n - k);
        // There is a body for each place, so as many are left as are needed.
        if self.bodies.len() == n {
            let bodies = &self.bodies[first..first + k];
            self.file = join_bodies(alloc, &self.code, first, bodies)?;
        }
        Ok(())
    }

    fn checksum(&self) -> u64 {
        mixed(self.file.as_slice())
    }
}

// The bytes of the file from the bodies at places from this first one on.
fn join_bodies<C: StripeCode>(
    alloc: Global,
    code: &C,
    first: usize,
    bodies: &[Vec<u8>],
) -> Result<Vec<u8>, AllocError>
    requires { length bodies.now ≡ C.k_of code.now }
{
    let k = code.k();
    let size = 2 * k * PART;
    let places = places_from(alloc, code, first)?;
    let extender = data_extender(alloc, code, &places)?;
    let bodies = slices_of(alloc, bodies)?;
    let mut file = Vec::new(alloc);
    for b in 0..blocks(k, FILE) {
        let want = size.min(FILE - b * size);
        let count = stripes(k, want);
        let numbers = numbers_of_parts(alloc, &places, &bodies, b, count)?;
        let block = block_of(alloc, code, &extender, count, &numbers)?;
        file.extend_from_slice(&block[..want])?;
    }
    Ok(file)
}

// The places from this first one on, or from the last one that leaves as many as a message has items.
fn places_from<C: StripeCode>(
    alloc: Global,
    code: &C,
    first: usize,
) -> Result<Vec<usize>, AllocError>
    ensures len { IfOk result (λ places. length places.items ≡ C.k_of code.now) }
    ensures below { IfOk result (λ places. (a : ℕ) → a < length places.items
        → get_or places.items a 0 < C.n_of code.now) }
    ensures apart { IfOk result (λ places. AreApart places.items) }
    ensures small { IfOk result (λ places. (a : ℕ) → a < length places.items → get_or places.items a 0 < 65536) }
{
    let least = first.min(code.n() - code.k());
    let mut places = Vec::new(alloc);
    for a in 0..code.k() {
        places.push(least + a)?;
    }
    Ok(places)
}

// The bytes of each body.
fn slices_of<'a>(alloc: Global, bodies: &'a [Vec<u8>]) -> Result<Vec<&'a [u8]>, AllocError>
    ensures { IfOk result (λ slices. length slices.items ≡ length bodies.now) }
{
    let mut slices = Vec::new(alloc);
    for body in bodies {
        slices.push(body.as_slice())?;
    }
    Ok(slices)
}

/// The digest of a file alone.
#[derive(Drop)]
pub struct Hashing {
    pub file: Vec<u8>,
    pub digest: [u8; 32],
}

impl Benchmark for Hashing {
    fn call(&mut self, _alloc: Global) -> Result<(), PolyError> {
        self.digest = Sha256::digest(self.file.as_slice());
        Ok(())
    }

    fn checksum(&self) -> u64 {
        mixed(self.digest.as_slice())
    }
}

/// A file's digest; its pieces, and the file from as few of them as give it, the first ones lost; and the same without
/// digests, and with none lost.
pub fn report_pieces<C: StripeCode, R: Print + Clock>(
    reporter: &Reporter<'_, R>,
) -> anyhow::Result<()> {
    let mut hashing = Hashing {
        file: Draws::new().bytes(reporter.alloc, FILE)?,
        digest: [0; 32],
    };
    reporter.report("digest", FILE, &mut hashing)?;
    for (k, n) in [(3, 5), (7, 10), (16, 32), (64, 128), (128, 256)] {
        report_pieces_of::<C, R>(reporter, k, n)?;
        report_bodies_of::<C, R>(reporter, k, n)?;
    }
    Ok(())
}

fn report_pieces_of<C: StripeCode, R: Print + Clock>(
    reporter: &Reporter<'_, R>,
    k: usize,
    n: usize,
) -> anyhow::Result<()> {
    let alloc = reporter.alloc;
    let Some(code) = C::new(k, n) else {
        return Ok(());
    };
    let mut splitting = Splitting {
        code,
        file: Draws::new().bytes(alloc, FILE)?,
        pieces: Pieces {
            pieces: Vec::new(alloc),
            trailer: None,
        },
    };
    let name = format!(in alloc; "split_{k}_of_{n}")?;
    reporter.report(&name, FILE, &mut splitting)?;
    let Splitting { code, pieces, .. } = splitting;
    let mut joining = Joining {
        code,
        pieces,
        file: Vec::new(alloc),
    };
    let name = format!(in alloc; "join_{k}_of_{n}")?;
    reporter.report(&name, FILE, &mut joining)
}

fn report_bodies_of<C: StripeCode, R: Print + Clock>(
    reporter: &Reporter<'_, R>,
    k: usize,
    n: usize,
) -> anyhow::Result<()> {
    let alloc = reporter.alloc;
    let Some(code) = C::new(k, n) else {
        return Ok(());
    };
    let mut splitting = SplittingBodies {
        code,
        file: Draws::new().bytes(alloc, FILE)?,
        bodies: Vec::new(alloc),
    };
    let name = format!(in alloc; "split_{k}_of_{n}_without_digests")?;
    reporter.report(&name, FILE, &mut splitting)?;
    let SplittingBodies { code, bodies, .. } = splitting;
    let mut joining = JoiningBodies {
        code,
        bodies,
        lost: n,
        file: Vec::new(alloc),
    };
    let name = format!(in alloc; "join_{k}_of_{n}_without_digests")?;
    reporter.report(&name, FILE, &mut joining)?;
    joining.lost = 0;
    let name = format!(in alloc; "join_{k}_of_{n}_none_lost_without_digests")?;
    reporter.report(&name, FILE, &mut joining)
}
