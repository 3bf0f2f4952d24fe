//! Bytes that do not change and that buffers share.

ghost use Rattle.std.specs.Prelude.{◌≡◌, List, ℕ, ◌+◌, ◌<◌, ◌^◌, ◌++◌, [], length, OnOk, IfOk};
ghost use Rattle.wac_binary.specs.private.declarations.Chunks.{chunk_bytes, outer_bytes};
ghost use Rattle.wac_binary.specs.private.declarations.SharedView.{held_bytes};

use std::alloc::{AllocError, Global};
use std::fmt;
use std::marker::Model;
use std::rc::Rc;

/// Bytes, or bytes before and after a shared chunk.
enum Chunk {
    Flat(Vec<u8>),
    Around(Vec<u8>, Rc<Chunk>, Vec<u8>),
}

// By hand: a derived `Drop` would call itself for each inner chunk.
impl Drop for Chunk {
    fn drop(mut self) {
        loop {
            match self {
                Chunk::Flat(_) => return,
                Chunk::Around(_, inner, _) => match Rc::into_inner(inner) {
                    Some(chunk) => self = chunk,
                    None => return,
                },
            }
        }
    }
}

impl Chunk {
    /// Appends the bytes to a vector, which may have grown after an error.
    #[tactic(auto, using(crate::proofs::lemmas::declarations::ChunkLaws::outer_snoc, std::proofs::lemmas::Grind::common_steps))]
    fn put(&self, alloc: Global, out: &mut Vec<u8>) -> Result<(), AllocError>
        ensures written { OnOk result (out.new.items ≡ out.old.items ++ chunk_bytes self.now) }
        ensures grows { (more : List ℕ) × (out.new.items ≡ out.old.items ++ more) }
    {
        let mut outer = self.put_first(alloc, out)?;
        while let Some(after) = outer.pop() {
            out.extend_from_slice(after)?;
        }
        Ok(())
    }

    /// Appends the bytes through the innermost chunk. Returns the bytes after each inner chunk, the outermost first.
    #[tactic(auto, using(crate::proofs::lemmas::declarations::ChunkLaws::outer_snoc, crate::proofs::lemmas::declarations::ChunkLaws::one_inner, std::proofs::lemmas::Grind::common_steps))]
    fn put_first(&self, alloc: Global, out: &mut Vec<u8>) -> Result<Vec<&[u8]>, AllocError>
        ensures written { IfOk result (λ outer. out.new.items ++ outer_bytes outer.items ≡ out.old.items ++ chunk_bytes self.now) }
        ensures grows { (more : List ℕ) × (out.new.items ≡ out.old.items ++ more) }
    {
        let mut outer: Vec<&[u8]> = Vec::new(alloc);
        let mut chunk = self;
        loop {
            match chunk {
                Chunk::Flat(bytes) => {
                    out.extend_from_slice(bytes)?;
                    return Ok(outer);
                }
                Chunk::Around(before, inner, after) => {
                    out.extend_from_slice(before)?;
                    outer.push(after.as_slice())?;
                    chunk = inner;
                }
            }
        }
    }
}

/// Bytes that do not change. A clone shares them. Contracts see them as a list.
///
/// A call fails only if out of memory.
#[derive(Drop)]
pub struct SharedBytes {
    /// The outermost chunk, if there are bytes.
    chunk: Option<Rc<Chunk>>,
    len: u64,
}

impl Model for SharedBytes {
    ghost use Rattle.std.specs.Prelude.{List, ℕ};
    ghost use Rattle.std.specs.Coded.{coded_list, coded_ℕ};

    ghost Value = { List ℕ };

    ghost coded = { coded_list coded_ℕ };

    ghost use Rattle.wac_binary.specs.private.declarations.SharedView.{view as the_bytes, IsCounted};

    ghost view = { the_bytes };

    ghost invariant = { IsCounted };
}

/// Writes the number of bytes.
impl fmt::Debug for SharedBytes {
    fn fmt<W: fmt::Write>(&self, f: &mut fmt::Formatter<W>) -> fmt::Result {
        f.debug_struct("SharedBytes")
            .field("len", &self.len)
            .finish_non_exhaustive()
    }
}

impl Clone for SharedBytes {
    ghost is_clone = { λ a b. b ≡ a };

    fn clone(&self) -> Result<SharedBytes, AllocError> {
        Ok(SharedBytes {
            chunk: same_chunk(&self.chunk)?,
            len: self.len,
        })
    }
}

impl SharedBytes {
    /// Returns no bytes.
    pub fn new() -> SharedBytes
        ensures { result ≡ [] }
    {
        SharedBytes {
            chunk: None,
            len: 0,
        }
    }

    /// Returns the number of bytes.
    pub fn len(&self) -> u64
        ensures { result ≡ length self.now }
    {
        self.len
    }

    /// Adds bytes before and after. None are copied, unless there were none.
    pub fn surround(
        self,
        alloc: Global,
        before: Vec<u8>,
        after: Vec<u8>,
    ) -> Result<SharedBytes, AllocError>
        requires { length before.items + length self + length after.items < 2 ^ 64 }
        ensures { IfOk result (λ s. s ≡ before.items ++ (self ++ after.items)) }
    {
        let SharedBytes { chunk, len } = self;
        let len = before.len() as u64 + len + after.len() as u64;
        let chunk = Rc::new(alloc, chunk_around(before, chunk, after)?)?;
        Ok(SharedBytes {
            chunk: Some(chunk),
            len,
        })
    }

    /// Appends the bytes to a vector, which may have grown after an error.
    pub fn put(&self, alloc: Global, out: &mut Vec<u8>) -> Result<(), AllocError>
        ensures written { OnOk result (out.new.items ≡ out.old.items ++ self.now) }
        ensures grows { (more : List ℕ) × (out.new.items ≡ out.old.items ++ more) }
    {
        match &self.chunk {
            None => Ok(()),
            Some(chunk) => chunk.put(alloc, out),
        }
    }
}

/// Returns the same chunk, if there is one.
fn same_chunk(chunk: &Option<Rc<Chunk>>) -> Result<Option<Rc<Chunk>>, AllocError>
    ensures { IfOk result (λ c. held_bytes c ≡ held_bytes chunk.now) }
{
    match chunk {
        None => Ok(None),
        Some(chunk) => Ok(Some(chunk.clone()?)),
    }
}

/// Returns a chunk with bytes before and after an inner chunk, if there is one.
fn chunk_around(
    before: Vec<u8>,
    inner: Option<Rc<Chunk>>,
    after: Vec<u8>,
) -> Result<Chunk, AllocError>
    ensures { IfOk result (λ c. chunk_bytes c ≡ before.items ++ (held_bytes inner ++ after.items)) }
{
    match inner {
        Some(inner) => Ok(Chunk::Around(before, inner, after)),
        None => {
            let mut bytes = before;
            bytes.extend_from_slice(&after)?;
            Ok(Chunk::Flat(bytes))
        }
    }
}
