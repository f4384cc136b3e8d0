//! The parts of rows.
ghost use Rattle.std.specs.Prelude.{true};
ghost use Rattle.row_codec.specs.PartLaws.{version_reads, part_reads, block_reads, meta_reads, state_reads};
ghost use Rattle.row_codec.specs.Range.{version_in_range, part_in_range, block_in_range, meta_in_range, state_in_range, is_short_meta, is_short_state};
ghost use Rattle.row_codec.specs.Reading.{version_at, part_at, block_at, meta_at, state_at};
ghost use Rattle.row_codec.specs.Spelling.{version, part, block, meta, state};

use crate::fault::Fault;
use crate::field::Field;
use blake2_hash::Hash32;
use crdt_core::{Bytes, List, Memory};
use crdt_rows::{BlockRef, Body, Meta, Part, State, Version};
use std::alloc::Global;

impl Field for Version {
    ghost in_range = { version_in_range };

    ghost is_short = { λ v. true };

    ghost spelled = { version };

    ghost read = { version_at };

    ghost reads = { version_reads };

    fn is_short(&self) -> bool {
        true
    }

    fn spelled_len(&self) -> Option<usize> {
        self.ts.spelled_len()?.checked_add(self.id.spelled_len()?)
    }

    fn put(&self, out: &mut Bytes) -> Result<(), Memory> {
        self.ts.put(out)?;
        self.id.put(out)
    }

    #[tactic(auto, unfolding(crate::specs::Reading::version_at, crate::specs::Reading::made_at, crate::specs::Reading::both_at))]
    fn take(alloc: Global, bytes: &[u8]) -> Result<(Version, &[u8]), Fault> {
        let (ts, rest) = u64::take(alloc, bytes)?;
        let (id, rest) = u64::take(alloc, rest)?;
        Ok((Version { ts, id }, rest))
    }
}

impl Field for Part {
    ghost in_range = { part_in_range };

    ghost is_short = { λ p. true };

    ghost spelled = { part };

    ghost read = { part_at };

    ghost reads = { part_reads };

    fn is_short(&self) -> bool {
        true
    }

    fn spelled_len(&self) -> Option<usize> {
        self.part
            .spelled_len()?
            .checked_add(self.offset.spelled_len()?)
    }

    fn put(&self, out: &mut Bytes) -> Result<(), Memory> {
        self.part.put(out)?;
        self.offset.put(out)
    }

    #[tactic(auto, unfolding(crate::specs::Reading::part_at, crate::specs::Reading::made_at, crate::specs::Reading::both_at))]
    fn take(alloc: Global, bytes: &[u8]) -> Result<(Part, &[u8]), Fault> {
        let (part, rest) = u32::take(alloc, bytes)?;
        let (offset, rest) = u64::take(alloc, rest)?;
        Ok((Part { part, offset }, rest))
    }
}

impl Field for BlockRef {
    ghost in_range = { block_in_range };

    ghost is_short = { λ b. true };

    ghost spelled = { block };

    ghost read = { block_at };

    ghost reads = { block_reads };

    fn is_short(&self) -> bool {
        true
    }

    fn spelled_len(&self) -> Option<usize> {
        self.hash
            .spelled_len()?
            .checked_add(self.size.spelled_len()?)
    }

    fn put(&self, out: &mut Bytes) -> Result<(), Memory> {
        self.hash.put(out)?;
        self.size.put(out)
    }

    #[tactic(auto, unfolding(crate::specs::Reading::block_at, crate::specs::Reading::made_at, crate::specs::Reading::both_at))]
    fn take(alloc: Global, bytes: &[u8]) -> Result<(BlockRef, &[u8]), Fault> {
        let (hash, rest) = Hash32::take(alloc, bytes)?;
        let (size, rest) = u32::take(alloc, rest)?;
        Ok((BlockRef { hash, size }, rest))
    }
}

impl Field for Meta {
    ghost in_range = { meta_in_range };

    ghost is_short = { is_short_meta };

    ghost spelled = { meta };

    ghost read = { meta_at };

    ghost reads = { meta_reads };

    fn is_short(&self) -> bool {
        self.headers.is_short()
    }

    fn spelled_len(&self) -> Option<usize> {
        let fixed = self
            .size
            .spelled_len()?
            .checked_add(self.etag.spelled_len()?)?;
        fixed.checked_add(self.headers.spelled_len()?)
    }

    fn put(&self, out: &mut Bytes) -> Result<(), Memory> {
        self.size.put(out)?;
        self.etag.put(out)?;
        self.headers.put(out)
    }

    #[tactic(auto, unfolding(crate::specs::Reading::meta_at, crate::specs::Reading::made_at, crate::specs::Reading::both_at))]
    fn take(alloc: Global, bytes: &[u8]) -> Result<(Meta, &[u8]), Fault> {
        let (size, rest) = u64::take(alloc, bytes)?;
        let (etag, rest) = <[u8; 16]>::take(alloc, rest)?;
        let (headers, rest) = List::take(alloc, rest)?;
        Ok((
            Meta {
                size,
                etag,
                headers,
            },
            rest,
        ))
    }
}

impl Field for State {
    ghost in_range = { state_in_range };

    ghost is_short = { is_short_state };

    ghost spelled = { state };

    ghost read = { state_at };

    ghost reads = { state_reads };

    fn is_short(&self) -> bool {
        match self {
            State::Uploading | State::Aborted | State::Complete(Body::Marker) => true,
            State::Complete(Body::Inline(meta, bytes)) => meta.is_short() && bytes.is_short(),
            State::Complete(Body::Blocks(meta, _)) => meta.is_short(),
        }
    }

    fn spelled_len(&self) -> Option<usize> {
        match self {
            State::Uploading | State::Aborted | State::Complete(Body::Marker) => Some(1),
            State::Complete(Body::Inline(meta, bytes)) => {
                let body = meta.spelled_len()?.checked_add(bytes.spelled_len()?)?;
                body.checked_add(1)
            }
            State::Complete(Body::Blocks(meta, first)) => {
                let body = meta.spelled_len()?.checked_add(first.spelled_len()?)?;
                body.checked_add(1)
            }
        }
    }

    fn put(&self, out: &mut Bytes) -> Result<(), Memory> {
        match self {
            State::Uploading => out.push(0),
            State::Aborted => out.push(1),
            State::Complete(Body::Marker) => out.push(2),
            State::Complete(Body::Inline(meta, bytes)) => {
                out.push(3)?;
                meta.put(out)?;
                bytes.put(out)
            }
            State::Complete(Body::Blocks(meta, first)) => {
                out.push(4)?;
                meta.put(out)?;
                first.put(out)
            }
        }
    }

    #[tactic(auto, unfolding(crate::specs::Reading::state_at, crate::specs::Reading::made_at, crate::specs::Reading::both_at))]
    fn take(alloc: Global, bytes: &[u8]) -> Result<(State, &[u8]), Fault> {
        match bytes {
            [0, rest @ ..] => Ok((State::Uploading, rest)),
            [1, rest @ ..] => Ok((State::Aborted, rest)),
            [2, rest @ ..] => Ok((State::Complete(Body::Marker), rest)),
            [3, rest @ ..] => {
                let (meta, rest) = Meta::take(alloc, rest)?;
                let (bytes, rest) = Bytes::take(alloc, rest)?;
                Ok((State::Complete(Body::Inline(meta, bytes)), rest))
            }
            [4, rest @ ..] => {
                let (meta, rest) = Meta::take(alloc, rest)?;
                let (first, rest) = Hash32::take(alloc, rest)?;
                Ok((State::Complete(Body::Blocks(meta, first)), rest))
            }
            _ => Err(Fault::NotARow),
        }
    }
}
