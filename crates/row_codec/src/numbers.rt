//! Numbers, strings of bytes and digests.
ghost use Rattle.std.specs.Prelude.{◌≡◌, ◌++◌, true, length, IsTrue, IfErr, OnOk};
ghost use Rattle.crdt_core.specs.Outcomes.{OnlyWant};
ghost use Rattle.row_codec.specs.declared.fault.Fault.TheVariants as faults;
ghost use Rattle.row_codec.specs.Gives.{Gives};
ghost use Rattle.row_codec.specs.NumberLaws.{byte_reads, bytes_reads, four_reads, eight_reads, field_reads};
ghost use Rattle.row_codec.specs.PartLaws.{hash_reads};
ghost use Rattle.row_codec.specs.Range.{is_block, is_byte, is_four, is_eight, is_hash, is_below};
ghost use Rattle.row_codec.specs.Reading.{byte_at, bytes_at, four_at, eight_at, field_at, hash_at};
ghost use Rattle.row_codec.specs.Reads.{are_bytes};
ghost use Rattle.row_codec.specs.Spelling.{byte, four, eight, field};

use crate::fault::Fault;
use crate::field::Field;
use blake2_hash::Hash32;
use crdt_core::{Bytes, Memory};
use std::alloc::Global;

/// Lengths and counts from here on have no 4 bytes.
pub const LIMIT: usize = 1 << 32;

// The first N bytes, and the rest.
#[tactic(auto, unfolding(crate::specs::Reading::bytes_at))]
fn front<const N: usize>(bytes: &[u8]) -> Result<(&[u8; N], &[u8]), Fault>
    ensures gives { Gives (λ x. (x.0.now, x.1.now)) result (bytes_at N bytes.now) }
    ensures no_memory { IfErr result (λ e. e ≡ faults.NotARow) }
{
    match bytes.split_first_chunk::<N>() {
        Some((front, rest)) => Ok((front, rest)),
        None => Err(Fault::NotARow),
    }
}

// Writes the bytes at the end.
fn put_bytes(bytes: &[u8], out: &mut Bytes) -> Result<(), Memory>
    ensures ok { OnOk result (out.new ≡ out.old ++ bytes.now) }
    ensures want { OnlyWant result }
    ensures in_range { IsTrue (are_bytes bytes.now) }
{
    out.extend_from_slice(bytes)
}

// How many bytes these are. Bytes in hand are in range.
fn bytes_len(bytes: &[u8]) -> usize
    ensures is { result ≡ length bytes.now }
    ensures in_range { IsTrue (are_bytes bytes.now) }
{
    bytes.len()
}

impl Field for u8 {
    ghost in_range = { is_byte };

    ghost is_short = { λ n. true };

    ghost spelled = { byte };

    ghost read = { byte_at };

    ghost reads = { byte_reads };

    fn is_short(&self) -> bool {
        true
    }

    fn spelled_len(&self) -> Option<usize> {
        Some(self.to_be_bytes().len())
    }

    fn put(&self, out: &mut Bytes) -> Result<(), Memory> {
        out.push(*self)
    }

    /// Takes no memory.
    #[tactic(auto, unfolding(crate::specs::Reading::byte_at))]
    fn take(_alloc: Global, bytes: &[u8]) -> Result<(u8, &[u8]), Fault>
        ensures gives { Gives (λ x. (x.0, x.1.now)) result (byte_at bytes.now) }
        ensures no_memory { IfErr result (λ e. e ≡ faults.NotARow) }
    {
        match bytes {
            [first, rest @ ..] => Ok((*first, rest)),
            [] => Err(Fault::NotARow),
        }
    }
}

impl Field for u32 {
    ghost in_range = { is_four };

    ghost is_short = { λ n. true };

    ghost spelled = { four };

    ghost read = { four_at };

    ghost reads = { four_reads };

    fn is_short(&self) -> bool {
        true
    }

    #[tactic(auto, unfolding(crate::specs::Spelling::four))]
    fn spelled_len(&self) -> Option<usize> {
        Some(self.to_be_bytes().len())
    }

    #[tactic(auto, unfolding(crate::specs::Spelling::four))]
    fn put(&self, out: &mut Bytes) -> Result<(), Memory> {
        out.extend_from_slice(&self.to_be_bytes())
    }

    /// Takes no memory.
    #[tactic(auto, unfolding(crate::specs::Reading::four_at))]
    fn take(_alloc: Global, bytes: &[u8]) -> Result<(u32, &[u8]), Fault>
        ensures gives { Gives (λ x. (x.0, x.1.now)) result (four_at bytes.now) }
        ensures no_memory { IfErr result (λ e. e ≡ faults.NotARow) }
    {
        let (number, rest) = front::<4>(bytes)?;
        Ok((u32::from_be_bytes(*number), rest))
    }
}

impl Field for u64 {
    ghost in_range = { is_eight };

    ghost is_short = { λ n. true };

    ghost spelled = { eight };

    ghost read = { eight_at };

    ghost reads = { eight_reads };

    fn is_short(&self) -> bool {
        true
    }

    #[tactic(auto, unfolding(crate::specs::Spelling::eight))]
    fn spelled_len(&self) -> Option<usize> {
        Some(self.to_be_bytes().len())
    }

    #[tactic(auto, unfolding(crate::specs::Spelling::eight))]
    fn put(&self, out: &mut Bytes) -> Result<(), Memory> {
        out.extend_from_slice(&self.to_be_bytes())
    }

    /// Takes no memory.
    #[tactic(auto, unfolding(crate::specs::Reading::eight_at))]
    fn take(_alloc: Global, bytes: &[u8]) -> Result<(u64, &[u8]), Fault>
        ensures gives { Gives (λ x. (x.0, x.1.now)) result (eight_at bytes.now) }
        ensures no_memory { IfErr result (λ e. e ≡ faults.NotARow) }
    {
        let (number, rest) = front::<8>(bytes)?;
        Ok((u64::from_be_bytes(*number), rest))
    }
}

impl<const N: usize> Field for [u8; N] {
    ghost in_range = { is_block N };

    ghost is_short = { λ b. true };

    ghost spelled = { λ b. b };

    ghost read = { bytes_at N };

    ghost reads = { bytes_reads N };

    fn is_short(&self) -> bool {
        true
    }

    fn spelled_len(&self) -> Option<usize> {
        Some(bytes_len(self))
    }

    fn put(&self, out: &mut Bytes) -> Result<(), Memory> {
        put_bytes(self, out)
    }

    /// Takes no memory.
    fn take(_alloc: Global, bytes: &[u8]) -> Result<([u8; N], &[u8]), Fault>
        ensures gives { Gives (λ x. (x.0, x.1.now)) result (bytes_at N bytes.now) }
        ensures no_memory { IfErr result (λ e. e ≡ faults.NotARow) }
    {
        let (block, rest) = front::<N>(bytes)?;
        Ok((*block, rest))
    }
}

impl Field for Hash32 {
    ghost in_range = { is_hash };

    ghost is_short = { λ h. true };

    ghost spelled = { λ h. h.0 };

    ghost read = { hash_at };

    ghost reads = { hash_reads };

    fn is_short(&self) -> bool {
        true
    }

    fn spelled_len(&self) -> Option<usize> {
        Some(bytes_len(&self.0))
    }

    fn put(&self, out: &mut Bytes) -> Result<(), Memory> {
        put_bytes(&self.0, out)
    }

    /// Takes no memory.
    #[tactic(auto, unfolding(crate::specs::Reading::hash_at, crate::specs::Reading::made_at))]
    fn take(_alloc: Global, bytes: &[u8]) -> Result<(Hash32, &[u8]), Fault>
        ensures gives { Gives (λ x. (x.0, x.1.now)) result (hash_at bytes.now) }
        ensures no_memory { IfErr result (λ e. e ≡ faults.NotARow) }
    {
        let (block, rest) = front::<32>(bytes)?;
        Ok((Hash32(*block), rest))
    }
}

impl Field for Bytes {
    ghost in_range = { are_bytes };

    ghost is_short = { is_below };

    ghost spelled = { field };

    ghost read = { field_at };

    ghost reads = { field_reads };

    fn is_short(&self) -> bool {
        self.len() < LIMIT
    }

    #[tactic(auto, unfolding(crate::specs::Spelling::four))]
    fn spelled_len(&self) -> Option<usize> {
        bytes_len(self.as_slice()).checked_add(4)
    }

    fn put(&self, out: &mut Bytes) -> Result<(), Memory> {
        (self.len() as u32).put(out)?;
        put_bytes(self.as_slice(), out)
    }

    #[tactic(auto, unfolding(crate::specs::Reading::field_at, crate::specs::Reading::bytes_at))]
    fn take(alloc: Global, bytes: &[u8]) -> Result<(Bytes, &[u8]), Fault> {
        let (len, rest) = u32::take(alloc, bytes)?;
        let len = len as usize;
        if rest.len() < len {
            return Err(Fault::NotARow);
        }
        let (front, rest) = rest.split_at(len);
        Ok((Bytes::from_slice(alloc, front)?, rest))
    }
}
