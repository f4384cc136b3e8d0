//! Pairs, and lists of values.
ghost use Rattle.std.specs.Prelude.{◌≡◌, ◌≤◌, ◌^◌, ◌&&◌, ◌++◌, [], length, IfOk, IfSome, IfNone, IsTrue, OnOk};
ghost use Rattle.std.specs.List.{list_all, flat_map};
ghost use Rattle.crdt_core.specs.Outcomes.{OnlyWant};
ghost use Rattle.row_codec.specs.Gives.{Gives};
ghost use Rattle.row_codec.specs.JoinedLaws.{both_reads, counted_reads};
ghost use Rattle.row_codec.specs.PartLaws.{max_reads};
ghost use Rattle.row_codec.specs.Range.{are_short};
ghost use Rattle.row_codec.specs.Reading.{both_at, each_at, counted_at, max_at};
ghost use Rattle.row_codec.specs.Spelling.{counted};

use crate::fault::Fault;
use crate::field::Field;
use crate::numbers::LIMIT;
use crdt_core::{Bytes, List, Max, Memory, Value};
use std::alloc::Global;

impl<A: Field, B: Field> Field for (A, B) {
    ghost in_range = { λ p. A.in_range p.0 && B.in_range p.1 };

    ghost is_short = { λ p. A.is_short p.0 && B.is_short p.1 };

    ghost spelled = { λ p. A.spelled p.0 ++ B.spelled p.1 };

    ghost read = { both_at A.read B.read };

    ghost reads = { both_reads A.reads B.reads };

    fn is_short(&self) -> bool {
        self.0.is_short() && self.1.is_short()
    }

    fn spelled_len(&self) -> Option<usize> {
        self.0.spelled_len()?.checked_add(self.1.spelled_len()?)
    }

    fn put(&self, out: &mut Bytes) -> Result<(), Memory> {
        self.0.put(out)?;
        self.1.put(out)
    }

    #[tactic(auto, unfolding(crate::specs::Reading::both_at))]
    fn take(alloc: Global, bytes: &[u8]) -> Result<((A, B), &[u8]), Fault> {
        let (first, rest) = A::take(alloc, bytes)?;
        let (second, rest) = B::take(alloc, rest)?;
        Ok(((first, second), rest))
    }
}

impl<T: Value + Field> Field for Max<T> {
    ghost in_range = { λ m. T.in_range m.0 };

    ghost is_short = { λ m. T.is_short m.0 };

    ghost spelled = { λ m. T.spelled m.0 };

    ghost read = { max_at T.read };

    ghost reads = { max_reads T.reads };

    fn is_short(&self) -> bool {
        self.0.is_short()
    }

    fn spelled_len(&self) -> Option<usize> {
        self.0.spelled_len()
    }

    fn put(&self, out: &mut Bytes) -> Result<(), Memory> {
        self.0.put(out)
    }

    #[tactic(auto, unfolding(crate::specs::Reading::max_at, crate::specs::Reading::made_at))]
    fn take(alloc: Global, bytes: &[u8]) -> Result<(Max<T>, &[u8]), Fault> {
        let (value, rest) = T::take(alloc, bytes)?;
        Ok((Max(value), rest))
    }
}

fn all_short<T: Field>(items: &[T]) -> bool
    ensures { result ≡ list_all T.is_short items.now }
{
    items.iter().all(|item| item.is_short())
}

fn put_each<T: Field>(items: &[T], out: &mut Bytes) -> Result<(), Memory>
    requires { IsTrue (list_all T.is_short items.now) }
    ensures ok { OnOk result (out.new ≡ out.old ++ flat_map T.spelled items.now) }
    ensures in_range { OnOk result (IsTrue (list_all T.in_range items.now)) }
    ensures want { OnlyWant result }
{
    for item in items {
        item.put(out)?;
    }
    Ok(())
}

fn each_len<T: Field>(items: &[T]) -> Option<usize>
    ensures is { IfSome result (λ n. n ≡ length (flat_map T.spelled items.now)) }
    ensures none { IfNone result (2 ^ 64 ≤ length (flat_map T.spelled items.now)) }
    ensures in_range { IfSome result (λ n. IsTrue (list_all T.in_range items.now)) }
{
    let mut total: usize = 0;
    for item in items {
        total = total.checked_add(item.spelled_len()?)?;
    }
    Some(total)
}

// So many items get just the room that they need; a greater count isn't believed before they were read.
const FEW: u32 = 4;

fn with_room<T>(alloc: Global, count: u32) -> Result<List<T>, Memory>
    ensures empty { IfOk result (λ items. items ≡ []) }
    ensures want { OnlyWant result }
{
    let room = count.min(FEW) as usize;
    Ok(List::from_vec(Vec::with_capacity(alloc, room)?))
}

fn take_each<T: Field>(alloc: Global, count: u32, bytes: &[u8]) -> Result<(List<T>, &[u8]), Fault>
    ensures { Gives (λ x. (x.0, x.1.now)) result (each_at T.read count bytes.now) }
{
    let mut items = with_room(alloc, count)?;
    let mut rest = bytes;
    for _ in 0..count {
        let (item, after) = T::take(alloc, rest)?;
        items.push(item)?;
        rest = after;
    }
    Ok((items, rest))
}

/// A count and each of the items, as a list of them is written.
pub fn put_items<T: Field>(items: &[T], out: &mut Bytes) -> Result<(), Memory>
    requires { IsTrue (are_short T.is_short items.now) }
    ensures ok { OnOk result (out.new ≡ out.old ++ counted T.spelled items.now) }
    ensures in_range { OnOk result (IsTrue (list_all T.in_range items.now)) }
    ensures want { OnlyWant result }
{
    (items.len() as u32).put(out)?;
    put_each(items, out)
}

/// How many bytes a count and each of the items have.
#[tactic(auto, unfolding(crate::specs::Spelling::four))]
pub fn items_len<T: Field>(items: &[T]) -> Option<usize>
    ensures is { IfSome result (λ n. n ≡ length (counted T.spelled items.now)) }
    ensures none { IfNone result (2 ^ 64 ≤ length (counted T.spelled items.now)) }
    ensures in_range { IfSome result (λ n. IsTrue (list_all T.in_range items.now)) }
{
    each_len(items)?.checked_add(4)
}

/// Fewer than 2^32 items, each of them short.
pub fn are_short<T: Field>(items: &[T]) -> bool
    ensures { result ≡ are_short T.is_short items.now }
{
    items.len() < LIMIT && all_short(items)
}

impl<T: Field> Field for List<T> {
    ghost in_range = { list_all T.in_range };

    ghost is_short = { are_short T.is_short };

    ghost spelled = { counted T.spelled };

    ghost read = { counted_at T.read };

    ghost reads = { counted_reads T.reads };

    fn is_short(&self) -> bool {
        are_short(self.as_slice())
    }

    fn spelled_len(&self) -> Option<usize> {
        items_len(self.as_slice())
    }

    fn put(&self, out: &mut Bytes) -> Result<(), Memory> {
        put_items(self.as_slice(), out)
    }

    #[tactic(auto, unfolding(crate::specs::Reading::counted_at))]
    fn take(alloc: Global, bytes: &[u8]) -> Result<(List<T>, &[u8]), Fault> {
        let (count, rest) = u32::take(alloc, bytes)?;
        take_each(alloc, count, rest)
    }
}
