//! What is looked up in a history.
ghost use Rattle.std.specs.Prelude.{◌≡◌, ◌<◌, ◌≤◌, ◌^◌, length, IsSorted, IfOk, true, false};
ghost use Rattle.std.specs.List.Sorted.{IsPartitionPoint};
ghost use Rattle.crdt_core.specs.Outcomes.{OnlyWant};
ghost use Rattle.world_history.specs.Index.{IsOrder, place_cmp, is_earlier};

use crdt_core::Memory;
use history_model::Record;
use std::alloc::Global;
use std::cmp::Ordering;

/// The records, and where each request is spoken of.
#[derive(Drop)]
pub struct Index<'a> {
    pub records: &'a [Record],
    /// The number of each record's request and the record's place, in order.
    pub order: Vec<(u64, usize)>,
    pub ghost counted: { length records.now < 2 ^ 63 },
    pub ghost ordered: { IsOrder records.now order.items },
}

// The number of each record's request and the record's place, in order.
fn order(alloc: Global, records: &[Record]) -> Result<Vec<(u64, usize)>, Memory>
    ensures told { IfOk result (λ order. IsOrder records.now order.items) }
    ensures want { OnlyWant result }
{
    let mut order = Vec::new(alloc);
    for i in 0..records.len() {
        match order.push((records[i].request(), i)) {
            Ok(()) => {}
            Err(_) => return Err(Memory::Want),
        }
    }
    order.sort_unstable();
    Ok(order)
}

impl<'a> Index<'a> {
    pub fn new(alloc: Global, records: &'a [Record]) -> Result<Index<'a>, Memory>
        ensures told { IfOk result (λ index. index.records.now ≡ records.now) }
        ensures want { OnlyWant result }
    {
        let order = order(alloc, records)?;
        Ok(Index { records, order })
    }
}

// Whether an entry stands before those of this request at this place or later.
fn is_earlier(entry: &(u64, usize), request: u64, place: usize) -> bool
    ensures { result ≡ is_earlier request place entry.now }
{
    match entry.0.cmp(&request) {
        Ordering::Less => true,
        Ordering::Greater => false,
        Ordering::Equal => entry.1 < place,
    }
}

/// How many entries stand before those of this request at this place or later.
pub fn entries_before(order: &[(u64, usize)], request: u64, place: usize) -> usize
    requires { IsSorted place_cmp order.now }
    ensures bound { result ≤ length order.now }
    ensures point { IsPartitionPoint (λ e. is_earlier request place e ≡ true) (λ e. is_earlier request place e ≡ false) order.now result }
{
    order.partition_point(
        |entry: &(u64, usize)| -> bool
            ensures { result ≡ is_earlier request place entry.now }
        { is_earlier(entry, request, place) },
    )
}
