//! What was heard of the lines so far.
ghost use Rattle.std.specs.Prelude.{◌≡◌, OnOk};
ghost use Rattle.std.specs.Ordering.{nat_cmp};
ghost use Rattle.std.specs.BTreeMap.{get, Updates};
ghost use Rattle.crdt_core.specs.Outcomes.{OnlyWant};
ghost use Rattle.audit_model.specs.Heard.{nothing_heard};
ghost use Rattle.audit_reading.specs.Kept.{StandsFor, with_record, with_listing};

use crdt_core::{Bytes, List, Memory};
use crdt_rows::Version;
use history_model::{Answer, Kind, Record};
use std::alloc::Global;
use std::collections::BTreeMap;

/// A list that finished, how many of its keys are still to come, and those that came.
#[derive(Drop)]
pub struct Listing {
    pub request: u64,
    pub left: u64,
    pub keys: List<(Bytes, Version)>,
}

/// The kinds of the requests that lines said to have begun, by their numbers; the records; and a list whose keys are
/// still to come.
#[derive(Drop)]
pub struct Heard {
    pub kinds: BTreeMap<u64, Kind>,
    pub history: List<Record>,
    pub listing: Option<Listing>,
}

impl Heard {
    pub fn new(alloc: Global) -> Heard
        ensures { StandsFor result nothing_heard }
    {
        Heard {
            kinds: BTreeMap::new(alloc),
            history: List::new(alloc),
            listing: None,
        }
    }

    /// The kind of a request, where one has begun.
    pub fn kind(&self, request: u64) -> Option<Kind>
        ensures { result ≡ get nat_cmp self.now.kinds request }
    {
        self.kinds.get(&request).copied()
    }

    /// One record more.
    pub fn add(&mut self, added: Record) -> Result<(), Memory>
        ensures ok { OnOk result (self.new ≡ with_record self.old added) }
        ensures want { OnlyWant result }
    {
        self.history.push(added)
    }

    /// A request began, with this record.
    pub fn begin(&mut self, request: u64, kind: Kind, began: Record) -> Result<(), Memory>
        ensures kinds { OnOk result (Updates nat_cmp self.old.kinds self.new.kinds request
            (Some kind)) }
        ensures others { OnOk result
            (self.new ≡ record (with_record self.old began) { kinds = self.new.kinds }) }
        ensures want { OnlyWant result }
    {
        let _ = self.kinds.insert(request, kind)?;
        self.history.push(began)
    }

    /// A list is complete where no key of it is left, else its keys are awaited.
    pub fn list(&mut self, listing: Listing) -> Result<(), Memory>
        ensures ok { OnOk result (self.new ≡ with_listing self.old listing) }
        ensures want { OnlyWant result }
    {
        if listing.left == 0 {
            return self.add(Record::Finished {
                request: listing.request,
                answer: Answer::Listed(listing.keys),
            });
        }
        self.listing = Some(listing);
        Ok(())
    }
}
