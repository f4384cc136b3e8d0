//! One connection, served.
ghost use Rattle.std.specs.Prelude.{IsSome};
ghost use Rattle.lab_outside.specs.Connection.{OnPresent};
ghost use Rattle.lab_outside.specs.Links.{Stays};
ghost use Rattle.serve_model.specs.Stores.{known_from};
ghost use Rattle.serve_model.specs.Talk.{Grammar, Serving, request_limit, talk};
ghost use Rattle.serve_model.specs.Serving.{HasState, Reached, Goes, Stands, OnLeft};
ghost use Rattle.serve_model.specs.Connections.{Talks};

use crate::request::serve_request;
use crate::storage::Storage;
use http_wire::Kept;
use lab_outside::{Clock, Link};
use serve_model::{Buckets, ServeFault, Served};
use std::alloc::Global;

/// How many requests of one connection are answered.
const REQUEST_LIMIT: u32 = 1000;

/// Serves the requests of the connection that is present. After an error the store is to be given up.
pub(crate) fn serve_connection<S: Storage, L: Link, C: Clock>(
    alloc: Global,
    store: &mut S,
    link: &mut L,
    clock: &mut C,
    served: &mut Served,
    buckets: &Buckets,
) -> Result<(), ServeFault>
    requires state { HasState (S.stands store.old) }
    requires present { IsSome (L.present link.old) }
    ensures present { IsSome (L.present link.new) }
    ensures talks { (g : Grammar) (p : Serving S.State) →
        Stands (S.stands store.old) (C.times clock.old) served.old p →
        OnPresent (λ c d. OnLeft (λ left. Talks (talk S.model buckets.now g request_limit p left) (Reached S.model S.fits S.lacks (S.stands store.new) p.store) (known_from S.model S.fits S.lacks p.store) (C.times clock.new) served.new result c d) c.left) (L.present link.old) (L.present link.new) }
    ensures goes { Goes S.model S.fits S.lacks (S.stands store.old) (S.stands store.new) result }
    ensures stays { Stays L.Link link.old link.new }
{
    let mut kept = Kept::new(alloc);
    let mut more = REQUEST_LIMIT;
    'requests: while more > 0 {
        more -= 1;
        let last = more == 0;
        let goes = match serve_request(
            alloc, store, last, link, &mut kept, clock, served, buckets,
        ) {
            Ok(goes) => goes,
            Err(fault) => return Err(fault),
        };
        if !goes {
            return Ok(());
        }
    }
    Ok(())
}
