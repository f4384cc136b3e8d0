//! All connections, served one after the other.
ghost use Rattle.std.specs.Prelude.{◌≡◌, ◌⊎◌, ◌+◌, ◌<◌, ◌≤◌, [], length, Some, None, Err, IfOk, IfSome};
ghost use Rattle.lab_outside.specs.Rose.{Rose};
ghost use Rattle.serve_model.specs.Stores.{known_from};
ghost use Rattle.serve_model.specs.Talk.{Grammar, Serving};
ghost use Rattle.serve_model.specs.Serving.{HasState, Reached, Stands};
ghost use Rattle.serve_loop.specs.Service.{Ends, Leaves};

use crate::connection::serve_connection;
use crate::storage::Storage;
use lab_outside::{Clock, Link};
use serve_model::{Buckets, ServeFault, Served};
use std::alloc::Global;

/// Why serving ended before so many connections were served as were asked.
#[derive(Clone, Copy, Debug, PartialEq, Eq)]
pub enum ServeStop {
    /// The port couldn't be opened, or waiting for a connection failed.
    Link,
    /// Too many bytes were put or copied, a number had no room, or memory was refused.
    Fault(ServeFault),
}

/// Serves so many connections of a port, one after the other, or fewer where no more come, and says how many.
pub fn serve<S: Storage, L: Link, C: Clock>(
    alloc: Global,
    store: &mut S,
    port: u16,
    count: u32,
    link: &mut L,
    clock: &mut C,
    served: &mut Served,
    buckets: &Buckets,
) -> Result<u32, ServeStop>
    requires state { HasState (S.stands store.old) }
    requires absent { L.present link.old ≡ None }
    ensures absent { L.present link.new ≡ None }

    // What was written to each connection is what is stated of its bytes, from what the connections before it left, or a
    // first part of that, up to a stop, where its count of faults rose; and those behind it are served from there. Where
    // serving ended early it's so for all connections but the last, which came to one of its stops or into the middle of one
    // of its gets, or was written whole.
    ensures served { (g : Grammar) (p : Serving S.State) →
        Stands (S.stands store.old) (C.times clock.old) served.old p →
        IfSome (L.coming link.old) (λ coming.
        Ends S.model buckets.now g p (Reached S.model S.fits S.lacks (S.stands store.new) p.store) (known_from S.model S.fits S.lacks p.store) (C.times clock.new) served.new result coming (L.coming link.new) (L.past link.old) (L.past link.new)) }

    // Whatever link and clock tell: lawful orders lead to a state that the store stands for.
    ensures goes { Leaves S.model S.fits S.lacks (S.stands store.old) (S.stands store.new) result }
    ensures within { IfOk result (λ n. n ≤ count) }
    ensures short { IfOk result (λ n. n < count →
        IfSome (L.coming link.old) (λ coming. L.coming link.new ≡ Some [])) }
    ensures gone { IfOk result (λ n. length (L.past link.new) ≡ length (L.past link.old) + n) }

    // The port is open then, unless waiting for it or for a connection failed; then the link's count of faults rose, and
    // where it rose that is told.
    ensures opened { (result ≡ Err ServeStop.Link) ⊎ (L.open_at link.new ≡ Some port) }
    ensures fault { result ≡ Err ServeStop.Link → Rose (L.faults link.old) (L.faults link.new) }
    ensures told { (result ≡ Err ServeStop.Link) ⊎ (L.faults link.new ≡ L.faults link.old) }
{
    if link.open(port).is_err() {
        return Err(ServeStop::Link);
    }
    let mut number = 0;
    'connections: while number < count {
        let came = match link.next() {
            Ok(came) => came,
            Err(_) => return Err(ServeStop::Link),
        };
        if !came {
            return Ok(number);
        }
        let end = serve_connection(alloc, store, link, clock, served, buckets);
        link.end();
        match end {
            Ok(()) => number += 1,
            Err(fault) => return Err(ServeStop::Fault(fault)),
        }
    }
    Ok(number)
}
