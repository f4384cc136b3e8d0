//! One request on a cluster that its owner lends to the server.
#![tactic(auto)]

ghost use Rattle.std.specs.Prelude.{◌++◌, IsSome};
ghost use Rattle.lab_outside.specs.Links.{Stays};
ghost use Rattle.serve_model.specs.Clusters.{Cluster as Model, cluster as model, fits, lacks};
ghost use Rattle.serve_model.specs.Plain.{Plain};
ghost use Rattle.serve_model.specs.Serving.{HasState, Reached, Goes, Stands, ServesOn};
ghost use Rattle.serve_model.specs.Stores.{known_from};
ghost use Rattle.serve_model.specs.Talk.{Grammar, Serving, turn};
ghost use Rattle.serve_cluster.specs.Standing.{StandsFor};
ghost use Rattle.serve_lent.specs.Lent.{HoldsMap, LooksLikeMap, ServesFromMap};

use held_laws::a_cluster_that_looks_like_a_map_holds_it;
use http_wire::Kept;
use lab_outside::{Clock, Link};
use plain_laws::a_request_is_served_as_from_the_map;
use serve_cluster::Cluster;
use serve_loop::serve_request;
use serve_model::{Buckets, ServeFault, Served};
use std::alloc::Global;

/// Serves the next request of the connection that is present on a cluster that is lent, and says whether the connection
/// goes on.
///
/// `last` says that it closes after this request. What is kept of its bytes comes before those that are left. Where the
/// cluster holds a map, so it does afterwards, and the client is answered as from the map. After an error the cluster is to
/// be given up.
pub fn serve_lent_request<L: Link, C: Clock>(
    alloc: Global,
    cluster: &mut Cluster,
    last: bool,
    link: &mut L,
    kept: &mut Kept,
    clock: &mut C,
    served: &mut Served,
    buckets: &Buckets,
) -> Result<bool, ServeFault>
    requires state { HasState (StandsFor cluster.old) }
    requires present { IsSome (L.present link.old) }
    ensures present { IsSome (L.present link.new) }

    // Whatever map the cluster holds: what is written is what the map answers to the first request in the bytes that are kept and
    // left, or a first part of it where the count of faults rose or an error is answered, and the cluster then holds what
    // the map has become.
    ensures from_map { (g : Grammar) (q : Serving Plain) (stands : Stands (HoldsMap cluster.old)
        (C.times clock.old) served.old q) →
        ServesFromMap stands.store.state buckets.now g last q kept.old.bytes.items cluster.new (C.times clock.new) served.new result kept.new.bytes.items (L.present link.old) (L.present link.new) }

    // So it is of a cluster to which lawful acts led and which looks like one that holds the map.
    ensures from_looks { (g : Grammar) (q : Serving Plain)
        (stands : Stands (LooksLikeMap cluster.old) (C.times clock.old) served.old q) →
        ServesFromMap stands.store.state buckets.now g last q kept.old.bytes.items cluster.new (C.times clock.new) served.new result kept.new.bytes.items (L.present link.old) (L.present link.new) }

    // Whatever it holds, the request is served as it is stated over a cluster.
    ensures serves { (g : Grammar) (p : Serving Model) →
        Stands (StandsFor cluster.old) (C.times clock.old) served.old p →
        ServesOn (λ left. turn model buckets.now g last p (kept.old.bytes.items ++ left)) (Reached model fits lacks (StandsFor cluster.new) p.store) (known_from model fits lacks p.store) (C.times clock.new) served.new result kept.new.bytes.items (L.present link.old) (L.present link.new) }
    ensures goes { Goes model fits lacks (StandsFor cluster.old) (StandsFor cluster.new) result }
    ensures stays { Stays L.Link link.old link.new }
{
    a_cluster_that_looks_like_a_map_holds_it();
    a_request_is_served_as_from_the_map();
    serve_request(alloc, cluster, last, link, kept, clock, served, buckets)
}
