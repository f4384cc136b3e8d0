//! What the definitions of requests come to: worked examples over whatever bytes, names and times.
//!
//! No body does anything: each function is called for its contract. `Runs from ends asked last` says that from
//! the step `from` on a request asks for the phases `asked`, one after the other, while its phases end as `ends` say, and
//! then comes to `last`.
#![tactic(auto)]

ghost use Rattle.std.specs.Prelude.{◌≡◌, ◌<◌, ◌≤◌, ◌*◌, ◌++◌, ◌∷◌, [], ℕ, suc, max, List, Option, Some, None, true, false, length};
ghost use Rattle.crdt_rows.specs.declared.version.Version.{Version};
ghost use Rattle.crdt_rows.specs.declared.body.Meta.{Meta};
ghost use Rattle.crdt_rows.specs.declared.version_row.BlockRef.{BlockRef};
ghost use Rattle.crdt_rows.specs.declared.any_row.AnyRow.{AnyRow};
ghost use Rattle.crdt_rows.specs.declared.any_row.AnyRow.TheVariants as rows;
ghost use Rattle.crdt_rows.specs.declared.object_row.ObjectRow.{ObjectRow};
ghost use Rattle.wire_messages.specs.declared.phase.Phase.TheVariants.{Store, Block as Fetch};
ghost use Rattle.wire_messages.specs.declared.phase.PhaseEnd.TheVariants.{Row, Window, Kept, Block};
ghost use Rattle.flow_model.specs.declared.order.Order.TheVariants as order;
ghost use Rattle.flow_model.specs.declared.flow.Name.{Name};
ghost use Rattle.flow_model.specs.declared.flow.Content.{Content};
ghost use Rattle.flow_model.specs.declared.flow.Wish.TheVariants as wish;
ghost use Rattle.flow_model.specs.declared.flow.Stage.TheVariants.{Drawing, Opening, Aborting, Completing};
ghost use Rattle.flow_model.specs.declared.flow.Aim.TheVariants as aim;
ghost use Rattle.flow_model.specs.declared.flow.FlowStep.TheVariants.{More, Need, Wait, End};
ghost use Rattle.flow_model.specs.declared.flow.FlowEnd.TheVariants.{Stored, Found, Nothing, Listed, Superseded, Aborted};
ghost use Rattle.flow_model.specs.Blocks.{piece, has_piece, is_long};
ghost use Rattle.flow_model.specs.Rows as row;
ghost use Rattle.flow_model.specs.Says.{none, marked, in_blocks, said_of, said_by, is_object, shown_rows, unnamed, whole, deleted, named_by};
ghost use Rattle.flow_model.specs.Flow.{waiting, asks_for, asks_past};
ghost use Rattle.flow_model.specs.Next.{drawn, stores, opens, next};
ghost use Rattle.flow_model.specs.Streams.{fed, finished, given_up};
ghost use Rattle.flow_laws.specs.Courses.{begun, Runs};
ghost use Rattle.flow_laws.specs.Pieces.{pieces, named_pieces, merged_row};
ghost use Rattle.flow_laws.specs.Streams.{coming_of, receiving, needing};

/// A put of bytes that are cut into two blocks reads the row of its object, announces the upload, stores the first block
/// with its two rows and then the second, and then the complete version.
pub fn a_put_in_two_blocks()
    ensures { (id block : ℕ) (name : Name) (c : Content) (value : Option AnyRow) (t u v w x : ℕ) →
        is_long c.body ≡ true → has_piece block c.body 1 ≡ true → has_piece block c.body 2 ≡ false →
        let version = drawn id value t in
        Runs (begun (order.Put name.bucket name.key c.body c.headers) id block) ((Row value, t) ∷ (Kept, u) ∷ (Kept, v) ∷ (Kept, w) ∷ (Kept, x) ∷ [])
        (asks_for name ∷ stores (row.uploading name version) ∷ Store (row.block_rows id block c.body 0) ∷ Store (row.block_rows id block c.body 1) ∷ stores (row.in_blocks name version block c) ∷ [])
        (End (Stored version (Some (row.meta_of c)))) }
{}

/// A streamed put of such bytes stores, block by block, the rows of the put: it announces the upload; once the first `i`
/// blocks are stored it needs as many bytes as the next one has, none where all have come; fed with that block it stores
/// what the put stores of it; and where all have come and it is kept, the complete version of the put. Given up instead,
/// at any place, it stores that, and ends so.
pub fn a_streamed_put()
    ensures begins { (id block : ℕ) (name : Name) (c : Content) (value : Option AnyRow) (t : ℕ) →
        let version = drawn id value t in
        (begun (order.Stream name.bucket name.key (length c.body) c.headers) id block ≡ More (record { id = id; block = block; stage = Drawing name (wish.Stream (coming_of c)) }) (asks_for name))
        × (next (record { id = id; block = block; stage = Drawing name (wish.Stream (coming_of c)) }) (Row value) t ≡ More (receiving id block name version c 0) (stores (row.uploading name version))) }
    ensures needs { (id block : ℕ) (name : Name) (version : Version) (c : Content) (i t : ℕ) →
        next (receiving id block name version c i) Kept t ≡ Need (needing id block name version c i)
        (length (piece block c.body i)) }
    ensures feeds { (id block : ℕ) (name : Name) (version : Version) (c : Content) (i : ℕ) →
        has_piece block c.body i ≡ true →
        fed (needing id block name version c i) (piece block c.body i) ≡ Some (receiving id block name version c (suc i), Store (row.block_rows version.id block c.body i)) }
    ensures keeps { (id block : ℕ) (name : Name) (version : Version) (c : Content) (i : ℕ) →
        has_piece block c.body i ≡ false →
        finished (needing id block name version c i) ≡ Some (waiting id block (Completing version (Some (row.meta_of c))) (stores (row.complete name version block (wish.Content c)))) }
    ensures gives_up { (id block : ℕ) (name : Name) (version : Version) (c : Content) (i t : ℕ) →
        (given_up (needing id block name version c i) ≡ Some (waiting id block (Aborting version) (stores (row.aborted name version))))
        × (next (record { id = id; block = block; stage = Aborting version }) Kept t ≡ End Aborted) }
{}

/// A copy whose source has no row, or whose row says that there is no object, asks for that row alone and ends with
/// nothing: it writes nothing.
pub fn a_copy_of_nothing()
    ensures absent { (id block : ℕ) (source name : Name) (headers : Option (List (List ℕ × List ℕ)))
        (t : ℕ) →
        Runs (begun (order.Copy source.bucket source.key name.bucket name.key headers) id block) ((Row None, t) ∷ []) (asks_for source ∷ []) (End Nothing) }
    ensures no_object { (id block : ℕ) (source name : Name) (headers : Option (List (List ℕ ×
        List ℕ))) (value : Option AnyRow) (t : ℕ) → is_object (said_of value) ≡ false →
        Runs (begun (order.Copy source.bucket source.key name.bucket name.key headers) id block) ((Row value, t) ∷ []) (asks_for source ∷ []) (End Nothing) }
{}

/// A delete stores a marker, also where there is no row: its timestamp is then the clock's, or 1 if that is greater.
/// Where the row says a version, the marker's timestamp is greater than that version's.
pub fn a_delete_stores_a_marker()
    ensures absent { (id block : ℕ) (name : Name) (t u : ℕ) →
        let version : Version = record { ts = max t 1; id = id } in
        Runs (begun (order.Delete name.bucket name.key) id block) ((Row None, t) ∷ (Kept, u) ∷ []) (asks_for name ∷ stores (row.marker name version) ∷ []) (End (Stored version None)) }
    ensures marked { (id block : ℕ) (name : Name) (value : Option AnyRow) (t u : ℕ) →
        Runs (begun (order.Delete name.bucket name.key) id block) ((Row value, t) ∷ (Kept, u) ∷ []) (asks_for name ∷ stores (row.marker name (drawn id value t)) ∷ []) (End (Stored (drawn id value t) None)) }
    ensures later { (id : ℕ) (value : Option AnyRow) (t : ℕ) (before : Version) →
        said_of value ≡ marked before → before.ts < (drawn id value t).ts }
{}

/// A list over two windows shows the shown rows of the first and then those of the second.
pub fn a_list_over_two_windows()
    ensures { (id block : ℕ) (bucket prefix after : List ℕ) (first second : List AnyRow) (t u : ℕ) →
        Runs (begun (order.List bucket prefix) id block) ((Window first (Some after), t) ∷ (Window second None, u) ∷ [])
        (asks_past bucket prefix [] ∷ asks_past bucket prefix after ∷ []) (End (Listed (shown_rows first ++ shown_rows second))) }
{}

/// A get of an object in two blocks answers with their bytes one after the other. Where the version's row is deleted it
/// ends superseded, and where that row is absent or not whole it waits.
pub fn a_get_in_two_blocks()
    ensures whole { (id block : ℕ) (name : Name) (value named : Option AnyRow) (version : Version)
        (meta : Meta) (first x y : List ℕ) (a b : BlockRef) (t u v w : ℕ) →
        said_of value ≡ in_blocks version meta first → named_by named meta.size ≡ whole (a ∷ b ∷ []) →
        Runs (begun (order.Get name.bucket name.key) id block) ((Row value, t) ∷ (Row named, u) ∷ (Block x, v) ∷ (Block y, w) ∷ [])
        (asks_for name ∷ opens version ∷ Fetch a.hash ∷ Fetch b.hash ∷ []) (End (Found version meta (x ++ y))) }
    ensures deleted { (id block : ℕ) (name : Name) (value named : Option AnyRow) (version : Version)
        (meta : Meta) (first : List ℕ) (t u : ℕ) →
        said_of value ≡ in_blocks version meta first → named_by named meta.size ≡ deleted →
        Runs (begun (order.Get name.bucket name.key) id block) ((Row value, t) ∷ (Row named, u) ∷ []) (asks_for name ∷ opens version ∷ []) (End (Superseded version.id)) }
    ensures unnamed { (id block : ℕ) (name : Name) (value named : Option AnyRow) (version : Version)
        (meta : Meta) (first : List ℕ) (t u : ℕ) →
        said_of value ≡ in_blocks version meta first → named_by named meta.size ≡ unnamed →
        Runs (begun (order.Get name.bucket name.key) id block) ((Row value, t) ∷ (Row named, u) ∷ []) (asks_for name ∷ opens version ∷ [])
        (Wait (record { id = id; block = block; stage = Opening version meta aim.Get })) }
{}

/// The blocks of bytes, one after the other, are the bytes.
pub fn pieces_are_the_body()
    ensures { (block : ℕ) (body : List ℕ) (count : ℕ) → has_piece block body count ≡ false →
        pieces block body 0 count ≡ body }
{}

/// The version rows that an upload stores of its blocks, merged, are whole and name just these blocks in order.
pub fn merged_rows_are_whole()
    ensures { (id block : ℕ) (body : List ℕ) (last : ℕ) → has_piece block body last ≡ true →
        has_piece block body (suc last) ≡ false →
        named_by (Some (merged_row id block body last)) (length body) ≡ whole (named_pieces block body 0 (suc last)) }
{}
