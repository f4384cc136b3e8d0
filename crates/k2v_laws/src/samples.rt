//! Rows and refusals, with what they come to, worked out by hand from the rules. No body does anything: each is called for
//! its contract.
ghost use Rattle.std.specs.Prelude.{◌≡◌, ◌∷◌, [], Some};
ghost use Rattle.blake2_hash.specs.declared.digest.Hash32.{Hash32};
ghost use Rattle.crdt_core.specs.Map.{map_entries};
ghost use Rattle.k2v_rows.specs.Spelling.{spelled};
ghost use Rattle.k2v_model.specs.declared.line.ItemRefusal.TheVariants.{NoSuchToken, Busy};
ghost use Rattle.k2v_model.specs.Orders.{token_in};
ghost use Rattle.k2v_model.specs.Run.{values_told};
ghost use Rattle.k2v_laws.specs.Rows.{shown_letter, two_writes, both_replaced, all_deleted, two_writes_bytes, both_replaced_bytes};
ghost use Rattle.k2v_laws.specs.Requests.{writing, to_read, open_write, open_read, finished_read, IsRefused, IsAdmitted};

/// Two writes of one item at two nodes stand side by side. A write that gives the token of a read of both replaces them;
/// and a deletion that replaces that one leaves nothing to tell, though a read shows it.
pub fn concurrent_values()
    ensures both { (bucket : Hash32) →
        values_told (Some (two_writes bucket)) ≡ shown_letter 1 1 97 ∷ shown_letter 2 2 98 ∷ [] }
    ensures token { (bucket : Hash32) →
        map_entries (token_in (two_writes bucket)) ≡ (1, record { 0 = 1 }) ∷
        (2, record { 0 = 2 }) ∷ [] }
    ensures one { (bucket : Hash32) →
        values_told (Some (both_replaced bucket)) ≡ shown_letter 1 4 99 ∷ [] }
    ensures none { (bucket : Hash32) → values_told (Some (all_deleted bucket)) ≡ [] }
    ensures both_bytes { (bucket : Hash32) → spelled (two_writes bucket) ≡ two_writes_bytes bucket }
    ensures one_bytes { (bucket : Hash32) →
        spelled (both_replaced bucket) ≡ both_replaced_bytes bucket }
{}

/// While a write of an item is open at a node, the next one there is refused, and one at another node or a read isn't. A
/// token that isn't the number of a finished read of the item is refused; a read that found no row gives one all the same.
pub fn busy_and_unknown_token()
    ensures busy { IsRefused open_write 1 (writing 0) (Busy 1) }
    ensures elsewhere { IsAdmitted open_write 2 (writing 0) }
    ensures read { IsAdmitted open_write 1 to_read }
    ensures unknown { IsRefused open_read 2 (writing 9) (NoSuchToken 9) }
    ensures unfinished { IsRefused open_read 2 (writing 2) (NoSuchToken 2) }
    ensures finished { IsAdmitted finished_read 2 (writing 2) }
{}
