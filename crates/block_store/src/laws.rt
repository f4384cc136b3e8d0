//! The steps of the contents, one hash at a time.
ghost use Rattle.std.specs.Prelude.{◌≡◌, ◌+◌, ◌-◌, ℕ, List, Some, None, ◌==◌, ◌&&◌, is_some, if◌then◌else◌};
ghost use Rattle.std.specs.Map.{lookup};
ghost use Rattle.blake2_hash.specs.declared.digest.Hash32.{Hash32};
ghost use Rattle.blake2_hash.specs.Hash.{is_hash};
ghost use Rattle.block_store.specs.Contents.{Contents, IsInOrder, block_at, live_count, note_at, put, told_live, told_dead, deleted, idle_notes};

/// What the calls that take the hash `h` make of the block, the count and the note at a hash `q`, and what
/// `Blocks::idle` has there. `Blocks::len` says that the contents of each store are in order.
pub fn calls_by_hash()
    ensures put_block { (c : Contents) (h q : Hash32) (bytes : List ℕ) →
        block_at (put c h bytes) q ≡ (if is_some (block_at c q) then block_at c q else (if is_hash h q then Some bytes else None)) }
    ensures live_count { (c : Contents) (h q : Hash32) →
        live_count (told_live c h) q ≡ live_count c q + (if is_hash h q then 1 else 0) }
    ensures dead_count { (c : Contents) (h q : Hash32) (now : ℕ) →
        live_count (told_dead c h now) q ≡ live_count c q - (if is_hash h q then 1 else 0) }
    ensures dead_note { (c : Contents) (h q : Hash32) (now : ℕ) →
        note_at (told_dead c h now) q ≡ (if (live_count c h == 1) && is_hash h q then Some now else note_at c q) }
    ensures deleted_block { (c : Contents) (h q : Hash32) → IsInOrder c →
        block_at (deleted c h) q ≡ (if is_hash h q then None else block_at c q) }
    ensures deleted_note { (c : Contents) (h q : Hash32) → IsInOrder c →
        note_at (deleted c h) q ≡ (if is_hash h q then None else note_at c q) }
    ensures idle_note { (c : Contents) (q : Hash32) →
        lookup (is_hash q) (idle_notes c) ≡ (if live_count c q == 0 then note_at c q else None) }
{}
