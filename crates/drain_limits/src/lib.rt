//! How many messages a drain sends at most: a number that grows with the rows that nodes have, not with a power of it. No body
//! does anything: each is called for its contract.
//!
//! `R` is what a row is, `L` what a layout is, `A` what is printed of one, `C` what shows that there is none.
#![tactic(auto)]

ghost use Rattle.std.specs.Prelude.{◌≡◌, ◌≤◌, ◌+◌, ℕ, length, List, Some};
ghost use Rattle.layout_roles.specs.declared.role.Role.{Role};
ghost use Rattle.table_schema.specs.Words.{Words};
ghost use Rattle.cluster_machine.specs.declared.step.Step.TheVariants.{Deliver};
ghost use Rattle.cluster_machine.specs.Layouts.{Layouts};
ghost use Rattle.cluster_machine.specs.Run.{next};
ghost use Rattle.cluster_machine.specs.Step.{Choice};
ghost use Rattle.cluster_machine.specs.World.{World, numbered};
ghost use Rattle.drained_laws.specs.Waiting.{fresh, waiting};
ghost use Rattle.drained_laws.specs.Weights.{drains};
ghost use Rattle.drain_limits.specs.Loads.{Keys, HasKeys, load};

/// Where the nodes' tries have no key hashes but these, the delivery of a message that waits sends no more than it takes from
/// the load of those that wait.
pub fn deliveries_are_paid<R, L, A, C>()
    ensures { (join : R → R → R) (s : Words R) (k : Layouts L) (trio : L) (trio_roles : List Role →
        List Role) (choice : Choice L A C) (keys : Keys) (w : World R L) (m : ℕ) →
        ((n : ℕ) → HasKeys join s keys (w.nodes n)) → length w.messages ≡ length w.marks → numbered w.marks m ≡ Some fresh →
        (let then = next join s k trio trio_roles w (record { step = Deliver m; choice = choice }) in
        length then.messages + load keys (waiting then) ≤ length w.messages + load keys (waiting w)) }
{}

/// So up to any number of deliveries, each of the least message that waits, send no more messages than the load of those that
/// waited at first, where the nodes' tries have no key hashes but these all the time.
pub fn drains_send_few<R, L, A, C>()
    ensures { (join : R → R → R) (s : Words R) (k : Layouts L) (trio : L) (trio_roles : List Role →
        List Role) (choice : Choice L A C) (keys : Keys) (n : ℕ) (w : World R L) →
        ((i : ℕ) → i ≤ n → (m : ℕ) → HasKeys join s keys ((drains join s k trio trio_roles choice i w).nodes m)) → length w.messages ≡ length w.marks →
        (let then = drains join s k trio trio_roles choice n w in
        length then.messages + load keys (waiting then) ≤ length w.messages + load keys (waiting w)) }
{}
