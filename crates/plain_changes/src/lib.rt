//! A cluster that holds a plain map holds it after a layout change, and is at rest on the new version. No body does anything:
//! each is called for its contract.
#![tactic(auto)]

ghost use Rattle.std.specs.Prelude.{◌≡◌, ◌≤◌, ◌<◌, ◌+◌, ℕ, suc, ⊤, Bool, List, [], ◌∷◌, ◌++◌, length, map};
ghost use Rattle.std.specs.List.{AllByRecursion};
ghost use Rattle.layout_roles.specs.declared.role.Role.{Role};
ghost use Rattle.layout_roles.specs.declared.redundancy.Redundancy.{Redundancy};
ghost use Rattle.layout_roles.specs.declared.layout.Layout.{Layout};
ghost use Rattle.layout_roles.specs.declared.cut.Cut.{Cut};
ghost use Rattle.cluster_machine.specs.declared.applied.Applied.{Applied};
ghost use Rattle.cluster_machine.specs.Choices.{HasGreatest, AreGreatest, IsFirst};
ghost use Rattle.cluster_machine.specs.Hashes.{NoClash as NoWalkClash};
ghost use Rattle.cluster_machine.specs.Layouts.{layouts};
ghost use Rattle.cluster_machine.specs.Run.{IsLayout};
ghost use Rattle.cluster_machine.specs.Step.{Choice};
ghost use Rattle.object_schema.specs.Schema.{words};
ghost use Rattle.store_model.specs.Fresh.{NoClash};
ghost use Rattle.store_model.specs.Run.{World, start};
ghost use Rattle.store_model.specs.Acts.{Act, installs, acted, after_acts, AreLawfulActs, ActsFit};
ghost use Rattle.lab_outside.specs.Connection.{Connection};
ghost use Rattle.serve_model.specs.declared.buckets.Buckets.{Buckets};
ghost use Rattle.serve_model.specs.declared.served.ServeFault.{ServeFault};
ghost use Rattle.serve_model.specs.Stores.{Job, fits_asking, after_jobs, JobsFit};
ghost use Rattle.serve_model.specs.Talk.{Grammar, Serving, turn};
ghost use Rattle.serve_model.specs.Connections.{stated, AreServed, EndsSo};
ghost use Rattle.serve_model.specs.Clusters.{Cluster};
ghost use Rattle.serve_model.specs.Plain.{Plain, AreApart};
ghost use Rattle.change_laws.specs.Handing.{IsQuiet};
ghost use Rattle.change_laws.specs.Resting.{IsResting};
ghost use Rattle.change_model.specs.Steps.{members_of_both};
ghost use Rattle.change_laws.specs.Whole.{MayChange};
ghost use Rattle.drained_laws.specs.Calm.{IsMember};
ghost use Rattle.plain_laws.specs.Blocks.{IsKept};
ghost use Rattle.plain_laws.specs.Holds.{Holds};
ghost use Rattle.serve_changes.specs.Changing.{Changing, changing, changing_fits, acts_through, Change};
ghost use Rattle.plain_changes.specs.Changing.{MayCome, AreComputed, StandsWith, IsServedBlock, IsServedHash, AreServedFrom, EndsFrom, IsTurnBlock, IsTurnHash, IsTurnFrom, AreStopsFrom};
ghost use Rattle.plain_changes.specs.Events.{Event, EventsFit, AnswersThrough};
ghost use Rattle.plain_changes.specs.Standing.{Standing, IsStaging, after_changes, last_of, MayFollow, IsComputedFor, TakesAll, acts_of};
ghost use Rattle.plain_changes.specs.Changed.{staged, Changed, IsSpelled, IsClear, moved_to};

/// A cluster at rest that holds a map holds it after a change, whatever was staged, on the new version and with its members,
/// where no two blocks that nodes keep have one digest, and no two strings that the change's rounds hash for walks; and it is at
/// rest on that version, whatever digests there are.
pub fn a_change_keeps_the_map()
    ensures holds { (c : Cluster) (P : Plain) (h : Holds c P) (new : Layout) (part : List ℕ) (m : ℕ)
        (roles : List Role) (wanted : Redundancy) (choice : Choice Layout Applied Cut)
        (shown : Applied) (after : World) →
        IsResting layouts h.layout c.run.world → MayChange layouts h.layout new part m → AreApart (IsKept c.run.world) → (is : Changed choice new shown m part (staged c.run.world roles wanted) after) →
        IsSpelled choice new shown m part (staged c.run.world roles wanted) after is → IsClear choice new shown m part (staged c.run.world roles wanted) after is → Holds (moved_to c after new) P }
    ensures rests { (c : Cluster) (P : Plain) (h : Holds c P) (new : Layout) (part : List ℕ) (m : ℕ)
        (roles : List Role) (wanted : Redundancy) (choice : Choice Layout Applied Cut)
        (shown : Applied) (after : World) →
        IsResting layouts h.layout c.run.world → MayChange layouts h.layout new part m → AreApart (IsKept c.run.world) → (is : Changed choice new shown m part (staged c.run.world roles wanted) after) →
        IsSpelled choice new shown m part (staged c.run.world roles wanted) after is → IsResting layouts new after }
{}

/// A row of the object store that stays as it is calls for no other.
pub fn rows_that_stay_call_for_none()
    ensures { IsQuiet words }
{}

/// A first layout that is installed where nothing has happened yet is at rest.
pub fn a_first_layout_is_at_rest()
    ensures { (first : Layout) (buckets : List (List ℕ)) (block : ℕ) → IsFirst first →
        IsResting layouts first (acted (record start { buckets = buckets; block = block }) (installs first)).state.world }
{}

/// A cluster that stands with a map on a layout stands with it on the last of the layouts after changes, one after the other:
/// each stages roles and redundancy, and then has the acts of a change; where each may follow the one before, all fits, and no
/// digests clash of what a change hashes for walks.
pub fn changes_keep_the_map()
    ensures { (c : Cluster) (P : Plain) (l : Layout) → Standing c P l → (changes : List Change) →
        MayFollow l c.run changes → Standing (after_changes c changes) P (last_of l changes) }
{}

/// A cluster that stands with a map on a layout answers jobs as the map does, one after the other, with any number of layout
/// changes between them, and then stands with what the map has become on the last layout; where blocks have a byte at
/// least, no two names of buckets have one digest, neither have two blocks, and neither have two strings that one change
/// hashes for walks. So it is from a first layout on, where the map is empty at first.
pub fn stores_answer_through_changes()
    ensures held { (c : Cluster) (P : Plain) (l : Layout) (events : List Event) → Standing c P l →
        NoClash P.buckets → 1 ≤ P.block → EventsFit c P l events → AnswersThrough c P l events }
    ensures started { (first : Layout) (buckets : List (List ℕ)) (block : ℕ) (events : List Event) →
        IsFirst first → NoClash buckets → 1 ≤ block →
        (let c : Cluster = record { run = (acted (record start { buckets = buckets; block = block }) (installs first)).state; ticked = 0; members = layouts.reading.members first } in
        let P : Plain = record { buckets = buckets; block = block; clock = 0; ticked = 0; asked = 0; entries = [] } in
        EventsFit c P first events → AnswersThrough c P first events) }
{}

/// Where a change's acts are lawful, its layout is the best for the roles and the redundancy that were staged, of the next
/// version, and has the greatest partition size; and the change may be made, where all members take part.
pub fn lawful_changes_may_be_made()
    ensures computed { (c : Cluster) (P : Plain) (l : Layout) (change : Change) → Standing c P l →
        layouts.reading.version l < 100 → AllByRecursion IsStaging change.stages →
        TakesAll l change → AreLawfulActs c.run (acts_of change) →
        IsComputedFor c.run change (suc (layouts.reading.version l)) × HasGreatest change.new }
    ensures may { (c : Cluster) (P : Plain) (l : Layout) (change : Change) → Standing c P l →
        layouts.reading.version l < 100 → AllByRecursion IsStaging change.stages →
        TakesAll l change → AreLawfulActs c.run (acts_of change) →
        MayChange layouts l change.new change.part change.first }
{}

/// Connections to a cluster with layout changes to come are served as from the map: each change is made when so many requests
/// have reached the cluster, between two of them. The digests of what changes hash for walks after these jobs don't clash.
pub fn connections_are_served_through_changes()
    ensures served { (buckets : Buckets) (g : Grammar) (p s : Serving Changing) (P : Plain)
        (came : List (List ℕ)) (gone : List Connection) → StandsWith p.store P →
        AreApart (IsServedBlock buckets g p P came gone) →
        NoWalkClash (IsServedHash buckets g p came gone) →
        AreServed changing buckets g (fits_asking changing_fits) p came gone s → AreServedFrom P buckets g p came gone s }
    ensures ended { (buckets : Buckets) (g : Grammar) (p s : Serving Changing) (P : Plain)
        (came : List (List ℕ)) (gone : List Connection) (bytes : List ℕ) (last : Connection)
        (fault : ServeFault) →
        StandsWith p.store P → AreApart (IsServedBlock buckets g p P (came ++ bytes ∷ []) (gone ++ last ∷ [])) → NoWalkClash (IsServedHash buckets g p (came ++ bytes ∷ []) (gone ++ last ∷ [])) →
        AreServed changing buckets g (fits_asking changing_fits) p came gone s →
        EndsSo changing buckets g (fits_asking changing_fits) (λ asks. ⊤) (stated changing buckets g s bytes) last fault → EndsFrom P buckets g p came gone bytes last fault }
{}

/// The first request in some bytes is served so too, and wherever it may be cut off.
pub fn a_request_is_served_through_changes()
    ensures whole { (buckets : Buckets) (g : Grammar) (last : Bool) (p : Serving Changing)
        (P : Plain) (request : List ℕ) → StandsWith p.store P →
        AreApart (IsTurnBlock buckets g last p P request) →
        NoWalkClash (IsTurnHash buckets g last p request) →
        AllByRecursion (fits_asking changing_fits) (turn changing buckets g last p request).asks → IsTurnFrom P buckets g last p request }
    ensures stops { (buckets : Buckets) (g : Grammar) (last : Bool) (p : Serving Changing)
        (P : Plain) (request : List ℕ) → StandsWith p.store P →
        AreApart (IsTurnBlock buckets g last p P request) →
        NoWalkClash (IsTurnHash buckets g last p request) →
        AreStopsFrom P buckets g last p request }
{}

/// A first layout that is installed where nothing has happened yet stands with the empty map, whatever changes are to come, if
/// each may be made of the layout before it.
pub fn a_first_layout_stands_with_the_empty_map()
    ensures { (first : Layout) (buckets : List (List ℕ)) (block : ℕ) (to_come : List (ℕ × Change)) →
        IsFirst first → NoClash buckets → 1 ≤ block → MayCome first to_come →
        StandsWith (record { cluster = record { run = (acted (record start { buckets = buckets; block = block }) (installs first)).state; ticked = 0; members = layouts.reading.members first }; to_come = to_come })
        (record { buckets = buckets; block = block; clock = 0; ticked = 0; asked = 0; entries = [] }) }
{}

/// What a cluster with changes to come does is a run of acts, those of the jobs and of the changes between them; so what is
/// proved of every run of lawful acts holds of it.
pub fn changing_stores_go_through_runs()
    ensures leads { (c : Changing) (jobs : List (ℕ × Job)) →
        (after_jobs changing c jobs).cluster.run ≡ after_acts c.cluster.run (acts_through c jobs) }
    ensures runs { (c : Changing) (jobs : List (ℕ × Job)) → JobsFit changing changing_fits c jobs →
        AreLawfulActs c.cluster.run (acts_through c jobs) ×
        ActsFit c.cluster.run (acts_through c jobs) }
{}

/// Changes that were computed one after the other, up to version 100, may be made, and their layouts have the greatest partition
/// size.
pub fn computed_changes_may_come()
    ensures may { (l : Layout) (to_come : List (ℕ × Change)) → IsLayout layouts 256 l →
        layouts.reading.version l + length to_come ≤ 100 → AreComputed l to_come →
        MayCome l to_come }
    ensures greatest { (l : Layout) (to_come : List (ℕ × Change)) → AreComputed l to_come →
        AreGreatest (map (λ (change : ℕ × Change). change.1.new) to_come) }
{}

/// Staging alone, as where no layout can be computed, leaves a cluster standing as it stood.
pub fn staging_keeps_the_map()
    ensures { (c : Cluster) (P : Plain) (l : Layout) (stages : List Act) → Standing c P l →
        AllByRecursion IsStaging stages →
        Standing (record c { run = after_acts c.run stages }) P l }
{}

/// Where the members of both layouts take part, in order of numbers, and a member of the older one applies the newer one, all
/// take part that have to.
pub fn members_of_both_are_all()
    ensures { (l : Layout) (change : Change) → change.part ≡ members_of_both layouts l change.new →
        IsMember layouts l change.first → TakesAll l change }
{}
