//! What gets give and what uploads need while they are on their way. No body does anything: each is called for its
//! contract.
#![tactic(auto)]

ghost use Rattle.std.specs.Prelude.{◌≡◌, ◌≤◌, ◌-◌, ◌++◌, ℕ, None, Some, Option, List, length, min};
ghost use Rattle.crdt_rows.specs.declared.version.Version.{Version};
ghost use Rattle.crdt_rows.specs.declared.body.Meta.{Meta};
ghost use Rattle.layout_roles.specs.declared.cut.Cut.{Cut};
ghost use Rattle.cluster_machine.specs.declared.step.Refusal.{Refusal};
ghost use Rattle.flow_model.specs.declared.order.Order.TheVariants.{Get};
ghost use Rattle.store_model.specs.Run.{State, start};
ghost use Rattle.store_model.specs.Acts.{Act, AreLawfulActs, after_acts, end_of};
ghost use Rattle.store_model.specs.Gets.{found_by};
ghost use Rattle.serve_model.specs.declared.upload.Upload.{Upload};
ghost use Rattle.serve_model.specs.Stores.{Given, IsFirstOf};
ghost use Rattle.serve_model.specs.Clusters.{Cluster, cluster, given_by, round};
ghost use Rattle.serve_model.specs.Uploads.{IsComing, asked_for as upload_asked, number_of as upload_number};
ghost use Rattle.get_laws.specs.OnTheWay.{KnowsRequests, IsLater, next_request, opening, asked_for, IsTaken, number_of, finished, IsOnTheWay, given_in_all};

/// In each state that lawful acts lead to, what phases gave and which ends wait to be taken is of requests that were asked
/// for, and there are as many of these as the world has.
pub fn states_know_their_requests()
    ensures begins { KnowsRequests start }
    ensures keeps { (s : State) (acts : List Act) → AreLawfulActs s acts → KnowsRequests s →
        KnowsRequests (after_acts s acts) }
{}

/// What was given is the first of itself, and of what it is the first of in several parts.
pub fn first_parts_are_ordered()
    ensures same { (all : Option Given) → IsFirstOf all all }
    ensures through { (first more all : Option Given) → IsFirstOf first more → IsFirstOf more all →
        IsFirstOf first all }
{}

/// What a get has given is the first of what it has given later, whatever happens, until its end is taken; and what it has
/// found it has found then too.
pub fn a_get_goes_on_with_what_it_gave()
    ensures gives { (s t u : State) (n : ℕ) (bucket key : List ℕ) → KnowsRequests s →
        (let q = next_request s in IsLater q (opening s n bucket key) t → IsLater q t u → IsFirstOf (given_by t q) (given_by u q)) }
    ensures found { (s t u : State) (n : ℕ) (bucket key : List ℕ) (found : Version × Meta) →
        KnowsRequests s →
        (let q = next_request s in IsLater q (opening s n bucket key) t → IsLater q t u → found_by t q ≡ Some found → found_by u q ≡ Some found) }
{}

/// What a get of a cluster gives in all is what it has given when all is delivered and two rounds are over. So what it has
/// given on the way there is the first of what it gives in all, and so is what it may give in its middle. One that is
/// refused gives nothing.
pub fn a_get_of_a_cluster_gives_all_of_it()
    ensures all { (c : Cluster) (time : ℕ) (bucket key : List ℕ) → KnowsRequests c.run →
        IsTaken c time bucket key →
        given_in_all c time bucket key ≡ given_by (finished c time bucket key) (number_of c time bucket key) }
    ensures first { (c : Cluster) (time : ℕ) (bucket key : List ℕ) (t : State) →
        KnowsRequests c.run → IsTaken c time bucket key →
        IsOnTheWay c time bucket key t → IsFirstOf (given_by t (number_of c time bucket key)) (given_in_all c time bucket key) }
    ensures middle { (c : Cluster) (time : ℕ) (bucket key : List ℕ) (g : Given) →
        KnowsRequests c.run →
        cluster.gives c time (Get bucket key) g → IsFirstOf (Some g) (given_in_all c time bucket key) }
    ensures refused { (c : Cluster) (time : ℕ) (bucket key : List ℕ) (reason : Refusal Cut) →
        (asked_for c time bucket key).refused ≡ Some reason → given_in_all c time bucket key ≡ None }
{}

/// An upload on its way that needs bytes needs as many as a block has, or as are still to come; no more came than were
/// announced. It has no end until it is kept or given up, whatever is worked off and delivered.
pub fn an_upload_needs_what_is_still_to_come()
    ensures needs { (c : Cluster) (time : ℕ) (u : Upload) (came : List ℕ) (size : ℕ) (s : State) →
        KnowsRequests c.run → IsComing c time u came (Some size) s →
        size ≡ min c.run.block (u.length - length came) }
    ensures within { (c : Cluster) (time : ℕ) (u : Upload) (came : List ℕ) (need : Option ℕ)
        (s : State) → KnowsRequests c.run → IsComing c time u came need s → length came ≤ u.length }
    ensures endless { (c : Cluster) (time : ℕ) (u : Upload) (came : List ℕ) (need : Option ℕ)
        (s : State) → KnowsRequests c.run → IsComing c time u came need s →
        (upload_asked c time u).refused ≡ None →
        end_of (after_acts s (round c.members ++ round c.members)).ends (upload_number c time u) ≡ None }
{}
