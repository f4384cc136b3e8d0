//! What holds of a server with keys, over the map, over a cluster and over one whose layout changes: nothing is carried out and nothing is answered but what
//! a key signed that may ask it. No body does anything: each is called for its contract.
#![tactic(auto)]

ghost use Rattle.std.specs.Prelude.{◌≡◌, ◌≤◌, ℕ, true, false, Some, Ok};
ghost use Rattle.std.specs.List.{AllByRecursion};
ghost use Rattle.layout_text.specs.declared.keys.Access.{Access};
ghost use Rattle.http_model.specs.declared.head.Head.{Head};
ghost use Rattle.s3_model.specs.Words.{is_empty};
ghost use Rattle.s3_model.specs.declared.fault.Code.{Code};
ghost use Rattle.s3_model.specs.Faults.{status_of};
ghost use Rattle.serve_model.specs.declared.admitted.Admitted.{Admitted};
ghost use Rattle.serve_model.specs.declared.buckets.Buckets.{Buckets};
ghost use Rattle.serve_model.specs.Admitting.{admitted};
ghost use Rattle.serve_model.specs.Keys.{has_bucket, read_by};
ghost use Rattle.serve_model.specs.Judging.{shown_to};
ghost use Rattle.serve_model.specs.Clusters.{cluster};
ghost use Rattle.serve_model.specs.Plain.{plain};
ghost use Rattle.serve_model.specs.Talk.{Grammar};
ghost use Rattle.serve_changes.specs.Changing.{changing};
ghost use Rattle.signed_laws.specs.Allowed.{IsAllowed, OnlySignedIsCarriedOut, OnlyAllowedIsAnswered};

/// Where keys are configured, the store is asked only what a request asks whose head a key signed that may ask it, and
/// whose length and body nothing refuses, or to give an upload up that such a head asks; also where the connection is cut off.
pub fn only_signed_requests_are_carried_out()
    ensures of_map { (buckets : Buckets) (g : Grammar) → is_empty buckets.access.keys ≡ false →
        OnlySignedIsCarriedOut plain buckets g }
    ensures of_cluster { (buckets : Buckets) (g : Grammar) → is_empty buckets.access.keys ≡ false →
        OnlySignedIsCarriedOut cluster buckets g }
    ensures of_changing { (buckets : Buckets) (g : Grammar) → is_empty buckets.access.keys ≡ false →
        OnlySignedIsCarriedOut changing buckets g }
{}

/// Where keys are configured, what is admitted is allowed: a key signed it that may ask it (`admitted`). What is written for
/// a request is a refusal, whose status is 400 or more (`statuses`), or the reply to such a request whose body nothing
/// refuses, or what a get got of one without an answer; and a get in the middle of which serving may be given up is such a
/// request (`of_map`, `of_cluster`, `of_changing`); and the list of all buckets shows those that the key reads (`shown`).
pub fn what_is_admitted_is_allowed()
    ensures admitted { (access : Access) (now : ℕ) (head : Head) (a : Admitted) →
        is_empty access.keys ≡ false → admitted access now head ≡ Ok a →
        IsAllowed access now head a }
    ensures of_map { (buckets : Buckets) (g : Grammar) → is_empty buckets.access.keys ≡ false →
        OnlyAllowedIsAnswered plain buckets g }
    ensures of_cluster { (buckets : Buckets) (g : Grammar) → is_empty buckets.access.keys ≡ false →
        OnlyAllowedIsAnswered cluster buckets g }
    ensures of_changing { (buckets : Buckets) (g : Grammar) → is_empty buckets.access.keys ≡ false →
        OnlyAllowedIsAnswered changing buckets g }
    ensures statuses { (code : Code) → 400 ≤ status_of code }
    ensures shown { (buckets : Buckets) (place : ℕ) →
        AllByRecursion (λ name. has_bucket (read_by buckets.access place) name ≡ true)
        (shown_to buckets (Some place)) }
{}
