//! What serving needs of a store.
ghost use Rattle.std.specs.Prelude.{◌≡◌, ◌<◌, ◌≤◌, ◌++◌, ℕ, List, [], length, Option, Some, None, IfOk, OnOk};
ghost use Rattle.crdt_core.specs.Outcomes.{WantOr};
ghost use Rattle.flow_model.specs.declared.order.Order.{Order as Asked};
ghost use Rattle.flow_model.specs.declared.order.Order.TheVariants.{Get};
ghost use Rattle.store_model.specs.Acts.{HasKey};
ghost use Rattle.serve_model.specs.Stores.{Job, carry as carries, keep as keeps, leave as leaves, stream_of, Store, Given, given, IsFirstOf};
ghost use Rattle.serve_model.specs.declared.upload.Upload.{Upload as Announced};
ghost use Rattle.serve_model.specs.Clusters.{IsWhole};
ghost use Rattle.serve_model.specs.Serving.{HasState, CarriedOut};
ghost use Rattle.serve_loop.specs.Gets.{MayGive, GoesOn, Gives, IsOnItsWay};
ghost use Rattle.serve_loop.specs.Uploads.{Takes, IsTaken, EachTaken, EachLeft, IsOnItsWay as IsComing};

use block_bytes::Block;
use crdt_core::{Bytes, Memory};
use crdt_rows::{Meta, Version};
use flow_model::{FlowEnd, Order};
use serve_model::Upload;

/// What a get gives next.
#[derive(Drop)]
pub enum Got {
    /// It found this version of its object; its bytes follow.
    Found(Version, Meta),
    /// The next of its bytes.
    Piece(Block),
    /// It ended so, or not at all. An object that it ends with has those of its bytes that were not given before.
    End(Option<FlowEnd>),
}

/// A store that carries out orders, one after the other. A get may be taken piece by piece: it begins, and is asked for
/// the next of what it gives until its end. An upload is given block by block: it begins, is fed as many bytes as it says
/// that it needs, and is kept or left.
pub trait Storage {
    /// The states that it goes through.
    ghost State: { Type 0 };

    /// What comes of a job.
    ghost model: { Store State };

    /// It stands for this state.
    ghost stands: { Self → State → Type 0 };

    /// The job may be carried out at this time, and all fits.
    ghost fits: { State → ℕ → Job → Type 0 };

    /// With the job, at this time, some number would pass its type's greatest value.
    ghost lacks: { State → ℕ → Job → Type 0 };

    /// From this state on a get is on its way, since this time, and has given so much.
    ghost gives: { Self → State → ℕ → Asked → Option Given → Type 0 };

    /// More than how often a get on its way goes on.
    ghost left: { Self → ℕ };

    /// From this state on an upload is on its way, since this time: these of its bytes were taken, and it needs so many
    /// next; 0 to be told whether it is kept, and none where it waits for no client any more.
    ghost takes: { Self → State → ℕ → Announced → List ℕ → Option ℕ → Type 0 };

    /// Carries out an order at a time in milliseconds since 1970, and says how it ended. None where it didn't.
    /// After an error the store is to be given up.
    fn carry(&mut self, time: u64, order: Order) -> Result<Option<FlowEnd>, Memory>
        requires state { HasState (stands self.old) }
        requires keyed { HasKey order }
        requires whole { IsWhole order }
        ensures carries { IfOk result (λ end. (s : State) → stands self.old s →
            CarriedOut model fits lacks (stands self.new) s time (carries order) end) }
        ensures causes { WantOr result ((s : State) → stands self.old s →
            lacks s time (carries order)) };

    /// Begins a get at a time in milliseconds since 1970. After an error the store is to be given up.
    fn begin(&mut self, time: u64, bucket: Bytes, key: Bytes) -> Result<(), Memory>
        requires state { HasState (stands self.old) }
        ensures begins { OnOk result ((s : State) → stands self.old s →
            gives self.new s time (Get bucket key) None) }
        ensures causes { WantOr result ((s : State) → stands self.old s →
            lacks s time (carries (Get bucket key))) };

    /// What the get that is on its way gives next. After an error the store is to be given up.
    fn next(&mut self) -> Result<Got, Memory>
        requires on_its_way { IsOnItsWay (gives self.old) }
        ensures goes { IfOk result
            (λ got. (s : State) (time : ℕ) (order : Asked) (so_far : Option Given) →
            gives self.old s time order so_far →
            Gives (gives self.new s time order) (CarriedOut model fits lacks (stands self.new) s time (carries order)) (model.carries s time (carries order)) so_far got) }
        ensures fewer { IfOk result (λ got. GoesOn got → left self.new < left self.old) }
        ensures first { (s : State) (time : ℕ) (order : Asked) (so_far : Option Given) →
            gives self.old s time order so_far →
            IsFirstOf so_far (given (model.carries s time (carries order))) }
        ensures so_far { (s : State) (time : ℕ) (order : Asked) (so_far : Option Given) →
            gives self.old s time order so_far → MayGive model s time order so_far }
        ensures causes { WantOr result ((s : State) (time : ℕ) (order : Asked)
            (so_far : Option Given) → gives self.old s time order so_far →
            lacks s time (carries order)) };

    /// Begins an upload at a time in milliseconds since 1970, and says how many bytes it needs first. After an error the store
    /// is to be given up.
    fn receive(&mut self, time: u64, upload: Upload) -> Result<Option<u64>, Memory>
        requires state { HasState (stands self.old) }
        requires keyed { HasKey (stream_of upload) }
        ensures takes { IfOk result (λ need. (s : State) → stands self.old s →
            Takes (takes self.new s time) upload [] need) }
        ensures causes { WantOr result ((s : State) → stands self.old s →
            lacks s time (leaves upload [])) };

    /// Gives the upload that is on its way as many bytes as it needs, and says how many it needs next. After an error the
    /// store is to be given up.
    fn feed(&mut self, bytes: Bytes) -> Result<Option<u64>, Memory>
        requires needed { IsTaken (takes self.old) (Some (length bytes)) }
        requires some { 1 ≤ length bytes }
        ensures takes { IfOk result (λ need. EachTaken (takes self.old) (Some (length bytes))
            (λ s time u came. Takes (takes self.new s time) u (came ++ bytes) need)) }
        ensures causes { WantOr result (EachTaken (takes self.old) (Some (length bytes))
            (λ s time u came. lacks s time (leaves u (came ++ bytes)))) };

    /// Keeps the upload that is on its way, all of whose bytes were taken, and says how it ended. None where it didn't.
    /// After an error the store is to be given up.
    fn keep(&mut self) -> Result<Option<FlowEnd>, Memory>
        requires whole { IsTaken (takes self.old) (Some 0) }
        ensures kept { IfOk result (λ end. EachTaken (takes self.old) (Some 0)
            (λ s time u came. CarriedOut model fits lacks (stands self.new) s time
            (keeps u came) end)) }
        ensures causes { WantOr result (EachTaken (takes self.old) (Some 0)
            (λ s time u came. lacks s time (keeps u came))) };

    /// Gives the upload that is on its way up, and says how it ended. None where it didn't, as where it waited for no
    /// client any more. After an error the store is to be given up.
    fn leave(&mut self) -> Result<Option<FlowEnd>, Memory>
        requires on_its_way { IsComing (takes self.old) }
        ensures given_up { IfOk result
            (λ end. EachLeft (takes self.old)
            (λ s time job. CarriedOut model fits lacks (stands self.new) s time job end)) }
        ensures silent { IfOk result (λ end. EachTaken (takes self.old) None
            (λ s time u came. end ≡ None)) }
        ensures causes { WantOr result ((need : Option ℕ) →
            EachTaken (takes self.old) need (λ s time u came. lacks s time (leaves u came))) };
}
