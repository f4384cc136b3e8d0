//! One run, computed.
ghost use Rattle.std.specs.Prelude.{◌≡◌, [], ◌∷◌};
ghost use Rattle.layout_trackers.specs.declared.which.Which.TheVariants.{Ack};
ghost use Rattle.view_model.specs.View.{oldest, newest};
ghost use Rattle.control_model.specs.World.{view_of};
ghost use Rattle.control_model.specs.Steps.{round_of};
ghost use Rattle.control_model.specs.Facts.{entry_of, read_of};
ghost use Rattle.control_model.specs.Reached.{IsReached};
ghost use Rattle.version_laws.specs.Example.{plan_reading, after_apply, applied_twice, held_back, before_reading, after_reading, after_cleaning};

/// A version is applied, once, and a node that is new in it knows it. While a request is in flight its
/// coordinator's ack waits, and so does the first round. Then two rounds complete, the version is read, and the
/// version before it is dropped.
pub fn a_version_is_dropped()
    ensures reached { IsReached plan_reading 2 after_cleaning }
    ensures known { newest plan_reading (view_of after_apply 4) ≡ 2 }
    ensures once { newest plan_reading (view_of applied_twice 2) ≡ 1 }
    ensures ack_waits { entry_of Ack (view_of held_back 2) 2 ≡ 1 }
    ensures round_waits { held_back.began ≡ [] }
    ensures read_before { read_of plan_reading before_reading 2 ≡ 1 }
    ensures completed { after_reading.completed ≡ round_of 3 2 ∷ round_of 1 2 ∷ [] }
    ensures read_after { read_of plan_reading after_reading 2 ≡ 2 }
    ensures stored { oldest plan_reading (view_of after_reading 2) ≡ 1 }
    ensures dropped { oldest plan_reading (view_of after_cleaning 2) ≡ 2 }
{}
