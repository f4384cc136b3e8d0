//! How far a version has come.
ghost use Rattle.std.specs.Prelude.{◌≡◌, refl};
ghost use Rattle.std.specs.Cmp.{partial_equiv_from_equiv, partial_order_from_total, eq_by_cmp_equiv};
ghost use Rattle.std.specs.Ordering.{eq_by_cmp, as_partial_cmp};
ghost use Rattle.crdt_rows.specs.State.{stage, is_complete, is_aborted, is_sized, state_cmp};
ghost use Rattle.crdt_rows.specs.StateLaws.{state_total, state_identical};

use crate::body::Body;
use crdt_core::{Memory, Value};
use std::cmp::Ordering;

/// How far a version has come. A greater state takes the place of a smaller one.
#[derive(Debug, Drop)]
pub enum State {
    /// Its blocks are being stored.
    Uploading,
    /// It was given up.
    Aborted,
    /// It can be read.
    Complete(Body),
}

impl State {
    pub fn is_complete(&self) -> bool
        ensures { result ≡ is_complete self.now }
    {
        matches!(self, State::Complete(_))
    }

    pub fn is_aborted(&self) -> bool
        ensures { result ≡ is_aborted self.now }
    {
        matches!(self, State::Aborted)
    }

    /// Inline bytes are as many as their size says; any other state passes.
    pub fn is_sized(&self) -> bool
        ensures { result ≡ is_sized self.now }
    {
        match self {
            State::Complete(Body::Inline(meta, bytes)) => meta.size == bytes.len() as u64,
            _ => true,
        }
    }

    fn stage(&self) -> u8
        ensures { result ≡ stage self.now }
    {
        match self {
            State::Uploading => 0,
            State::Aborted => 1,
            State::Complete(_) => 2,
        }
    }

    fn order(&self, other: &State) -> Ordering
        ensures { result ≡ state_cmp self.now other.now }
    {
        match self {
            State::Complete(body) => match other {
                State::Complete(their_body) => body.cmp(their_body),
                _ => self.stage().cmp(&other.stage()),
            },
            _ => self.stage().cmp(&other.stage()),
        }
    }
}

impl PartialEq for State {
    ghost eq = { eq_by_cmp state_cmp };

    ghost laws = { partial_equiv_from_equiv (eq_by_cmp_equiv state_total) };

    fn eq(&self, other: &State) -> bool {
        self.order(other).is_eq()
    }
}

impl Eq for State {
    ghost laws = { eq_by_cmp_equiv state_total };
}

impl PartialOrd for State {
    ghost partial_cmp = { as_partial_cmp state_cmp };

    ghost laws = { partial_order_from_total state_total };

    fn partial_cmp(&self, other: &State) -> Option<Ordering> {
        Some(self.order(other))
    }
}

impl Ord for State {
    ghost cmp = { state_cmp };

    ghost total = { state_total };

    ghost matches_partial_cmp = { λ a b. refl };

    ghost matches_eq = { λ a b. refl };

    fn cmp(&self, other: &State) -> Ordering {
        self.order(other)
    }
}

impl Value for State {
    ghost identical = { state_identical };

    fn copy(&self) -> Result<State, Memory> {
        match self {
            State::Uploading => Ok(State::Uploading),
            State::Aborted => Ok(State::Aborted),
            State::Complete(body) => Ok(State::Complete(body.copy()?)),
        }
    }
}
