//! What one write of an item leaves.
ghost use Rattle.std.specs.Prelude.{◌≡◌, refl};
ghost use Rattle.std.specs.Cmp.{partial_equiv_from_equiv, partial_order_from_total, eq_by_cmp_equiv};
ghost use Rattle.std.specs.Ordering.{eq_by_cmp, as_partial_cmp};
ghost use Rattle.k2v_rows.specs.Value.{value_cmp};
ghost use Rattle.k2v_rows.specs.ValueLaws.{value_total, value_identical};

use crdt_core::{Bytes, Memory, Value};
use shared_value::Shared;
use std::cmp::Ordering;

/// What one write of an item leaves. `Deleted` is the least, and two values are ordered byte by byte.
#[derive(Debug, Drop)]
pub enum K2vValue {
    /// The write deleted the item.
    Deleted,
    /// The write gave the item these bytes, which all rows share that have them.
    Value(Shared<Bytes>),
}

impl K2vValue {
    fn order(&self, other: &K2vValue) -> Ordering
        ensures { result ≡ value_cmp self.now other.now }
    {
        match self {
            K2vValue::Deleted => match other {
                K2vValue::Deleted => Ordering::Equal,
                K2vValue::Value(_) => Ordering::Less,
            },
            K2vValue::Value(ours) => match other {
                K2vValue::Deleted => Ordering::Greater,
                K2vValue::Value(theirs) => ours.get().cmp(theirs.get()),
            },
        }
    }
}

impl PartialEq for K2vValue {
    ghost eq = { eq_by_cmp value_cmp };

    ghost laws = { partial_equiv_from_equiv (eq_by_cmp_equiv value_total) };

    fn eq(&self, other: &K2vValue) -> bool {
        self.order(other).is_eq()
    }
}

impl Eq for K2vValue {
    ghost laws = { eq_by_cmp_equiv value_total };
}

impl PartialOrd for K2vValue {
    ghost partial_cmp = { as_partial_cmp value_cmp };

    ghost laws = { partial_order_from_total value_total };

    fn partial_cmp(&self, other: &K2vValue) -> Option<Ordering> {
        Some(self.order(other))
    }
}

impl Ord for K2vValue {
    ghost cmp = { value_cmp };

    ghost total = { value_total };

    ghost matches_partial_cmp = { λ a b. refl };

    ghost matches_eq = { λ a b. refl };

    fn cmp(&self, other: &K2vValue) -> Ordering {
        self.order(other)
    }
}

impl Value for K2vValue {
    ghost identical = { value_identical };

    fn copy(&self) -> Result<K2vValue, Memory> {
        match self {
            K2vValue::Deleted => Ok(K2vValue::Deleted),
            K2vValue::Value(bytes) => Ok(K2vValue::Value(bytes.share()?)),
        }
    }
}
