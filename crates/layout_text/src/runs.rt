//! Runs of equal values.
ghost use Rattle.std.specs.Prelude.{◌≡◌, ◌<◌, ◌≤◌, ◌∷◌, Some, length, drop, slice_get};
ghost use Rattle.layout_roles.specs.Runs.{runs};

/// How many values the first run of equal values has.
pub fn run_length<T: PartialEq>(values: &[T]) -> usize
    requires { 0 < length values.now }
    ensures some { 0 < result }
    ensures within { result ≤ length values.now }
    ensures first { (value : T) → slice_get values.now 0 ≡ Some value →
        runs T.eq values.now ≡ record { value = value; count = result } ∷ runs T.eq
        (drop result values.now) }
{
    for i in 1..values.len() {
        if values[i - 1] != values[i] {
            return i;
        }
    }
    values.len()
}
