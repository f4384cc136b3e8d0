//! What has a number, and where it stands.
ghost use Rattle.std.specs.Prelude.{◌≡◌, ◌<◌, ◌==◌, ℕ, false, length, map, IfSome, IfNone, slice_get};
ghost use Rattle.std.specs.List.{AllByRecursion};
ghost use Rattle.numbered_list.specs.Numbers.{Rises};

/// What has a number.
pub trait Numbered {
    ghost number: { Self → ℕ };

    fn number(&self) -> u64
        ensures { result ≡ number self.now };
}

/// Where the item with this number stands, among items whose numbers ascend.
pub fn place_of<T: Numbered>(items: &[T], number: u64) -> Option<usize>
    requires { Rises 0 (map T.number items.now) }
    ensures in_range { IfSome result (λ i. i < length items.now) }
    ensures found { IfSome result (λ i. IfSome (slice_get items.now i) (λ x. T.number x ≡ number)) }
    ensures absent { IfNone result (AllByRecursion
        (λ x. (T.number x == number) ≡ false) items.now) }
{
    items
        .binary_search_by(|item| item.number().cmp(&number))
        .ok()
}
