//! Prices in whole moves.
ghost use Rattle.std.specs.Prelude.{◌≡◌, ℕ, ◌+◌, ◌<◌, ◌≤◌, ◌/◌, ◌%◌, nat_lt, length, map, IsTrue, IfOk, true};
ghost use Rattle.std.specs.List.{All, list_all};
ghost use Rattle.crdt_core.specs.Outcomes.{OnlyWant};

use crdt_core::{List, Memory};
use std::alloc::Global;

// Whether no price comes to a whole number of moves with this shift.
fn is_clear(prices: &[u32], shift: u32) -> bool
    requires { shift < 66 }
    ensures { result ≡ list_all (λ price. nat_lt 0 ((price + shift) % 66)) prices.now }
{
    prices
        .iter()
        .all(|price| 0 < (u64::from(*price) + u64::from(shift)) % 66)
}

/// A shift with which no price comes to a whole number of moves: there are more shifts than prices.
pub fn shift_of(prices: &[u32]) -> u32
    requires { length prices.now < 66 }
    ensures small { result < 66 }
    ensures clear { list_all (λ price. nat_lt 0 ((price + result) % 66)) prices.now ≡ true }
{
    for shift in 0..66 {
        if is_clear(prices, shift) {
            return shift;
        }
    }
    unreachable!()
}

/// The prices in whole moves, rounded down with a shift.
pub fn whole_prices(alloc: Global, prices: &[u32], shift: u32) -> Result<List<u32>, Memory>
    requires { shift < 66 }
    ensures rounded { IfOk result
        (λ rounded. rounded ≡ map (λ price. (price + shift) / 66) prices.now) }
    ensures want { OnlyWant result }
{
    let mut rounded = List::new(alloc);
    for price in prices {
        let whole = (u64::from(*price) + u64::from(shift)) / 66;
        rounded.push(whole as u32)?;
    }
    Ok(rounded)
}
