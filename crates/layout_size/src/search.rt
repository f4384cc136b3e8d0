//! The search for the greatest partition size.
ghost use Rattle.std.specs.Prelude.{ℕ, ◌≡◌, ◌<◌, ◌≤◌, ◌↔◌, ◌*◌, ◌^◌, IsTrue, false};
ghost use Rattle.std.specs.List.{All};
ghost use Rattle.layout_roles.specs.Zones.{capacity_of};
ghost use Rattle.layout_roles.specs.Fits.{SomeFits, NoneFits};

use layout_flow::{Network, light_cuts};
use layout_roles::{Role, Roles, smaller_sizes};

// The nodes are 64 at most, so where they keep 768 copies one of them keeps 12.
const COPIES_AT_SOME_NODE: u64 = 12;

// The greatest capacity in bytes.
fn greatest_capacity(roles: &[Role]) -> u64
    ensures { All (λ role. capacity_of role ≤ result) roles.now }
{
    let mut greatest = 0;
    for role in roles {
        greatest = role.capacity().max(greatest);
    }
    greatest
}

// A size in bytes that no assignment exceeds.
fn size_bound(roles: &Roles, r: u8) -> u64
    requires low { 1 ≤ r }
    requires high { r ≤ 3 }
    ensures above { (size : ℕ) → result < size → NoneFits roles.now.list r size }
    ensures small { result * 12 < 2 ^ 64 }
{
    light_cuts();
    greatest_capacity(roles.list.as_slice()) / COPIES_AT_SOME_NODE
}

// Makes it the network for the size, and tells whether an assignment fits.
fn fits(network: &mut Network, size: u64) -> bool
    requires { 0 < size }
    ensures roles { network.new.roles ≡ network.old.roles }
    ensures redundancy { network.new.r ≡ network.old.r }
    ensures some { IsTrue result → SomeFits network.old.roles.list network.old.r size }
    ensures none { result ≡ false → (greater : ℕ) → size ≤ greater →
        NoneFits network.old.roles.list network.old.r greater }
{
    smaller_sizes();
    network.resize(size);
    network.has_flow()
}

/// The greatest size in bytes that an assignment fits, by bisection.
pub fn greatest_size(network: &mut Network) -> u64
    requires { SomeFits network.now.roles.list network.now.r 1 }
    ensures roles { network.new.roles ≡ network.old.roles }
    ensures redundancy { network.new.r ≡ network.old.r }
    ensures some { SomeFits network.old.roles.list network.old.r result }
    ensures above { (size : ℕ) → result < size →
        NoneFits network.old.roles.list network.old.r size }
    ensures low { 0 < result }
    ensures small { result * 12 < 2 ^ 64 }
{
    let mut low = 1;
    let mut high = size_bound(&network.roles, network.r);
    while low < high {
        let middle = high - (high - low) / 2;
        if fits(network, middle) {
            low = middle;
        } else {
            high = middle - 1;
        }
    }
    low
}
