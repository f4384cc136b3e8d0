//! Values that are ordered and can be copied.
ghost use Rattle.std.specs.Prelude.{◌≡◌, IfOk};
ghost use Rattle.crdt_core.specs.Outcomes.{OnlyWant};
ghost use Rattle.crdt_core.specs.Orders.{Identifies};
ghost use Rattle.crdt_core.specs.IdentityLaws.{nat_identical, bool_identical, pair_identical};

use crate::memory::Memory;

/// A value whose order tells any two apart, as a key or a part of a row has it.
pub trait Value: Ord + Drop {
    /// An equal value of its own.
    fn copy(&self) -> Result<Self, Memory>
        ensures same { IfOk result (λ x. x ≡ self.now) }
        ensures want { OnlyWant result };

    ghost identical: { Identifies Self.cmp };
}

impl Value for u8 {
    ghost identical = { nat_identical };

    /// Takes no memory.
    fn copy(&self) -> Result<u8, Memory>
        ensures { result ≡ Ok self.now }
    {
        Ok(*self)
    }
}

impl Value for u16 {
    ghost identical = { nat_identical };

    /// Takes no memory.
    fn copy(&self) -> Result<u16, Memory>
        ensures { result ≡ Ok self.now }
    {
        Ok(*self)
    }
}

impl Value for u32 {
    ghost identical = { nat_identical };

    /// Takes no memory.
    fn copy(&self) -> Result<u32, Memory>
        ensures { result ≡ Ok self.now }
    {
        Ok(*self)
    }
}

impl Value for u64 {
    ghost identical = { nat_identical };

    /// Takes no memory.
    fn copy(&self) -> Result<u64, Memory>
        ensures { result ≡ Ok self.now }
    {
        Ok(*self)
    }
}

impl Value for bool {
    ghost identical = { bool_identical };

    /// Takes no memory.
    fn copy(&self) -> Result<bool, Memory>
        ensures { result ≡ Ok self.now }
    {
        Ok(*self)
    }
}

impl<A: Value, B: Value> Value for (A, B) {
    ghost identical = { pair_identical A.identical B.identical };

    fn copy(&self) -> Result<(A, B), Memory> {
        Ok((self.0.copy()?, self.1.copy()?))
    }
}
