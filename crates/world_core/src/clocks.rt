//! The time, and by how much each node's clock is ahead of it.
ghost use Rattle.std.specs.Prelude.{◌≡◌, ◌⊎◌, ◌<◌, ◌+◌, ◌^◌, ◌==◌, cond, ℕ, OnOk, OnErr, IfErr};
ghost use Rattle.crdt_core.specs.declared.memory.Memory.TheVariants.{Full};
ghost use Rattle.world_core.specs.Parts.{AreClocks, NoneLate};

use crdt_core::Memory;

/// The time and the skews of the nodes, in milliseconds. Every clock is a u64.
#[derive(Drop)]
pub struct Clocks {
    pub time: u64,
    pub skews: [u64; 256],
}

impl Clocks {
    /// Time 0, and no node is ahead.
    pub fn new() -> Clocks
        ensures { AreClocks result 0 (λ n. 0) }
    {
        Clocks {
            time: 0,
            skews: [0; 256],
        }
    }

    /// The node's clock.
    pub fn now(&self, node: u8) -> u64
        ensures { (time : ℕ) (skew_of : ℕ → ℕ) → AreClocks self.now time skew_of →
            result ≡ time + skew_of node }
    {
        let skew = self.skews[usize::from(node)];
        self.time.checked_add(skew).unwrap_or(u64::MAX)
    }

    /// Adds to the time.
    pub fn tick(&mut self, ms: u64) -> Result<(), Memory>
        ensures ticked { OnOk result ((time : ℕ) (skew_of : ℕ → ℕ) →
            AreClocks self.old time skew_of → AreClocks self.new (time + ms) skew_of) }
        ensures full { IfErr result (λ e. (e ≡ Full) ×
            ((time : ℕ) (skew_of : ℕ → ℕ) → AreClocks self.old time skew_of →
            NoneLate (time + ms) skew_of → ⊥)) }
    {
        let Some(time) = self.time.checked_add(ms) else {
            return Err(Memory::Full);
        };
        for skew in &self.skews {
            if time.checked_add(*skew).is_none() {
                return Err(Memory::Full);
            }
        }
        self.time = time;
        Ok(())
    }

    /// Sets by how much a node's clock is ahead of the time.
    pub fn skew(&mut self, node: u8, ms: u64) -> Result<(), Memory>
        ensures skewed { OnOk result ((time : ℕ) (skew_of : ℕ → ℕ) →
            AreClocks self.old time skew_of →
            AreClocks self.new time (λ n. cond (n == node) ms (skew_of n))) }
        ensures full { IfErr result (λ e. (e ≡ Full) ×
            ((time : ℕ) (skew_of : ℕ → ℕ) → AreClocks self.old time skew_of →
            NoneLate time (λ n. cond (n == node) ms (skew_of n)) → ⊥)) }
    {
        if self.time.checked_add(ms).is_none() {
            return Err(Memory::Full);
        }
        self.skews[usize::from(node)] = ms;
        Ok(())
    }
}
