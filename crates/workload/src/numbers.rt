//! The numbers that are drawn.
ghost use Rattle.std.specs.Prelude.{◌≡◌, ◌<◌};
ghost use Rattle.workload.specs.Numbers.{next, mixed, after, draw};

/// SplitMix64, with its state.
#[derive(Drop)]
pub(crate) struct Numbers {
    state: u64,
}

impl Numbers {
    /// The generator whose first state is the seed.
    pub(crate) fn new(seed: u64) -> Numbers
        ensures { result.state ≡ seed }
    {
        Numbers { state: seed }
    }

    /// The next number.
    #[tactic(auto, unfolding(crate::specs::Numbers::next, crate::specs::Numbers::mixed))]
    fn number(&mut self) -> u64
        ensures number { result ≡ mixed (next self.old.state) }
        ensures state { self.new.state ≡ next self.old.state }
    {
        self.state = self.state.wrapping_add(0x9e37_79b9_7f4a_7c15);
        let mut z = self.state;
        z = (z ^ (z >> 30)).wrapping_mul(0xbf58_476d_1ce4_e5b9);
        z = (z ^ (z >> 27)).wrapping_mul(0x94d0_49bb_1331_11eb);
        z ^ (z >> 31)
    }

    /// The next number modulo `k`.
    pub(crate) fn draw(&mut self, k: u64) -> u64
        requires some { 0 < k }
        ensures drawn { result ≡ draw self.old.state 1 k }
        ensures below { result < k }
        ensures state { self.new.state ≡ after self.old.state 1 }
    {
        self.number() % k
    }
}
