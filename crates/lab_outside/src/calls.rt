// Which calls of an object in memory fail.
ghost use Rattle.std.specs.Prelude.{◌≡◌, ◌≤◌, false, IsTrue};
ghost use Rattle.lab_outside.specs.Rose.{Rose};
ghost use Rattle.lab_outside.specs.Calls.{next_call, is_planned};

/// The calls that were made, and the numbers of those that fail, from 1.
#[derive(Drop)]
pub struct Calls {
    fails: Vec<u64>,
    count: u64,
    faults: u64,
}

impl Calls {
    pub fn new(fails: Vec<u64>) -> Self
        ensures plan { result.fails.items ≡ fails.items }
        ensures count { result.count ≡ 0 }
        ensures faults { result.faults ≡ 0 }
    {
        Calls {
            fails,
            count: 0,
            faults: 0,
        }
    }

    /// Counts a fault.
    pub fn fault(&mut self)
        ensures plan { self.new.fails ≡ self.old.fails }
        ensures count { self.new.count ≡ self.old.count }
        ensures counted { self.old.faults ≤ self.new.faults }
        ensures fault { Rose self.old.faults self.new.faults }
    {
        self.faults = self.faults.saturating_add(1);
    }

    /// Counts the next call, and says whether it fails. Where it does, that is a fault.
    pub fn next_fails(&mut self) -> bool
        ensures planned { result ≡ is_planned self.old.fails.items (next_call self.old.count) }
        ensures plan { self.new.fails ≡ self.old.fails }
        ensures count { self.new.count ≡ next_call self.old.count }
        ensures counted { self.old.faults ≤ self.new.faults }
        ensures steady { result ≡ false → self.new.faults ≡ self.old.faults }
        ensures fault { IsTrue result → Rose self.old.faults self.new.faults }
    {
        self.count = self.count.saturating_add(1);
        let fails = self.fails.contains(&self.count);
        if fails {
            self.fault();
        }
        fails
    }
}
