// What the program reads from, writes to, serves and asks for the time.
ghost use Rattle.std.specs.Prelude.{◌≡◌, ◌↔◌, ℕ, ◌<◌, ◌≤◌, List, ◌++◌, Option, Some, length, take, true, IsSome, IfOk, OnOk, OnErr, IfSome, option_to_list};
ghost use Rattle.std.specs.Io.KnownBytes.{Consumes, IsAtEnd};
ghost use Rattle.lab_outside.specs.Rose.{Rose};
ghost use Rattle.lab_outside.specs.Bytes.{Wrote};
ghost use Rattle.lab_outside.specs.Times.{GivesTime};
ghost use Rattle.lab_outside.specs.Connection.{Connection, IsFresh, OnPresent, TakesNext, ReadsFrom, WritesTo};

/// A call on the outside failed, and its count of faults rose. After any other answer the count is as before.
#[derive(Debug, Clone, Copy, PartialEq, Eq)]
pub struct Failed;

/// Where bytes come from.
pub trait Source {
    /// The bytes that are left, where they are told.
    ghost left: { Self → Option (List ℕ) };

    /// The count of faults.
    ghost faults: { Self → ℕ };

    /// Reads bytes into the front of `into`, and says how many.
    fn read(&mut self, into: &mut [u8]) -> Result<usize, Failed>
        ensures count { IfOk result (λ n. n ≤ length into.old) }
        ensures bytes { IfOk result
            (λ n. Consumes (left self.old) (left self.new) (take n into.new)) }
        ensures end { IfOk result (λ n. n ≡ 0 → 0 < length into.old → IsAtEnd (left self.new)) }
        ensures kept { OnErr result (left self.new ≡ left self.old) }
        ensures counted { faults self.old ≤ faults self.new }
        ensures fault { OnErr result (Rose (faults self.old) (faults self.new)) }
        ensures steady { OnOk result (faults self.new ≡ faults self.old) };
}

/// Where bytes go to.
pub trait Sink {
    /// The bytes that were written, where they are told.
    ghost written: { Self → Option (List ℕ) };

    /// The count of faults.
    ghost faults: { Self → ℕ };

    /// Writes bytes from the front of `from`, and says how many.
    fn write(&mut self, from: &[u8]) -> Result<usize, Failed>
        ensures count { IfOk result (λ n. n ≤ length from.now) }
        ensures some { IfOk result (λ n. 0 < length from.now → 0 < n) }
        ensures bytes { IfOk result
            (λ n. Wrote (written self.old) (written self.new) (take n from.now)) }
        ensures kept { OnErr result (written self.new ≡ written self.old) }
        ensures counted { faults self.old ≤ faults self.new }
        ensures fault { OnErr result (Rose (faults self.old) (faults self.new)) }
        ensures steady { OnOk result (faults self.new ≡ faults self.old) };
}

/// Where connections come from, one after the other.
pub trait Link {
    /// For each connection that is still to come the bytes that it will give, where they are told.
    ghost coming: { Self → Option (List (List ℕ)) };

    /// The connection that is present.
    ghost present: { Self → Option Connection };

    /// The connections that came and are no longer present, in order.
    ghost past: { Self → List Connection };

    /// The count of faults of `open` and `next`.
    ghost faults: { Self → ℕ };

    /// The port at which it waits for connections, if it does.
    ghost open_at: { Self → Option ℕ };

    /// Waits for connections on a port of this machine.
    fn open(&mut self, port: u16) -> Result<(), Failed>
        ensures opens { OnOk result (open_at self.new ≡ Some port) }
        ensures still_open { OnErr result (open_at self.new ≡ open_at self.old) }
        ensures still_coming { coming self.new ≡ coming self.old }
        ensures still_present { present self.new ≡ present self.old }
        ensures still_past { past self.new ≡ past self.old }
        ensures counted { faults self.old ≤ faults self.new }
        ensures fault { OnErr result (Rose (faults self.old) (faults self.new)) }
        ensures steady { OnOk result (faults self.new ≡ faults self.old) };

    /// Takes the next connection, and says whether there was one.
    fn next(&mut self) -> Result<bool, Failed>
        ensures comes { IsSome (present self.new) ↔ (result ≡ Ok true) }
        ensures fresh { IfSome (present self.new) IsFresh }
        ensures takes { IfOk result
            (λ _. TakesNext (coming self.old) (coming self.new) (present self.new)) }
        ensures kept { OnErr result (coming self.new ≡ coming self.old) }
        ensures goes { past self.new ≡ past self.old ++ option_to_list (present self.old) }
        ensures still_open { open_at self.new ≡ open_at self.old }
        ensures counted { faults self.old ≤ faults self.new }
        ensures fault { OnErr result (Rose (faults self.old) (faults self.new)) }
        ensures steady { OnOk result (faults self.new ≡ faults self.old) };

    /// Reads from the connection into the front of `into`, and says how many bytes.
    fn read(&mut self, into: &mut [u8]) -> Result<usize, Failed>
        requires { IsSome (present self.old) }
        ensures reads { OnPresent (ReadsFrom result into.old into.new) (present self.old)
            (present self.new) }
        ensures still_coming { coming self.new ≡ coming self.old }
        ensures still_past { past self.new ≡ past self.old }
        ensures still_open { open_at self.new ≡ open_at self.old }
        ensures uncounted { faults self.new ≡ faults self.old };

    /// Writes bytes from the front of `from` to the connection, and says how many.
    fn write(&mut self, from: &[u8]) -> Result<usize, Failed>
        requires { IsSome (present self.old) }
        ensures writes { OnPresent (WritesTo result from.now) (present self.old)
            (present self.new) }
        ensures still_coming { coming self.new ≡ coming self.old }
        ensures still_past { past self.new ≡ past self.old }
        ensures still_open { open_at self.new ≡ open_at self.old }
        ensures uncounted { faults self.new ≡ faults self.old };

    /// Ends the connection.
    fn end(&mut self)
        requires { IsSome (present self.old) }
        ensures absent { present self.new ≡ None }
        ensures goes { past self.new ≡ past self.old ++ option_to_list (present self.old) }
        ensures still_coming { coming self.new ≡ coming self.old }
        ensures still_open { open_at self.new ≡ open_at self.old }
        ensures uncounted { faults self.new ≡ faults self.old };
}

/// What is asked for the time.
pub trait Clock {
    /// The times still to be given, of which the last repeats, where they are told.
    ghost times: { Self → Option (List ℕ) };

    /// The time, in milliseconds since 1970.
    fn now(&mut self) -> u64
        ensures { GivesTime (times self.old) result (times self.new) };
}
