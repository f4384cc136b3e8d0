//! The confirmations of the rows of one store phase.
ghost use Rattle.std.specs.Prelude.{◌≡◌, ℕ, List};
ghost use Rattle.quorum_model.specs.Quorum.{StoreSlot, is_kept, with_confirmation};
ghost use Rattle.write_call.specs.Stands.{Stands, AreTallies};

use quorum_tally::Tally;

/// A store phase: a slot for each of its rows.
#[derive(Drop)]
pub struct WriteCall {
    slots: Vec<Tally>,
}

impl WriteCall {
    /// Takes no memory.
    pub fn new(slots: Vec<Tally>) -> WriteCall
        ensures { (stored : List StoreSlot) → AreTallies slots.items stored → Stands result stored }
    {
        WriteCall { slots }
    }

    /// A node confirms the slot at a place, counted from 0; whether each slot is now kept, counting the versions of
    /// at least `from`. An unknown slot changes nothing. Takes no memory.
    pub fn confirm(&mut self, slot: usize, node: u8, from: u32) -> bool
        ensures stands { (stored : List StoreSlot) →
            Stands self.old stored → Stands self.new (with_confirmation stored slot node) }
        ensures kept { (stored : List StoreSlot) →
            Stands self.old stored → result ≡ is_kept (with_confirmation stored slot node) from }
    {
        confirm_at(&mut self.slots, slot, node);
        all_reached(&self.slots, from)
    }
}

fn confirm_at(slots: &mut Vec<Tally>, place: usize, node: u8)
    ensures { (stored : List StoreSlot) →
        AreTallies slots.old.items stored → AreTallies slots.new.items (with_confirmation stored place node) }
{
    if place < slots.len() {
        slots[place].confirm(node);
    }
}

fn all_reached(slots: &[Tally], from: u32) -> bool
    ensures { (stored : List StoreSlot) → AreTallies slots.now stored →
        result ≡ is_kept stored from }
{
    for slot in slots {
        if !slot.reached(from) {
            return false;
        }
    }
    true
}
