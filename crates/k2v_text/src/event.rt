//! The events of a schedule over items, and what each answers.
use cluster_machine::Words;
use crdt_core::List;
use k2v_model::{Item, ItemLine, ItemRefusal};
use store_model::Event;

/// A line of a schedule over items. Nodes are 1 to 16.
#[derive(Drop)]
pub enum ItemEvent {
    /// A line that schedules of objects have too.
    Common(Event),
    /// Begins to write `size` bytes at a node, byte i, from 0, being `fill` + i modulo 251, in the place of what the read
    /// with the number `token` showed, or of nothing with 0.
    Put {
        node: u8,
        item: Item,
        size: u32,
        fill: u8,
        token: u64,
    },
    /// Begins to write at a node that there is no value, in the place of the same.
    Delete {
        node: u8,
        item: Item,
        token: u64,
    },
    /// Begins to read an item at a node.
    Get {
        node: u8,
        item: Item,
    },
}

/// An event and the line of the schedule that spells it, counted from 1.
#[derive(Drop)]
pub struct NumberedItemEvent {
    pub line: u64,
    pub event: ItemEvent,
}

/// What an event answers: why it was refused, or its words, and what happened.
#[derive(Drop)]
pub struct ItemTold {
    pub refused: Option<ItemRefusal>,
    pub words: Words,
    pub lines: List<ItemLine>,
}
