//! What crosses the cut, one by one.
use crate::places::Place;
use crate::plan::{Plan, Side};
use chart_page::{Piece, add_all};
use crdt_core::{Bytes, Memory};

/// What crosses the cut so far.
#[derive(Drop)]
pub(crate) struct Tally {
    pub(crate) total: u64,
    pub(crate) items: Bytes,
}

impl Tally {
    /// Adds what at most crosses at one place, where that is something.
    fn count(&mut self, count: u64, place: &[Piece<'_>]) -> Result<(), Memory> {
        if count == 0 {
            return Ok(());
        }
        self.total = self.total.saturating_add(count);
        add_all(
            &mut self.items,
            &[
                Piece::Text("<li><b>"),
                Piece::Amount(count),
                Piece::Text("</b> "),
            ],
        )?;
        add_all(&mut self.items, place)?;
        add_all(&mut self.items, &[Piece::Text("</li>\n")])
    }

    /// What crosses on the room of nodes that are named.
    pub(crate) fn count_rooms(
        &mut self,
        places: &[Place<'_>],
        plan: &Plan<'_>,
    ) -> Result<(), Memory> {
        for place in places {
            if plan.has_node(place.node) {
                self.count(
                    place.capacity.checked_div(plan.cut_size).unwrap_or(0),
                    &[
                        Piece::Text("at most have room on node "),
                        Piece::Number(place.node),
                    ],
                )?;
            }
        }
        Ok(())
    }

    /// Adds what at most crosses of the partitions of a side at one place.
    fn count_of(
        &mut self,
        count: u64,
        text: &'static str,
        place: Piece<'_>,
        side: &Side<'_>,
    ) -> Result<(), Memory> {
        self.count(
            count,
            &[
                Piece::Text(text),
                place,
                Piece::Text(", of the partitions "),
                Piece::Number(side.first),
                Piece::Text(" to "),
                Piece::Number(side.last),
            ],
        )
    }

    /// What crosses into a zone that isn't named for partitions of a side, and on the way to each node that isn't named,
    /// in a zone that is.
    fn count_place(
        &mut self,
        place: &Place<'_>,
        is_first: bool,
        plan: &Plan<'_>,
        side: &Side<'_>,
    ) -> Result<(), Memory> {
        if side.has_zone(place.zone) {
            if plan.has_node(place.node) {
                return Ok(());
            }
            let node = Piece::Number(place.node);
            return self.count_of(side.count(), "at most go to node ", node, side);
        }
        if !is_first {
            return Ok(());
        }
        let up = if side.has("up") { 1u64 } else { 0 };
        let down = if side.has("down") {
            3u64.saturating_sub(plan.redundancy)
        } else {
            0
        };
        let count = side.count().saturating_mul(up.saturating_add(down));
        self.count_of(
            count,
            "at most go into the zone ",
            Piece::Word(place.zone),
            side,
        )
    }

    /// What crosses for partitions of a side, but for rooms.
    pub(crate) fn count_side(
        &mut self,
        places: &[Place<'_>],
        plan: &Plan<'_>,
        side: &Side<'_>,
    ) -> Result<(), Memory> {
        let mut zone = "";
        for place in places {
            if !place.is_gateway {
                self.count_place(place, place.zone != zone, plan, side)?;
                zone = place.zone;
            }
        }
        if !side.has("up") {
            self.count(
                side.count().saturating_mul(plan.redundancy),
                &[Piece::Text("go up, each into a zone of its own")],
            )?;
        }
        if !side.has("down") {
            self.count(
                side.count()
                    .saturating_mul(3u64.saturating_sub(plan.redundancy)),
                &[Piece::Text("go down, into any zones")],
            )?;
        }
        Ok(())
    }

    /// What crosses for partitions of which nothing is named.
    pub(crate) fn count_others(&mut self, plan: &Plan<'_>) -> Result<(), Memory> {
        let mut named = 0u64;
        for side in plan.sides.iter() {
            named = named.saturating_add(side.count());
        }
        self.count(
            256u64.saturating_sub(named).saturating_mul(3),
            &[Piece::Text("are those of partitions of which nothing is named")],
        )
    }
}
