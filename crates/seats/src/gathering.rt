//! The seats at a table at their end: one of them has all parts.

ghost use Rattle.std.specs.Prelude.{◌≡◌, ◌<◌, [], ℕ, IfSome};
ghost use Rattle.std.specs.Arc.{arc_value};
ghost use Rattle.seats.specs.Parts.{LetsPartsMove, joined};
ghost use Rattle.seats.specs.Places.{HasAll, IsAt};
ghost use Rattle.seats.specs.Seats.{AreAllOfOne};

use crate::known::{PartSplit, SeatRule};
use crate::seats::{Seat, SeatTable, TableSeat};
use std::alloc::Global;
use std::sync::Arc;

/// One seat with all parts, and the table; none where there are no seats. The seats are all those
/// at one table.
pub fn gather<S: Drop, G, L, P: SeatRule<S, G, L>>(
    seats: Vec<Seat<S, G, L, P>>,
) -> Option<(Arc<SeatTable<S, G, L, P>, Global>, TableSeat<S, G, L>)>
    requires all { AreAllOfOne seats.items }
    requires moves { (key : ℕ) → LetsPartsMove (P.holds key) }
    ensures none { result ≡ None → seats.items ≡ [] }
    ensures at { IfSome result (λ r.
        IsAt P.words P.slots (arc_value r.0).shared.table_id r.1.table_id) }
    ensures all { IfSome result (λ r. HasAll seats.items r.1.me.0) }
{
    let mut others = seats.into_iter();
    let (table, mut seat) = others.next()?.into_parts();
    for other in others {
        let (_, part) = other.into_parts();
        join(&table, &mut seat, part);
    }
    Some((table, seat))
}

/// Takes in all that another seat has.
fn join<S, G, L, P: SeatRule<S, G, L>>(
    table: &SeatTable<S, G, L, P>,
    seat: &mut TableSeat<S, G, L>,
    other: TableSeat<S, G, L>,
)
    requires at { IsAt P.words P.slots table.now.shared.table_id seat.old.table_id }
    requires there { other.table_id ≡ seat.old.table_id }
    requires moves { (key : ℕ) → LetsPartsMove (P.holds key) }
    requires some { 0 < seat.old.me.0.parts }
    requires free { other.me.1 ≡ [] }
    ensures same { seat.new.table_id ≡ seat.old.table_id }
    ensures known { seat.new.me.0 ≡ joined seat.old.me.0 other.me.0 }
{
    table.shared.join_seat::<PartSplit>(seat, other);
}
