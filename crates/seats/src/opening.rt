//! How all seats at a table are made.

ghost use Rattle.std.specs.Prelude.{◌≡◌, ◌<◌, [], IfOk, ℕ};
ghost use Rattle.std.specs.Arc.{arc_value};
ghost use Rattle.seats.specs.Parts.{LetsPartsMove, beginner, less};
ghost use Rattle.seats.specs.Places.{IsAt};
ghost use Rattle.seats.specs.Seats.{AreAllOfOne, AreOpened, fresh_seat};

use crate::known::{PartSplit, SeatRule};
use crate::seats::{Seat, SeatTable, TableSeat};
use std::alloc::{AllocError, Global};
use std::sync::Arc;

/// So many seats at a table, which gave and saw nothing. The dealer is the first seat of the table,
/// with as many parts.
pub fn open<S: Drop, G, L, P: SeatRule<S, G, L>>(
    alloc: Global,
    table: SeatTable<S, G, L, P>,
    dealer: TableSeat<S, G, L>,
    seats: u32,
) -> Result<Vec<Seat<S, G, L, P>>, AllocError>
    requires at { IsAt P.words P.slots table.shared.table_id dealer.table_id }
    requires moves { (key : ℕ) → LetsPartsMove (P.holds key) }
    requires all { dealer.me.0 ≡ beginner seats }
    ensures opened { IfOk result (λ opened. AreOpened seats opened.items) }
    ensures all { IfOk result (λ opened. AreAllOfOne opened.items) }
{
    let table = Arc::new(alloc, table)?;
    let mut dealer = dealer;
    let mut opened = Vec::new(alloc);
    for _ in 0..seats {
        opened.push(deal(&table, &mut dealer)?)?;
    }
    Ok(opened)
}

/// A seat with one part of the dealer's.
fn deal<S: Drop, G, L, P: SeatRule<S, G, L>>(
    table: &Arc<SeatTable<S, G, L, P>, Global>,
    dealer: &mut TableSeat<S, G, L>,
) -> Result<Seat<S, G, L, P>, AllocError>
    requires at { IsAt P.words P.slots (arc_value table.now).shared.table_id dealer.old.table_id }
    requires moves { (key : ℕ) → LetsPartsMove (P.holds key) }
    requires some { 0 < dealer.old.me.0.parts }
    requires none { dealer.old.me.0.gave ≡ [] }
    ensures same { dealer.new.table_id ≡ dealer.old.table_id }
    ensures less { dealer.new.me.0 ≡ less dealer.old.me.0 }
    ensures seat { IfOk result
        (λ seat. seat ≡ fresh_seat (dealer.old.table_id, dealer.old.me.0.whole)) }
{
    let seat = table.shared.split_seat::<PartSplit>(dealer);
    let table = Arc::try_clone(table)?;
    Ok(Seat::new(table, seat))
}
