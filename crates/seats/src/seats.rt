//! A seat at a table, one for each worker.

ghost use Rattle.std.specs.Prelude.{◌≡◌, []};
ghost use Rattle.std.specs.Arc.{arc_value};
ghost use Rattle.seats.specs.Places.{IsAt, account_of};

use crate::known::{Known, SeatRule};
use atomic_table::Table;
use std::alloc::Global;
use std::marker::Model;
use std::sync::Arc;

/// The table at which workers have seats.
pub type SeatTable<S, G, L, P> = Table<S, Known<G, L>, u64, P, Global>;

/// What a seat has at its table. It has no bytes.
pub type TableSeat<S, G, L> = atomic_table::Seat<S, Known<G, L>>;

/// A worker's right to take steps at a table. It may go to another thread. A clause sees its
/// account.
pub struct Seat<S, G, L, P: SeatRule<S, G, L>> {
    /// The table, which all its seats share.
    pub table: Arc<SeatTable<S, G, L, P>, Global>,
    /// What it has there.
    pub seat: TableSeat<S, G, L>,
    ghost at: { IsAt P.words P.slots (arc_value table).shared.table_id seat.table_id },
    ghost part: { seat.me.0.parts ≡ 1 },
    ghost free: { seat.me.1 ≡ [] },
}

impl<S, G, L, P: SeatRule<S, G, L>> Model for Seat<S, G, L, P> {
    ghost use Rattle.seats.specs.Seats.{Account};
    ghost use Rattle.seats.specs.Places.{account_of};

    ghost Value = { Account G L };

    ghost view = { λ s. account_of s.seat };
}

impl<S: Drop, G, L, P: SeatRule<S, G, L>> Drop for Seat<S, G, L, P> {
    fn drop(self) {
        let Seat {
            table: _table,
            seat: _seat,
        } = self;
    }
}

impl<S, G, L, P: SeatRule<S, G, L>> Seat<S, G, L, P> {
    /// The seat at this table.
    pub(crate) fn new(
        table: Arc<SeatTable<S, G, L, P>, Global>,
        seat: TableSeat<S, G, L>,
    ) -> Seat<S, G, L, P>
        requires at { IsAt P.words P.slots (arc_value table).shared.table_id seat.table_id }
        requires part { seat.me.0.parts ≡ 1 }
        requires free { seat.me.1 ≡ [] }
        ensures { result ≡ account_of seat }
    {
        Seat { table, seat }
    }

    /// The table and the seat at it.
    pub(crate) fn into_parts(self) -> (Arc<SeatTable<S, G, L, P>, Global>, TableSeat<S, G, L>)
        ensures account { self ≡ account_of result.1 }
        ensures at { IsAt P.words P.slots (arc_value result.0).shared.table_id result.1.table_id }
        ensures part { result.1.me.0.parts ≡ 1 }
        ensures free { result.1.me.1 ≡ [] }
    {
        let Seat { table, seat } = self;
        (table, seat)
    }
}
