//! The interpreter: a machine that runs a program's statements.

ghost use Rattle.std.specs.Prelude.{◌≡◌, ℕ, ◌+◌, ◌<◌, ◌≤◌, IfOk, length, true};
ghost use Rattle.regmodel.specs.Prelude.{program_of, IsReplyTo};
ghost use Rattle.regmodel.specs.Lawful.{IsAtStart};
ghost use Rattle.regmodel.specs.Kept.{values_in};
ghost use Rattle.machine.specs.Keeping.{IsKept, IsStart, RanPast, kept_at, state_at};
ghost use Rattle.machine.specs.OutlookTables.{IsTableOf};
ghost use Rattle.machine.specs.Rest.{Asks, pending_in};

use crate::outlook_table::OutlookTable;
use crate::states::{KeptState, State};
use crate::{Ahead, Machine, Told};
use regmodel::limits::MOST_LETTERS;
use regmodel::{OutOfMemory, Pending, Prog, Reply};
use std::alloc::Global;

/// A place for the start, and one past each reply of a schedule.
const PLACES: usize = MOST_LETTERS as usize + 1;

/// A program in progress. It keeps the states in which it stood since its start, one past each of
/// its first 64 replies. So after a reset it runs no statement again as long as it is fed the same
/// replies.
#[derive(Drop)]
pub struct Interp {
    prog: Prog,
    kept: Vec<KeptState>,
    /// The place of the present state.
    at: usize,
    /// How many places are known, from the start on. None is after an end, and the last one is not
    /// where more replies came than are kept: the present state stands past them then.
    known: usize,
    /// What each statement of the program may still do.
    table: OutlookTable,
    ghost room: { at < length kept.items },
    ghost fits: { known ≤ length kept.items },
    ghost asks: { (place : ℕ) → Asks (program_of prog) (state_at kept.items place) },
    ghost tells: { ∥ IsTableOf table (program_of prog).body ∥₁ },
    ghost follows: { IsKept (program_of prog) kept.items known },
}

impl Interp {
    ghost use Rattle.machine.specs.Interps.{WentPast, state_of};

    /// An interpreter of this program, at its start. An error comes where memory for the kept
    /// states or for its table is refused, and the program is dropped then. No later call takes
    /// memory.
    pub fn make(alloc: Global, prog: Prog) -> Result<Interp, OutOfMemory>
        ensures same { IfOk result
            (λ m. (⟦<Interp as Machine>⟧.means m).program ≡ program_of prog) }
        ensures starts { IfOk result
            (λ m. IsAtStart (program_of prog) (⟦<Interp as Machine>⟧.means m).rest) }
    {
        let blank = KeptState {
            reply: Reply::none(),
            state: State::over(),
        };
        let table = OutlookTable::make(alloc, prog.body())?;
        let kept = vec![in alloc; blank; PLACES]?;
        let mut interp = Interp {
            prog,
            kept,
            at: 0,
            known: 0,
            table,
        };
        interp.reset();
        Ok(interp)
    }

    /// Goes to the place of the start.
    fn go_to_start(&mut self)
        ensures same { self.new.prog ≡ self.old.prog }
        ensures known { self.new.at < self.new.known }
        ensures starts { IsStart (program_of self.new.prog) (state_of self.new) }
    {
        self.at = 0;
        if self.known == 0 {
            self.kept[0].state.start(&self.prog);
            self.known = 1;
        }
    }

    /// Whether the next place is known and this reply led there.
    fn is_known(&self, reply: &[u32]) -> bool
        ensures { result ≡ true
            → (self.now.at + 1 < self.now.known)
            × (values_in (kept_at self.now.kept.items (self.now.at + 1)).reply ≡ reply.now) }
    {
        let next = self.at + 1;
        next < self.known && self.kept[next].reply.is(reply)
    }

    /// Whether the present state is at its place, and there is a place behind that.
    fn keeps_next(&self) -> bool
        ensures { result ≡ true
            → (self.now.at < self.now.known)
            × (self.now.at + 1 < length self.now.kept.items) }
    {
        self.at < self.known && self.at + 1 < self.kept.len()
    }

    /// Runs on past the reply from the present state, to the state of the next place. What was
    /// known from there on is known no longer.
    fn run_on(&mut self, reply: &[u32])
        requires known { self.old.at < self.old.known }
        requires room { self.old.at + 1 < length self.old.kept.items }
        requires wanted { IsReplyTo (pending_in (state_of self.old)) reply.now }
        ensures { WentPast reply.now self.old self.new }
    {
        run_past(self.kept.as_mut_slice(), self.at, &self.prog, reply);
        self.at += 1;
        self.known = self.at + 1;
    }
}

/// Runs on past the reply from the state at a place, and keeps the reply and the state to which it
/// leads at the next place.
fn run_past(kept: &mut [KeptState], at: usize, prog: &Prog, reply: &[u32])
    requires room { at + 1 < length kept.old }
    requires asks { Asks (program_of prog.now) (state_at kept.old at) }
    requires wanted { IsReplyTo (pending_in (state_at kept.old at)) reply.now }
    ensures { RanPast (program_of prog.now) reply.now at kept.old kept.new }
{
    let (before, behind) = kept.split_at_mut(at + 1);
    let next = &mut behind[0];
    next.reply.set(reply);
    next.state.go_on(&before[at].state, prog, reply);
}

impl Machine for Interp {
    ghost use Rattle.regmodel.specs.Prelude.{program_of};
    ghost use Rattle.machine.specs.Interps.{state_of};
    ghost use Rattle.machine.specs.Rest.{rest_in};
    ghost use Rattle.machine.specs.StateNumbers.{resumed_by};

    ghost means = { λ m. record {
      program = program_of m.prog;
      rest = rest_in (program_of m.prog) (state_of m);
      resumed = resumed_by (program_of m.prog);
    } };

    fn reset(&mut self) {
        self.go_to_start();
    }

    fn recall(&mut self, replies: &[Reply]) -> usize {
        self.go_to_start();
        let mut count = 0;
        for reply in replies {
            if !self.is_known(reply.values()) {
                break;
            }
            self.at += 1;
            count += 1;
        }
        count
    }

    fn pending(&self) -> Pending {
        self.kept[self.at].state.pending()
    }

    fn feed(&mut self, reply: &[u32]) {
        if self.is_known(reply) {
            self.at += 1;
        } else if self.keeps_next() {
            self.run_on(reply);
        } else {
            self.known = self.known.min(self.at);
            let state = self.kept[self.at].state;
            self.kept[self.at].state.go_on(&state, &self.prog, reply);
        }
    }

    fn ahead(&self) -> Option<Ahead> {
        self.kept[self.at].state.ahead(&self.table)
    }

    fn end(&mut self) {
        self.at = 0;
        self.known = 0;
        self.kept[0].state = State::over();
    }

    fn tell(&self, numbers: &mut Told) -> bool {
        self.kept[self.at]
            .state
            .tell(&self.table, numbers)
            .is_some()
    }
}
