//! Machines: programs in progress, which go on by one reply after another.
#![tactic(auto)]

ghost use Rattle.std.specs.Prelude.{◌≡◌, ◌≤◌, IfSome, IsTrue, [], ◌∷◌, length, map, take};
ghost use Rattle.told.specs.Numbers.{numbers_in};
ghost use Rattle.regmodel.specs.Prelude.{act_of, IsReplyTo, Replies};
ghost use Rattle.regmodel.specs.declared.accesses.Pending.TheVariants.{Done};
ghost use Rattle.regmodel.specs.Kept.{values_in};
ghost use Rattle.regmodel.specs.Lawful.{IsAtStart};
ghost use Rattle.regmodel.specs.Reply as spec;
ghost use Rattle.machine.specs.Ahead.{IsAhead};
ghost use Rattle.machine.specs.Following.{Follows};
ghost use Rattle.machine.specs.Meaning.{IsSameMachine, Meaning};
ghost use Rattle.machine.specs.Telling.{Tells};

mod ahead;
mod culprits;
mod interp;
mod numbering;
mod outlook_table;
mod outlooks;
mod resume;
mod run;
mod sets;
mod sparse;
mod state_numbers;
mod states;
mod stops;
mod values;

pub use ahead::Ahead;
pub use culprits::Culprit;
pub use interp::Interp;
use regmodel::{Pending, Reply};
pub use sparse::put_sparse;
pub use stops::{Stopped, stops_at};
pub use told::Told;

/// A program in progress, which a clause knows by what it means. No call takes memory.
pub trait Machine: Drop + Send {
    /// What it means: its program, its rest, and what is resumed where it stands as numbers tell.
    ghost means: { Self → Meaning };

    /// Goes to the program's start.
    fn reset(&mut self)
        ensures same { IsSameMachine (means self.old) (means self.new) }
        ensures starts { IsAtStart (means self.new).program (means self.new).rest };

    /// Goes to the program's start, and on by the first of these replies, as many as it need not
    /// run again. It answers how many these are.
    fn recall(&mut self, replies: &[Reply]) -> usize
        ensures same { IsSameMachine (means self.old) (means self.new) }
        ensures count { result ≤ length replies.now }
        ensures leads { Follows (act_of (means self.new).program)
            (map values_in (take result replies.now)) (means self.new).rest }
    {
        let _ = replies;
        self.reset();
        0
    }

    /// What is pending now.
    fn pending(&self) -> Pending
        ensures { result ≡ (means self.now).rest [] };

    /// Goes on past one reply: the value of each register that was read, rising, each at most
    /// 1000000000; or one 0 where none was.
    fn feed(&mut self, reply: &[u32])
        requires { IsReplyTo ((means self.old).rest []) reply.now }
        ensures same { IsSameMachine (means self.old) (means self.new) }
        ensures goes_on { (s : Replies)
            → (means self.new).rest s ≡ (means self.old).rest (reply.now ∷ s) };

    /// What its program may still do from where it stands; None where it cannot tell.
    fn ahead(&self) -> Option<Ahead>
        ensures { IfSome result (IsAhead (means self.now).rest) }
    {
        None
    }

    /// Gives up what it holds; it is done with no numbers until it is reset.
    fn end(&mut self)
        ensures same { IsSameMachine (means self.old) (means self.new) }
        ensures ended { (s : Replies) → (means self.new).rest s ≡ Done (record { items = [] }) };

    /// Tells where it stands, in numbers behind those of the list. It answers false where it cannot
    /// tell, or the list has no room for that; what then stands behind the earlier numbers means
    /// nothing.
    fn tell(&self, numbers: &mut Told) -> bool
        ensures { IsTrue result
            → Tells (means self.now).resumed (means self.now).rest (numbers_in numbers.old)
            (numbers_in numbers.new) }
    {
        let _ = numbers;
        false
    }
}

/// The first value of a reply; 0 where it has none.
pub fn value_of(reply: &[u32]) -> u32
    ensures { result ≡ spec.value_of reply.now }
{
    reply.first().copied().unwrap_or(0)
}

// Each call of a boxed machine stands in a function of its own, by whose name a proof knows what it
// promises.

/// What is pending in a boxed machine.
pub fn pending_of_box(machine: &Box<dyn Machine + Send>) -> Pending
    ensures { result ≡ (means machine.now).rest [] }
{
    machine.pending()
}

/// Feeds a boxed machine.
pub fn feed_box(machine: &mut Box<dyn Machine + Send>, reply: &[u32])
    requires { IsReplyTo ((means machine.old).rest []) reply.now }
    ensures same { IsSameMachine (means machine.old) (means machine.new) }
    ensures goes_on { (s : Replies)
        → (means machine.new).rest s ≡ (means machine.old).rest (reply.now ∷ s) }
{
    machine.feed(reply);
}

/// Resets a boxed machine.
pub fn reset_box(machine: &mut Box<dyn Machine + Send>)
    ensures same { IsSameMachine (means machine.old) (means machine.new) }
    ensures starts { IsAtStart (means machine.new).program (means machine.new).rest }
{
    machine.reset();
}

/// Has a boxed machine recall replies.
pub fn recall_box(machine: &mut Box<dyn Machine + Send>, replies: &[Reply]) -> usize
    ensures same { IsSameMachine (means machine.old) (means machine.new) }
    ensures count { result ≤ length replies.now }
    ensures leads { Follows (act_of (means machine.new).program)
        (map values_in (take result replies.now)) (means machine.new).rest }
{
    machine.recall(replies)
}

/// Ends a boxed machine.
pub fn end_box(machine: &mut Box<dyn Machine + Send>)
    ensures same { IsSameMachine (means machine.old) (means machine.new) }
    ensures ended { (s : Replies) → (means machine.new).rest s ≡ Done (record { items = [] }) }
{
    machine.end();
}

/// Asks a boxed machine to tell where it stands.
pub fn tell_box(machine: &Box<dyn Machine + Send>, numbers: &mut Told) -> bool
    ensures { IsTrue result
        → Tells (means machine.now).resumed (means machine.now).rest (numbers_in numbers.old)
        (numbers_in numbers.new) }
{
    machine.tell(numbers)
}

/// What a boxed machine's program may still do from where it stands, where it can tell.
pub fn ahead_of_box(machine: &Box<dyn Machine + Send>) -> Option<Ahead>
    ensures { IfSome result (IsAhead (means machine.now).rest) }
{
    machine.ahead()
}
