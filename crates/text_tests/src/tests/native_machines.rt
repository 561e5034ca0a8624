//! Native machines beside interpreters of the same programs.

ghost use Rattle.std.specs.Prelude.{◌≡◌, ◌≤◌, ◌↔◌, All, IsTrue, length};
ghost use Rattle.regmodel.specs.declared.limits.TheConstants.{MOST_SCANNED, GREATEST_VALUE};

use machine::{Interp, Machine};
use natives::{Grid, MakeFault, NameSlots, Names, Split, Tree};
use rand::rngs::SmallRng;
use rand::{RngExt, SeedableRng};
use regmodel::limits::MOST_SCANNED;
use regmodel::{Numbers, Pending};
use std::alloc::Global;
use std::process::Abort;
use std::test::Fail;
use uses::{Use, expand};

const LIMIT: u32 = 1000000000;

/// How many lists of replies each pair of machines is given.
const LISTS: u32 = 1000;

/// Whether these are as many values as are read, each of which a register may hold.
fn are_values(reply: &[u32], count: u8) -> bool
    ensures { IsTrue result
        ↔ (length reply.now ≡ count) × (count ≤ MOST_SCANNED)
        × All (λ v. v ≤ GREATEST_VALUE) reply.now }
{
    let count = usize::from(count);
    count <= MOST_SCANNED && reply.len() == count && reply.iter().all(|value| *value <= LIMIT)
}

/// Gives a reply where it may come, and says whether it may.
fn give<M: Machine>(machine: &mut M, reply: &[u32]) -> bool {
    let Pending::Wants(access) = machine.pending() else {
        return false;
    };
    match access.footprint().reads {
        Some(reads) if are_values(reply, reads.count) => machine.feed(reply),
        None if reply == [0].as_slice() => machine.feed(reply),
        _ => return false,
    }
    true
}

/// Done with these numbers.
fn done(numbers: &[u32]) -> Pending {
    let mut all = Numbers::new();
    for number in numbers {
        if !all.is_full() {
            all.push(*number);
        }
    }
    Pending::Done(all)
}

#[test]
fn numbers_past_a_limit_are_refused(rt: HostRuntime) {
    let made = [
        Split::make(0, 0, 2).err(),
        Split::make(1, 1, 2).err(),
        Grid::make(0, 8, 1, 64).err(),
        Tree::make(0, 5, 1, 1, 64).err(),
        NameSlots::make(0, 2, 2, 2).err(),
        Names::make(0, 2, 2, 2).err(),
        Names::make(1, 2, 0, 2).err(),
    ];
    assert!(rt; made == [Some(MakeFault { code: 1 }); 7]);
}

/// A value that is read: often what the machine wrote last, 0 or a small number, and now
/// and then any number.
fn value(random: &mut SmallRng, written: u32, echoes: u32) -> u32 {
    if random.random_range(0u32..8) < echoes {
        return written;
    }
    match random.random_range(0u32..8) {
        0 | 1 | 2 => 0,
        3 => 1,
        4 | 5 => random.random_range(0u32..17),
        6 => LIMIT,
        _ => random.random_range(0u32..=LIMIT),
    }
}

/// Gives a native machine and its interpreter the same replies until they are over; they stand
/// alike at each step. Gives what was pending at the end.
fn beside<M: Machine>(
    rt: &impl Abort,
    native: &mut M,
    text: &mut Interp,
    random: &mut SmallRng,
) -> Pending {
    native.reset();
    text.reset();
    let echoes = random.random_range(0u32..8);
    let mut written = 0;
    for _ in 0..1000 {
        let pending = native.pending();
        assert!(rt; text.pending() == pending);
        let Pending::Wants(access) = pending else {
            return pending;
        };
        let mut values = [0; MOST_SCANNED];
        let footprint = access.footprint();
        let count = match footprint.reads {
            Some(reads) => {
                let count = usize::from(reads.count).min(MOST_SCANNED);
                for at in 0..count {
                    values[at] = value(random, written, echoes);
                }
                count
            }
            None => 1,
        };
        if let Some(writes) = footprint.writes {
            written = writes.value;
        }
        assert!(rt; give(native, &values[..count]));
        assert!(rt; give(text, &values[..count]));
    }
    native.pending()
}

/// Gives a native machine and the interpreter of its use line many lists of replies, some of
/// which end like this.
fn does_as_its_program<M: Machine>(
    rt: &(impl Abort + AllocGlobal),
    native: &mut M,
    kind: &Use,
    registers: u32,
    end: &Pending,
) -> Result<(), Fail> {
    let mut text = Interp::make(rt.alloc(), expand(rt.alloc(), kind, registers)?)?;
    let mut random = SmallRng::seed_from_u64(20250917);
    let mut ended = false;
    for _ in 0..LISTS {
        if &beside(rt, native, &mut text, &mut random) == end {
            ended = true;
        }
    }
    assert!(rt; ended, "{kind:?}");
    Ok(())
}

#[test]
fn splitters_do_as_their_programs(rt: HostRuntime) -> Result<(), Fail> {
    let stops = done(&[1]);
    for (base, id, registers) in [(0, 1, 2), (62, LIMIT, 64), (5, 9, 40)] {
        let mut native = Split::make(base, id, registers)?;
        does_as_its_program(&rt, &mut native, &Use::Split(base, id), registers, &stops)?;
    }
    Ok(())
}

#[test]
fn grids_do_as_their_programs(rt: HostRuntime) -> Result<(), Fail> {
    let stops = done(&[1]);
    for (base, side, id, registers) in [(0, 1, 1, 2), (8, 7, LIMIT, 64), (3, 4, 1, 30)] {
        let mut native = Grid::make(base, side, id, registers)?;
        does_as_its_program(
            &rt,
            &mut native,
            &Use::Grid(base, side, id),
            registers,
            &stops,
        )?;
    }
    Ok(())
}

#[test]
fn trees_do_as_their_programs(rt: HostRuntime) -> Result<(), Fail> {
    for (base, depth, id, value, registers, end) in [
        (0, 1, 1, 1, 4, done(&[LIMIT])),
        (4, 4, LIMIT, LIMIT, 64, Pending::Fault(4)),
        (2, 3, 1, 6, 40, done(&[])),
    ] {
        let mut native = Tree::make(base, depth, id, value, registers)?;
        let kind = Use::Tree(base, depth, id, value);
        does_as_its_program(&rt, &mut native, &kind, registers, &end)?;
    }
    Ok(())
}

/// A first register, a number of slots and a slot, over so many registers, and the numbers with
/// which some lists of replies end.
const CHOICES: [(u32, u32, u32, u32, &[u32]); 4] = [
    (0, 1, 0, 1, &[1]),
    (0, 2, 1, 2, &[3]),
    (56, 8, 7, 64, &[]),
    (0, 8, 0, 8, &[1]),
];

#[test]
fn choices_of_names_do_as_their_programs(rt: HostRuntime) -> Result<(), Fail> {
    for (base, slots, slot, registers, numbers) in CHOICES {
        let end = done(numbers);
        let mut native = NameSlots::make(base, slots, slot, registers)?;
        let kind = Use::Name(base, slots, slot);
        does_as_its_program(&rt, &mut native, &kind, registers, &end)?;
        let mut scanned = Names::make(base, slots, slot, registers)?;
        let kind = Use::Names(base, slots, slot);
        does_as_its_program(&rt, &mut scanned, &kind, registers, &end)?;
    }
    Ok(())
}
