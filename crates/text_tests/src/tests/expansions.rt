//! Use lines just within their limits, and what they expand to.

use std::test::Fail;
use uses::{ExpandFault, Use, expand};

/// A use line, a number of registers, and whether the line is within its limits there.
const LIMITS: [(Use, u32, bool); 3] = [
    (Use::Split(62, 1), 64, true),
    (Use::Split(63, 1), 64, false),
    (Use::Split(63, 1), 65, false),
];

#[test]
fn keeps_the_limits(rt: HostRuntime) -> Result<(), Fail> {
    for (kind, registers, fits) in LIMITS {
        let expected = if fits {
            None
        } else {
            Some(ExpandFault { code: 1 })
        };
        let fault = expand(rt.alloc(), &kind, registers).err();
        assert!(rt; fault == expected);
        assert!(rt; kind.fits(registers) == fits);
    }
    Ok(())
}

/// A use line, a number of registers, and how many statements the expansion has, those of
/// inner blocks left out.
const SIZES: [(Use, u32, usize); 5] = [
    (Use::Split(0, 1), 2, 6),
    (Use::Grid(0, 2, 1), 6, 3),
    (Use::Tree(0, 2, 1, 1), 12, 9),
    (Use::Name(0, 2, 1), 2, 2),
    (Use::Names(0, 2, 1), 2, 2),
];

#[test]
fn expands(rt: HostRuntime) -> Result<(), Fail> {
    for (kind, registers, size) in SIZES {
        let prog = expand(rt.alloc(), &kind, registers)?;
        assert!(rt; prog.registers() == registers);
        assert!(rt; prog.body().len() == size);
    }
    Ok(())
}
