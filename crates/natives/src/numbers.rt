//! What a machine is done with.

ghost use Rattle.std.specs.Prelude.{◌≡◌, [], ◌∷◌};
ghost use Rattle.regmodel.specs.declared.accesses.Pending.TheVariants.{Done};

use regmodel::{Numbers, Pending};

/// Done with no numbers.
pub fn done() -> Pending
    ensures { result ≡ Done (record { items = [] }) }
{
    Pending::Done(Numbers::new())
}

/// Done with one number.
pub fn done_with(number: u32) -> Pending
    ensures { result ≡ Done (record { items = number ∷ [] }) }
{
    let mut numbers = Numbers::new();
    numbers.push(number);
    Pending::Done(numbers)
}
