//! The table of the language: what follows the first word of a line, a kind and a property.

ghost use Rattle.std.specs.Prelude.{◌≡◌, ◌≤◌, length};
ghost use Rattle.reglines.specs.Sorts as spec;
ghost use Rattle.reglines.specs.declared.sorts.TheConstants.{MOST_ARGUMENTS};

use crate::vocabulary::{Keyword, Kind, Property};
use regmodel::limits::{GREATEST_VALUE, MOST_PROCESSES};

/// The most arguments that follow a word.
pub const MOST_ARGUMENTS: usize = 4;

/// What may stand at a place of a line.
#[derive(Clone, Copy)]
pub enum Sort {
    /// A number.
    Number,
    /// A number up to this one.
    NumberTo(u32),
    /// A variable or a cell.
    Target,
    /// A number, a variable or a cell.
    Operand,
    /// An operand, or two with an operator between them: all the words that are left.
    Expression,
}

/// What follows a word: at most 4 sorts, in their order.
#[derive(Clone, Copy)]
pub struct Sorts {
    /// The sorts.
    pub list: &'static [Sort],
    ghost few: { length list.now ≤ MOST_ARGUMENTS },
}

impl Sorts {
    /// These sorts.
    fn of(list: &'static [Sort]) -> Sorts
        requires { length list.now ≤ MOST_ARGUMENTS }
        ensures { result.list.now ≡ list.now }
    {
        Sorts { list }
    }
}

/// What follows a first word. After `use` comes a kind and after `check` a property, and then
/// what follows these.
pub fn sorts_after(key: Keyword) -> Sorts
    ensures { result.list.now ≡ spec.sorts_after key }
{
    match key {
        Keyword::Registers => Sorts::of(&[Sort::Number]),
        Keyword::Set => Sorts::of(&[Sort::Target, Sort::Expression]),
        Keyword::Read => Sorts::of(&[Sort::Target, Sort::Operand]),
        Keyword::Write => Sorts::of(&[Sort::Operand, Sort::Expression]),
        Keyword::Scan => Sorts::of(&[Sort::Number, Sort::Number, Sort::Number]),
        Keyword::If | Keyword::Repeat | Keyword::Emit => Sorts::of(&[Sort::Expression]),
        _ => Sorts::of(&[]),
    }
}

/// What follows a kind.
pub fn kind_sorts(kind: Kind) -> Sorts
    ensures { result.list.now ≡ spec.kind_sorts kind }
{
    match kind {
        Kind::Split => Sorts::of(&[Sort::Number, Sort::Number]),
        Kind::Grid | Kind::Name | Kind::Names => Sorts::of(&[
            Sort::Number,
            Sort::Number,
            Sort::Number,
        ]),
        Kind::Tree => Sorts::of(&[Sort::Number, Sort::Number, Sort::Number, Sort::Number]),
    }
}

/// What follows a property.
pub fn property_sorts(property: Property) -> Sorts
    ensures { result.list.now ≡ spec.property_sorts property }
{
    match property {
        Property::AtMost => Sorts::of(&[
            Sort::NumberTo(GREATEST_VALUE),
            Sort::NumberTo(MOST_PROCESSES as u32),
        ]),
        Property::Within => Sorts::of(&[
            Sort::NumberTo(GREATEST_VALUE),
            Sort::NumberTo(GREATEST_VALUE),
        ]),
        _ => Sorts::of(&[]),
    }
}
