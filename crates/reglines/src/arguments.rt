//! What a line, a use and a clause are made of; lines made from arguments, and taken apart again.

ghost use Rattle.std.specs.Prelude.{◌≡◌, ◌≤◌, ◌∷◌, [], length, map};
ghost use Rattle.reglines.specs.Arguments as spec;
ghost use Rattle.reglines.specs.declared.arguments.Argument.TheVariants.{Number};

use crate::sorts::MOST_ARGUMENTS;
use crate::vocabulary::{Keyword, Kind, Property};
use arrayvec::ArrayVec;
use regmodel::{Clause, Expr, Operand, Target};
use uses::Use;

/// What a line says that is not skipped.
#[derive(Clone, Copy)]
pub enum Line {
    /// There are so many registers.
    Registers(u32),
    /// A process begins.
    Process,
    /// A process ends.
    End,
    /// The expression's value is stored in the target.
    Set(Target, Expr),
    /// The register with the operand's number is read into the target.
    Read(Target, Operand),
    /// The expression's value is written into the register with the operand's number.
    Write(Operand, Expr),
    /// Registers are read at once: the first cell that is stored to, the first
    /// register, and how many.
    Scan(u32, u32, u32),
    /// What follows runs where the value is not 0.
    If(Expr),
    /// What follows runs where the value of the `if` is 0.
    Else,
    /// An `if` ends.
    Fi,
    /// What follows runs as often as the value says.
    Repeat(Expr),
    /// A `repeat` ends.
    Done,
    /// The value is appended to the result.
    Emit(Expr),
    /// The process is done with its numbers.
    Halt,
    /// The whole process is the expansion of a kind.
    Use(Use),
    /// A property of outcomes; none where the words are no clause.
    Check(Option<Clause>),
}

/// What stands at a place of a line.
#[derive(Clone, Copy)]
pub enum Argument {
    Number(u32),
    Target(Target),
    Operand(Operand),
    Expression(Expr),
}

/// The arguments of a line, a use or a clause.
pub type Arguments = ArrayVec<Argument, MOST_ARGUMENTS>;

impl Default for Argument {
    fn default() -> Argument {
        Argument::Number(0)
    }
}

/// The line that a first word and arguments make, no use and no check.
pub(crate) fn line_with(key: Keyword, arguments: &[Argument]) -> Option<Line>
    ensures { result ≡ spec.line_with key arguments.now }
{
    match arguments {
        [] => bare_line(key),
        [only] => line_of_one(key, *only),
        [first, second] => line_of_two(key, *first, *second),
        [first, second, third] => line_of_three(key, *first, *second, *third),
        _ => None,
    }
}

/// The line that a first word makes with no argument.
fn bare_line(key: Keyword) -> Option<Line>
    ensures { result ≡ spec.line_with key [] }
{
    match key {
        Keyword::Process => Some(Line::Process),
        Keyword::End => Some(Line::End),
        Keyword::Else => Some(Line::Else),
        Keyword::Fi => Some(Line::Fi),
        Keyword::Done => Some(Line::Done),
        Keyword::Halt => Some(Line::Halt),
        _ => None,
    }
}

/// The line that a first word makes with one argument.
fn line_of_one(key: Keyword, only: Argument) -> Option<Line>
    ensures { result ≡ spec.line_with key (only ∷ []) }
{
    match (key, only) {
        (Keyword::Registers, Argument::Number(n)) => Some(Line::Registers(n)),
        (Keyword::If, Argument::Expression(test)) => Some(Line::If(test)),
        (Keyword::Repeat, Argument::Expression(count)) => Some(Line::Repeat(count)),
        (Keyword::Emit, Argument::Expression(value)) => Some(Line::Emit(value)),
        _ => None,
    }
}

/// The line that a first word makes with two arguments.
fn line_of_two(key: Keyword, first: Argument, second: Argument) -> Option<Line>
    ensures { result ≡ spec.line_with key (first ∷ second ∷ []) }
{
    match (key, first, second) {
        (Keyword::Set, Argument::Target(to), Argument::Expression(value)) => Some(Line::Set(
            to, value,
        )),
        (Keyword::Read, Argument::Target(to), Argument::Operand(from)) => Some(Line::Read(
            to, from,
        )),
        (Keyword::Write, Argument::Operand(to), Argument::Expression(value)) => Some(Line::Write(
            to, value,
        )),
        _ => None,
    }
}

/// The line that a first word makes with three arguments.
fn line_of_three(key: Keyword, first: Argument, second: Argument, third: Argument) -> Option<Line>
    ensures { result ≡ spec.line_with key (first ∷ second ∷ third ∷ []) }
{
    match (key, first, second, third) {
        (Keyword::Scan, Argument::Number(cell), Argument::Number(first), Argument::Number(count)) =>
            Some(Line::Scan(cell, first, count)),
        _ => None,
    }
}

/// The use that a kind and arguments make.
pub(crate) fn use_with(kind: Kind, arguments: &[Argument]) -> Option<Use>
    ensures { result ≡ spec.use_with kind arguments.now }
{
    match arguments {
        [first, second] => use_of_two(kind, *first, *second),
        [first, second, third] => use_of_three(kind, *first, *second, *third),
        [first, second, third, fourth] => use_of_four(kind, *first, *second, *third, *fourth),
        _ => None,
    }
}

/// The use that a kind makes with two arguments.
fn use_of_two(kind: Kind, first: Argument, second: Argument) -> Option<Use>
    ensures { result ≡ spec.use_with kind (first ∷ second ∷ []) }
{
    match (kind, first, second) {
        (Kind::Split, Argument::Number(base), Argument::Number(id)) => Some(Use::Split(base, id)),
        _ => None,
    }
}

/// The use that a kind makes with three arguments.
fn use_of_three(kind: Kind, first: Argument, second: Argument, third: Argument) -> Option<Use>
    ensures { result ≡ spec.use_with kind (first ∷ second ∷ third ∷ []) }
{
    match (first, second, third) {
        (Argument::Number(base), Argument::Number(size), Argument::Number(own)) => match kind {
            Kind::Grid => Some(Use::Grid(base, size, own)),
            Kind::Name => Some(Use::Name(base, size, own)),
            Kind::Names => Some(Use::Names(base, size, own)),
            _ => None,
        },
        _ => None,
    }
}

/// The use that a kind makes with four arguments.
fn use_of_four(
    kind: Kind,
    first: Argument,
    second: Argument,
    third: Argument,
    fourth: Argument,
) -> Option<Use>
    ensures { result ≡ spec.use_with kind (first ∷ second ∷ third ∷ fourth ∷ []) }
{
    match (kind, first, second, third, fourth) {
        (
            Kind::Tree,
            Argument::Number(base),
            Argument::Number(depth),
            Argument::Number(id),
            Argument::Number(value),
        ) => Some(Use::Tree(base, depth, id, value)),
        _ => None,
    }
}

/// The clause that a property and arguments make.
pub(crate) fn clause_with(property: Property, arguments: &[Argument]) -> Option<Clause>
    ensures { result ≡ spec.clause_with property arguments.now }
{
    match (property, arguments) {
        (Property::Distinct, []) => Some(Clause::Distinct),
        (Property::AtMost, [Argument::Number(name), Argument::Number(count)]) => Some(
            Clause::AtMost(*name, *count),
        ),
        (Property::Within, [Argument::Number(low), Argument::Number(high)]) => Some(Clause::Within(
            *low, *high,
        )),
        (Property::Adaptive, []) => Some(Clause::Adaptive),
        (Property::Triangle, []) => Some(Clause::Triangle),
        (Property::SelfSeen, []) => Some(Clause::SelfSeen),
        (Property::Ended, []) => Some(Clause::Ended),
        (Property::NoFault, []) => Some(Clause::NoFault),
        _ => None,
    }
}

/// So many arguments.
fn list(arguments: &[Argument]) -> Arguments
    requires { length arguments.now ≤ MOST_ARGUMENTS }
    ensures { result.items ≡ arguments.now }
{
    ArrayVec::try_from(arguments).unwrap()
}

/// So many arguments that are numbers.
fn numbers(numbers: &[u32]) -> Arguments
    requires { length numbers.now ≤ MOST_ARGUMENTS }
    ensures { result.items ≡ map Number numbers.now }
{
    let mut arguments = ArrayVec::new();
    for number in numbers {
        arguments.push(Argument::Number(*number));
    }
    arguments
}

/// The first word of a line and its arguments; those of a use and of a check are told by
/// `use_parts` and `clause_parts`.
pub fn line_parts(line: Line) -> (Keyword, Arguments)
    ensures key { result.0 ≡ (spec.line_parts line).0 }
    ensures arguments { result.1.items ≡ (spec.line_parts line).1 }
{
    match line {
        Line::Registers(n) => (Keyword::Registers, numbers(&[n])),
        Line::Process => (Keyword::Process, list(&[])),
        Line::End => (Keyword::End, list(&[])),
        Line::Set(to, value) => (
            Keyword::Set,
            list(&[Argument::Target(to), Argument::Expression(value)]),
        ),
        Line::Read(to, from) => (
            Keyword::Read,
            list(&[Argument::Target(to), Argument::Operand(from)]),
        ),
        Line::Write(to, value) => (
            Keyword::Write,
            list(&[Argument::Operand(to), Argument::Expression(value)]),
        ),
        Line::Scan(cell, first, count) => (Keyword::Scan, numbers(&[cell, first, count])),
        Line::If(test) => (Keyword::If, list(&[Argument::Expression(test)])),
        Line::Else => (Keyword::Else, list(&[])),
        Line::Fi => (Keyword::Fi, list(&[])),
        Line::Repeat(count) => (Keyword::Repeat, list(&[Argument::Expression(count)])),
        Line::Done => (Keyword::Done, list(&[])),
        Line::Emit(value) => (Keyword::Emit, list(&[Argument::Expression(value)])),
        Line::Halt => (Keyword::Halt, list(&[])),
        Line::Use(_) => (Keyword::Use, list(&[])),
        Line::Check(_) => (Keyword::Check, list(&[])),
    }
}

/// The kind of a use and its arguments.
pub fn use_parts(kind: Use) -> (Kind, Arguments)
    ensures kind { result.0 ≡ (spec.use_parts kind).0 }
    ensures arguments { result.1.items ≡ (spec.use_parts kind).1 }
{
    match kind {
        Use::Split(base, id) => (Kind::Split, numbers(&[base, id])),
        Use::Grid(base, side, id) => (Kind::Grid, numbers(&[base, side, id])),
        Use::Tree(base, depth, id, value) => (Kind::Tree, numbers(&[base, depth, id, value])),
        Use::Name(base, slots, slot) => (Kind::Name, numbers(&[base, slots, slot])),
        Use::Names(base, slots, slot) => (Kind::Names, numbers(&[base, slots, slot])),
    }
}

/// The property of a clause and its arguments.
pub fn clause_parts(clause: Clause) -> (Property, Arguments)
    ensures property { result.0 ≡ (spec.clause_parts clause).0 }
    ensures arguments { result.1.items ≡ (spec.clause_parts clause).1 }
{
    match clause {
        Clause::Distinct => (Property::Distinct, list(&[])),
        Clause::AtMost(name, count) => (Property::AtMost, numbers(&[name, count])),
        Clause::Within(low, high) => (Property::Within, numbers(&[low, high])),
        Clause::Adaptive => (Property::Adaptive, list(&[])),
        Clause::Triangle => (Property::Triangle, list(&[])),
        Clause::SelfSeen => (Property::SelfSeen, list(&[])),
        Clause::Ended => (Property::Ended, list(&[])),
        Clause::NoFault => (Property::NoFault, list(&[])),
    }
}
