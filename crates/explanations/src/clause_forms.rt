//! The form of a check line, made of the table of properties.

ghost use Rattle.std.specs.Prelude.{◌≡◌};
ghost use Rattle.texts.specs.Appending.{Adds};
ghost use Rattle.explanations.specs.ClauseForms as spec;

use reglines::{PROPERTIES, Property, Spelled};
use std::io::Write;
use texts::{Block, Text, WriteFault};

/// The names of the numbers that follow a property, and what these may be; or that nothing follows.
fn numbers_after(property: Property) -> (&'static str, &'static str)
    ensures names { result.0.now ≡ spec.number_names property }
    ensures ranges { result.1.now ≡ spec.number_ranges property }
{
    match property {
        Property::AtMost => (" V C", "; V is 0 to 1000000000, and C is 0 to 8"),
        Property::Within => (" LO HI", "; LO and HI are 0 to 1000000000"),
        _ => ("", ", and nothing behind it"),
    }
}

/// What parts a clause from so many behind it.
fn parting(others: usize) -> &'static str
    ensures { result.now ≡ spec.parting others }
{
    match others {
        0 => "",
        1 => " and ",
        _ => ", ",
    }
}

/// A property, and the names of the numbers that follow it.
#[derive(Clone, Copy)]
struct ClauseWords(Property);

impl Text for ClauseWords {
    ghost text = { λ clause. spec.clause_words clause.0 };

    fn put<W: Write>(&self, out: &mut W, block: &mut Block) -> Result<(), WriteFault> {
        let (names, _) = numbers_after(self.0);
        (self.0.text(), names).put(out, block)
    }
}

/// Puts the clauses of these properties, parted by commas, and by `and` before the last.
fn put_clauses<W: Write>(
    properties: &[Property],
    out: &mut W,
    block: &mut Block,
) -> Result<(), WriteFault>
    ensures { Adds W.contents out.old block.old out.new block.new
        (spec.clauses_listed properties.now) result }
{
    let Some((property, others)) = properties.split_first() else {
        return Ok(());
    };
    (ClauseWords(*property), parting(others.len())).put(out, block)?;
    put_clauses(others, out, block)
}

/// The clauses of these properties.
#[derive(Clone, Copy)]
struct ClausesText<'a>(&'a [Property]);

impl Text for ClausesText<'_> {
    ghost text = { λ clauses. spec.clauses_listed clauses.0.now };

    fn put<W: Write>(&self, out: &mut W, block: &mut Block) -> Result<(), WriteFault> {
        put_clauses(self.0, out, block)
    }
}

/// The form of a check of this property, or of any one.
#[derive(Clone, Copy)]
pub(crate) struct CheckForm(pub(crate) Option<Property>);

impl Text for CheckForm {
    ghost text = { λ form. spec.check_form form.0 };

    fn put<W: Write>(&self, out: &mut W, block: &mut Block) -> Result<(), WriteFault> {
        match self.0 {
            Some(property) => {
                let clause = ClauseWords(property);
                let (_, ranges) = numbers_after(property);
                ("check ", clause, ranges).put(out, block)
            }
            None => ("check CLAUSE; the clauses are ", ClausesText(&PROPERTIES)).put(out, block),
        }
    }
}
