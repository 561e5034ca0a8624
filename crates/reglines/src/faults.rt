//! What is wrong with a line.

ghost use Rattle.std.specs.Prelude.{◌≡◌};
ghost use Rattle.reglines.specs.LineFaults.{code_of};

/// What is wrong with a line, or with the end of a text.
#[derive(Clone, Copy, PartialEq, Eq, Debug)]
pub enum LineFault {
    /// A byte that is not in 32 to 126.
    NotPrintable,
    /// A first word that begins no line, or a later word that is unknown.
    UnknownWord,
    /// A word that begins with a digit and is no number word.
    NoNumber,
    /// Words that have no form of the first one.
    NoForm,
    /// A line that cannot stand where it is.
    Misplaced,
    /// A limit that is passed.
    PastLimit,
    /// A `process` or `check` before the `registers` line, or no such line in the whole text.
    NoRegisters,
    /// A check without a clause.
    NoClause,
}

impl LineFault {
    /// Its code: 1 to 8, in the order of the faults above.
    pub fn code(self) -> u8
        ensures { result ≡ code_of self }
    {
        match self {
            LineFault::NotPrintable => 1,
            LineFault::UnknownWord => 2,
            LineFault::NoNumber => 3,
            LineFault::NoForm => 4,
            LineFault::Misplaced => 5,
            LineFault::PastLimit => 6,
            LineFault::NoRegisters => 7,
            LineFault::NoClause => 8,
        }
    }
}
