//! The words of the language that have one spelling: the first words of lines, the operators, the
//! kinds of use lines and the properties.

use regmodel::Op;

/// A first word of a line.
#[derive(Clone, Copy)]
pub enum Keyword {
    Registers,
    Process,
    End,
    Set,
    Read,
    Write,
    Scan,
    If,
    Else,
    Fi,
    Repeat,
    Done,
    Emit,
    Halt,
    Use,
    Check,
}

/// The first words of lines.
pub const KEYWORDS: [Keyword; 16] = [
    Keyword::Registers,
    Keyword::Process,
    Keyword::End,
    Keyword::Set,
    Keyword::Read,
    Keyword::Write,
    Keyword::Scan,
    Keyword::If,
    Keyword::Else,
    Keyword::Fi,
    Keyword::Repeat,
    Keyword::Done,
    Keyword::Emit,
    Keyword::Halt,
    Keyword::Use,
    Keyword::Check,
];

/// The operators.
pub(crate) const OPERATORS: [Op; 5] = [Op::Add, Op::Sub, Op::Mul, Op::Equal, Op::Less];

/// A kind of use line.
#[derive(Clone, Copy)]
pub enum Kind {
    Split,
    Grid,
    Tree,
    Name,
    Names,
}

/// The kinds of use lines.
pub(crate) const KINDS: [Kind; 5] = [Kind::Split, Kind::Grid, Kind::Tree, Kind::Name, Kind::Names];

/// A property that a check line names.
#[derive(Clone, Copy)]
pub enum Property {
    Distinct,
    AtMost,
    Within,
    Adaptive,
    Triangle,
    SelfSeen,
    Ended,
    NoFault,
}

/// The properties.
pub const PROPERTIES: [Property; 8] = [
    Property::Distinct,
    Property::AtMost,
    Property::Within,
    Property::Adaptive,
    Property::Triangle,
    Property::SelfSeen,
    Property::Ended,
    Property::NoFault,
];

/// A word of the language that has one spelling.
pub trait Spelled: Copy {
    ghost use Rattle.std.specs.Prelude.{◌≡◌, ℕ, List};

    /// How it is spelled.
    ghost spelling: { Self → List ℕ };

    /// How it is spelled.
    fn text(self) -> &'static [u8]
        ensures { result.now ≡ spelling self };
}

impl Spelled for Keyword {
    ghost use Rattle.reglines.specs.Spelling.{keyword_text};

    ghost spelling = { keyword_text };

    fn text(self) -> &'static [u8] {
        match self {
            Keyword::Registers => b"registers",
            Keyword::Process => b"process",
            Keyword::End => b"end",
            Keyword::Set => b"set",
            Keyword::Read => b"read",
            Keyword::Write => b"write",
            Keyword::Scan => b"scan",
            Keyword::If => b"if",
            Keyword::Else => b"else",
            Keyword::Fi => b"fi",
            Keyword::Repeat => b"repeat",
            Keyword::Done => b"done",
            Keyword::Emit => b"emit",
            Keyword::Halt => b"halt",
            Keyword::Use => b"use",
            Keyword::Check => b"check",
        }
    }
}

impl Spelled for Op {
    ghost use Rattle.reglines.specs.Spelling.{operator_text};

    ghost spelling = { operator_text };

    fn text(self) -> &'static [u8] {
        match self {
            Op::Add => b"+",
            Op::Sub => b"-",
            Op::Mul => b"*",
            Op::Equal => b"=",
            Op::Less => b"<",
        }
    }
}

impl Spelled for Kind {
    ghost use Rattle.reglines.specs.Spelling.{kind_text};

    ghost spelling = { kind_text };

    fn text(self) -> &'static [u8] {
        match self {
            Kind::Split => b"split",
            Kind::Grid => b"grid",
            Kind::Tree => b"tree",
            Kind::Name => b"name",
            Kind::Names => b"names",
        }
    }
}

impl Spelled for Property {
    ghost use Rattle.reglines.specs.Spelling.{property_text};

    ghost spelling = { property_text };

    fn text(self) -> &'static [u8] {
        match self {
            Property::Distinct => b"distinct",
            Property::AtMost => b"atmost",
            Property::Within => b"within",
            Property::Adaptive => b"adaptive",
            Property::Triangle => b"triangle",
            Property::SelfSeen => b"selfseen",
            Property::Ended => b"ended",
            Property::NoFault => b"nofault",
        }
    }
}
