//! How broad a drawing may be, and which columns it has.

/// How broad a drawing may be, and which columns it has.
#[derive(Clone, Copy, PartialEq, Eq, Debug)]
pub struct Breadth<'a> {
    /// How broad it may be, and which registers it shows.
    pub room: Room<'a>,
    /// Whether a column tells of each letter the line of the text with its statement.
    pub lines: bool,
}

/// How broad a drawing may be, and which registers it shows.
#[derive(Clone, Copy, PartialEq, Eq, Debug)]
pub enum Room<'a> {
    /// 80 places where there are at most two processes, else 132.
    Usual,
    /// So many places.
    Places(u32),
    /// As broad as it comes, with all registers.
    Whole,
    /// As broad as it comes, with the registers that a text tells and no others.
    Chosen(&'a str),
}
