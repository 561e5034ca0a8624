//! Of what is told: how the program was called, the file, its text, and how broad a drawing may be.

use breadths::Breadth;

/// Of what is told: the text in the file of a path, and how broad a drawing of a schedule may be;
/// and by which words the program was called that tells it.
#[derive(Clone, Copy)]
pub struct Topic<'a> {
    /// The words by which the program was called, as they are to be typed in a shell.
    pub program: &'a [u8],
    /// The path.
    pub path: &'a [u8],
    /// The text.
    pub text: &'a [u8],
    /// How broad a drawing may be.
    pub breadth: Breadth<'a>,
}
