//! How far a source is explored, and with how much.

use crate::settings::Settings;

/// How far a source is explored and by how many workers, and with how much memory for the
/// states that they meet.
#[derive(Clone, Copy, Debug)]
pub struct Effort {
    pub settings: Settings,
    /// How many megabytes, of 2^20 bytes each, the workers have together to remember states in;
    /// with 0 they remember none.
    pub cache: u32,
}
