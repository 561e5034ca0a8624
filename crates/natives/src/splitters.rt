//! The way through a splitter: a process leaves its number, tries a door and closes it, and
//! looks who came last.

ghost use Rattle.std.specs.Prelude.{◌≡◌, ◌<◌};
ghost use Rattle.natives.specs.Splitters.{step_access, step_number};

use regmodel::Access;

/// Where a process stands at a splitter.
#[derive(Clone, Copy)]
pub enum SplitterStep {
    /// It writes its number.
    Marks,
    /// It reads the door.
    Tries,
    /// It closes the door.
    Closes,
    /// It reads who came last.
    Looks,
}

impl SplitterStep {
    /// The access of the step, by the register that tells who came last; the next one is the door,
    /// 0 where it is open.
    pub fn access(self, last: u8, id: u32) -> Access
        requires { last < 255 }
        ensures { result ≡ step_access last id self }
    {
        match self {
            SplitterStep::Marks => Access::Write(last, id),
            SplitterStep::Tries => Access::Read(last + 1),
            SplitterStep::Closes => Access::Write(last + 1, 1),
            SplitterStep::Looks => Access::Read(last),
        }
    }

    /// The number that tells the step.
    pub fn number(self) -> u32
        ensures { result ≡ step_number self }
    {
        match self {
            SplitterStep::Marks => 0,
            SplitterStep::Tries => 1,
            SplitterStep::Closes => 2,
            SplitterStep::Looks => 3,
        }
    }
}
