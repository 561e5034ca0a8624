//! What to do with a source.

ghost use Rattle.std.specs.Prelude.{◌≡◌, None, Some, if◌then◌else◌, option_map};

use breadths::Breadth;
use patterns::Pattern;
use regmodel::{Effort, Part, Prefix};

/// What to do with a source.
#[derive(Debug, Drop)]
pub enum Task {
    /// Check it this far, and say in words what fails: the least failing schedule, or the least
    /// of the shortest; a process at fault fails it unless that is allowed. The outcomes may be
    /// listed as well.
    Check {
        effort: Effort,
        native: bool,
        allows_faults: bool,
        shortest: bool,
        lists: bool,
    },
    /// Explore it this far, or one part of it, with native machines for use lines or with
    /// interpreters alone; or look for the least failing schedule of these alone.
    Explore {
        effort: Effort,
        native: bool,
        part: Option<Part>,
        least_alone: bool,
    },
    /// Look this far for the least schedule whose outcome matches one of these patterns, or for the
    /// least of the shortest.
    Find {
        effort: Effort,
        native: bool,
        patterns: Vec<Pattern>,
        shortest: bool,
    },
    /// Replay this schedule.
    Replay {
        schedule: Prefix,
    },
    /// Draw this schedule.
    Show {
        schedule: Prefix,
    },
}

impl Task {
    ghost use Rattle.orders.specs.Orders.{is_in_words, is_native, lists_of};

    /// How many lists of machines it takes: one for each worker; a check and a search take one
    /// more, to draw what is found.
    pub fn lists(&self) -> u32
        ensures { result ≡ lists_of self.now }
    {
        match self {
            Task::Check { effort, .. } => effort.settings.workers() + 1,
            Task::Explore { effort, .. } => effort.settings.workers(),
            Task::Find { effort, .. } => effort.settings.workers() + 1,
            Task::Replay { .. } | Task::Show { .. } => 1,
        }
    }

    /// Whether use lines run as native machines. A replay and a drawing have interpreters alone.
    pub fn is_native(&self) -> bool
        ensures { result ≡ is_native self.now }
    {
        match self {
            Task::Check { native, .. } => *native,
            Task::Explore { native, .. } => *native,
            Task::Find { native, .. } => *native,
            Task::Replay { .. } | Task::Show { .. } => false,
        }
    }

    /// Whether its refusals are told in words.
    pub fn is_in_words(&self) -> bool
        ensures { result ≡ is_in_words self.now }
    {
        matches!(
            self,
            Task::Check { .. } | Task::Find { .. } | Task::Show { .. }
        )
    }
}

/// What is asked of one file.
#[derive(Clone, Copy, Debug)]
pub struct Question<'a> {
    /// The words by which the program was called.
    pub program: &'a str,
    /// The file that holds the source.
    pub path: &'a str,
    /// What to do with it.
    pub task: &'a Task,
    /// How broad a drawing may be.
    pub breadth: Breadth<'a>,
    /// Whether it is to be told meanwhile how far it has come.
    pub progress: bool,
}

impl<'a> Question<'a> {
    ghost use Rattle.orders.specs.Orders.{is_in_words};

    /// Of what it is told in words why there is no answer: of the path; None where that
    /// is told in one line.
    pub fn subject(&self) -> Option<&'a str>
        ensures { option_map (λ path. path.now) result
            ≡ (if is_in_words self.now.task.now then Some self.now.path.now else None) }
    {
        if self.task.is_in_words() {
            Some(self.path)
        } else {
            None
        }
    }
}
