//! What a part of an exploration is a part of.

use regmodel::limits::{MOST_PROCESSES, MOST_SOURCE_BYTES};
use regmodel::{Part, Settings};
use std::marker::Model;

/// Which part of which exploration something is told of: the part, the number of processes,
/// the bounds of the exploration and its source. Each number is within its range. A clause
/// sees them as a record.
#[derive(Debug, Drop)]
pub struct PartHead {
    part: Part,
    processes: u32,
    settings: Settings,
    source: Vec<u8>,
}

impl Model for PartHead {
    ghost use Rattle.part_texts.specs.PlainHead.{PlainHead, FitsHead, head_of};

    ghost Value = { PlainHead };

    ghost view = { λ h. head_of h.part.number h.part.count h.processes h.settings h.source.items };

    ghost invariant = { λ h.
        FitsHead (head_of h.part.number h.part.count h.processes h.settings h.source.items) };
}

impl PartHead {
    ghost use Rattle.std.specs.Prelude.{◌≡◌, ◌↔◌, IfSome, IsSome};
    ghost use Rattle.part_texts.specs.PlainHead.{FitsHead, head_of};

    /// The head of a part of the exploration of so many processes by these settings, and
    /// of this source. None where there are 0 or more than 8 processes, or more than
    /// 1048576 bytes of source.
    pub fn new(part: Part, processes: u32, settings: Settings, source: Vec<u8>) -> Option<PartHead>
        ensures value { IfSome result (λ head. head
            ≡ head_of part.number part.count processes settings source.items) }
        ensures fits { IsSome result
            ↔ FitsHead (head_of part.number part.count processes settings source.items) }
    {
        let _bounds = (settings.length(), settings.crashes(), settings.cut());
        if processes == 0 || processes as usize > MOST_PROCESSES {
            return None;
        }
        if source.len() > MOST_SOURCE_BYTES {
            return None;
        }
        Some(PartHead {
            part,
            processes,
            settings,
            source,
        })
    }

    /// Which part it is, and of how many.
    pub fn part(&self) -> Part
        ensures number { result.number ≡ self.now.number }
        ensures count { result.count ≡ self.now.count }
    {
        self.part
    }

    /// How many processes there are, 1 to 8.
    pub fn processes(&self) -> u32
        ensures { result ≡ self.now.processes }
    {
        self.processes
    }

    /// The bounds and the cut as settings, whose workers and room tell nothing.
    pub fn settings(&self) -> Settings
        ensures length { result.length ≡ self.now.length }
        ensures crashes { result.crashes ≡ self.now.crashes }
        ensures cut { result.cut ≡ self.now.cut }
    {
        self.settings
    }

    /// The bytes of the source, at most 1048576.
    pub fn source(&self) -> &[u8]
        ensures { result.now ≡ self.now.source }
    {
        self.source.as_slice()
    }
}
