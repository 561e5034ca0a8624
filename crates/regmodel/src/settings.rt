//! How far an exploration goes, and how workers share it.

ghost use Rattle.std.specs.Prelude.{◌≡◌, ◌<◌, ◌≤◌, ◌↔◌, IsOk, IfOk, IfErr};
ghost use Rattle.regmodel.specs.Settings.{AreSettingsWithin, settings_of, setting_fault};
ghost use Rattle.regmodel.specs.declared.limits.TheConstants.{GREATEST_CUT, GREATEST_ROOM, MOST_CRASHES, MOST_LETTERS, MOST_WORKERS};

use crate::limits::{GREATEST_CUT, GREATEST_ROOM, MOST_CRASHES, MOST_LETTERS, MOST_WORKERS};
use std::marker::Model;
use thiserror::Error;

/// The bounds of an exploration and how it is shared among workers, always within their limits.
#[derive(Clone, Copy, PartialEq, Eq, Debug)]
pub struct Settings {
    length: u32,
    crashes: u32,
    workers: u32,
    cut: u32,
    room: u32,
}

impl Model for Settings {
    ghost use Rattle.regmodel.specs.Settings as spec;

    ghost Value = { spec.Settings };

    ghost view = { λ s. spec.settings_of s.length s.crashes s.workers s.cut s.room };

    ghost invariant = { λ s.
        spec.AreSettingsWithin (spec.settings_of s.length s.crashes s.workers s.cut s.room) };

    ghost inverse = { λ b. record {
      length = b.length;
      crashes = b.crashes;
      workers = b.workers;
      cut = b.cut;
      room = b.room;
    } };
}

/// The code of a length past its limit.
pub const LENGTH_PAST_LIMIT: u8 = 1;

/// The code of a number of crashes past its limit.
pub const CRASHES_PAST_LIMIT: u8 = 2;

/// The code of no workers, or too many.
pub const WORKERS_PAST_LIMIT: u8 = 3;

/// The code of a cut past its limit.
pub const CUT_PAST_LIMIT: u8 = 4;

/// The code of a room past its limit.
pub const ROOM_PAST_LIMIT: u8 = 5;

/// A setting past its limit, the lowest that applies: 1 length, 2 crashes, 3 workers, 4 cut, 5
/// room.
#[derive(Clone, Copy, PartialEq, Eq, Debug, Error)]
#[error("setting {code} is past its limit")]
pub struct SettingFault {
    /// Which setting, 1 to 5.
    pub code: u8,
}

impl Settings {
    /// Settings of these numbers: length 0 to 64, crashes 0 to 8, workers 1 to 16, cut 0 to 16,
    /// room 0 to 65536.
    pub fn new(
        length: u32,
        crashes: u32,
        workers: u32,
        cut: u32,
        room: u32,
    ) -> Result<Settings, SettingFault>
        ensures value { IfOk result (λ s. s ≡ settings_of length crashes workers cut room) }
        ensures fits { IsOk result
            ↔ AreSettingsWithin (settings_of length crashes workers cut room) }
        ensures lowest { IfErr result
            (λ e. e.code ≡ setting_fault (settings_of length crashes workers cut room)) }
    {
        if length > MOST_LETTERS {
            return Err(SettingFault {
                code: LENGTH_PAST_LIMIT,
            });
        }
        if crashes > MOST_CRASHES {
            return Err(SettingFault {
                code: CRASHES_PAST_LIMIT,
            });
        }
        if workers == 0 || workers > MOST_WORKERS {
            return Err(SettingFault {
                code: WORKERS_PAST_LIMIT,
            });
        }
        if cut > GREATEST_CUT {
            return Err(SettingFault {
                code: CUT_PAST_LIMIT,
            });
        }
        if room > GREATEST_ROOM {
            return Err(SettingFault {
                code: ROOM_PAST_LIMIT,
            });
        }
        Ok(Settings {
            length,
            crashes,
            workers,
            cut,
            room,
        })
    }

    /// How many letters a schedule has at most, 0 to 64.
    pub fn length(&self) -> u32
        ensures value { result ≡ self.now.length }
        ensures within { self.now.length ≤ MOST_LETTERS }
    {
        self.length
    }

    /// How many processes may crash, 0 to 8.
    pub fn crashes(&self) -> u32
        ensures value { result ≡ self.now.crashes }
        ensures within { self.now.crashes ≤ MOST_CRASHES }
    {
        self.crashes
    }

    /// How many workers explore, 1 to 16.
    pub fn workers(&self) -> u32
        ensures value { result ≡ self.now.workers }
        ensures some { 0 < self.now.workers }
        ensures within { self.now.workers ≤ MOST_WORKERS }
    {
        self.workers
    }

    /// Below which length a piece is split, 0 to 16.
    pub fn cut(&self) -> u32
        ensures value { result ≡ self.now.cut }
        ensures within { self.now.cut ≤ GREATEST_CUT }
    {
        self.cut
    }

    /// How many pieces a worker may hand on, 0 to 65536.
    pub fn room(&self) -> u32
        ensures value { result ≡ self.now.room }
        ensures within { self.now.room ≤ GREATEST_ROOM }
    {
        self.room
    }
}
