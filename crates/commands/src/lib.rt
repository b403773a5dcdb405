// What the driver's commands mean: the answers, and in specs/ each command as a script of transactions.
#![tactic(auto)]

ghost use Rattle.std.specs.Prelude.{◌≡◌};
ghost use Rattle.commands.specs.Answers.{number_of, refusal_of};
ghost use Rattle.commands.specs.declared.Answer.TheVariants.{InvalidAddress, BadSetting};

use settings::{BadRange, SettingError};
use sfdp::SFDPError;

// The answers, under the Rust's names where it has one.
#[derive(Clone, Copy)]
pub enum Answer {
    Done,
    // Done with a yes or no: is_busy, is_protected.
    DoneBool(bool),
    // Done with an ID: bank, manufacturer, device.
    DoneId(u8, u8, u16),
    // The first differing byte on verify: address, wrote, read.
    ReadbackError(u32, u8, u8),
    InvalidManufacturer,
    InvalidSFDPHeader,
    InvalidSFDPParams,
    InvalidAddress(BadRange),
    NoResetInstruction,
    NoEraseInstruction,
    Access,
    Busy,
    BadSetting,
    // The room that is needed, in bytes or slots.
    NoRoom(u64),
    NoSFDP,
    BadSession,
}

impl From<BadRange> for Answer {
    ghost from_gives = { λ e a. a ≡ InvalidAddress e };

    fn from(e: BadRange) -> Answer {
        Answer::InvalidAddress(e)
    }
}

impl From<SFDPError> for Answer {
    ghost from_gives = { λ e a. a ≡ refusal_of e };

    fn from(e: SFDPError) -> Answer {
        match e {
            SFDPError::NoSFDP => Answer::NoSFDP,
            SFDPError::InvalidSFDPHeader => Answer::InvalidSFDPHeader,
            SFDPError::InvalidSFDPParams => Answer::InvalidSFDPParams,
        }
    }
}

impl From<SettingError> for Answer {
    ghost from_gives = { λ e a. a ≡ BadSetting };

    fn from(e: SettingError) -> Answer {
        match e {
            SettingError::BadSetting => Answer::BadSetting,
        }
    }
}

impl Answer {
    // docs/SCOPE.md's answer number.
    pub fn number(self) -> u8
        ensures { result ≡ number_of self }
    {
        match self {
            Answer::Done | Answer::DoneBool(_) | Answer::DoneId(..) => 0,
            Answer::ReadbackError(..) => 1,
            Answer::InvalidManufacturer => 2,
            Answer::InvalidSFDPHeader => 3,
            Answer::InvalidSFDPParams => 4,
            Answer::InvalidAddress(_) => 5,
            Answer::NoResetInstruction => 6,
            Answer::NoEraseInstruction => 7,
            Answer::Access => 8,
            Answer::Busy => 9,
            Answer::BadSetting => 10,
            Answer::NoRoom(_) => 11,
            Answer::NoSFDP => 12,
            Answer::BadSession => 13,
        }
    }
}
