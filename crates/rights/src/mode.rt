// The nine permission bits of a file: read 4, write 2, execute 1, for owner, group and others.
ghost use Rattle.std.specs.Prelude.{◌≡◌, ◌<◌, ◌≤◌, MatchResult, Some, codes};
ghost use Rattle.rights.specs.Modes.{class_bits, execute_bits};

use crate::class::Class;
use crate::execute::Execute;
use std::error::Error;
use std::fmt;

#[derive(Clone, Copy, PartialEq, Eq, Debug)]
pub struct Mode {
    bits: u16,
    ghost nine: { bits < 512 },
}

impl Mode {
    // The three bits of one class.
    pub fn of(self, class: Class) -> u8
        ensures { result ≡ class_bits self.bits class }
    {
        let shifted = match class {
            Class::Owner => self.bits >> 6,
            Class::Group => self.bits >> 3,
            Class::Others => self.bits,
        };
        (shifted % 8) as u8
    }
}

// The refusal of a number that has a bit above the nine.
#[derive(Clone, Copy, PartialEq, Eq, Debug)]
pub struct TooManyBits;

impl fmt::Display for TooManyBits {
    ghost output = { λ _. Some (codes "a mode has nine bits") };

    fn fmt<W: fmt::Write>(&self, f: &mut fmt::Formatter<W>) -> fmt::Result {
        f.write_str("a mode has nine bits")
    }
}

impl Error for TooManyBits {}

impl TryFrom<u16> for Mode {
    type Error = TooManyBits;

    ghost try_from_gives = { λ bits r. MatchResult r (λ m. m.bits ≡ bits) (λ _. 512 ≤ bits) };

    fn try_from(bits: u16) -> Result<Mode, TooManyBits> {
        if bits < 512 {
            Ok(Mode { bits })
        } else {
            Err(TooManyBits)
        }
    }
}

impl From<Mode> for u16 {
    ghost from_gives = { λ mode bits. bits ≡ mode.bits };

    fn from(mode: Mode) -> u16 {
        mode.bits
    }
}

impl From<Mode> for Execute {
    ghost from_gives = { λ mode execute. execute ≡ execute_bits mode.bits };

    fn from(mode: Mode) -> Execute {
        let executes = |class| mode.of(class) % 2 == 1;
        Execute {
            owner: executes(Class::Owner),
            group: executes(Class::Group),
            others: executes(Class::Others),
        }
    }
}
