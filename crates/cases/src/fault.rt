// Why a case cannot be taken from the numbers of a file.
ghost use Rattle.std.specs.Prelude.{◌≡◌, Some};
ghost use Rattle.cases.specs.Faults.{case_fault_text, brief_text};
ghost use Rattle.cases.specs.declared.fault.CaseFault.TheVariants.{OutOfMemory, NoGame};

use games::row::{RowsFault, RowsRefused};
use std::alloc::AllocFailed;
use std::error::Error;
use std::fmt;

// Why a case cannot be taken.
#[derive(Clone, Copy, PartialEq, Eq, Debug)]
pub enum CaseFault {
    // The numbers end within the case.
    Ended,
    // There is no memory for its lists.
    OutOfMemory,
    // A number stands where a side should, and is no side's.
    NoSide(u16),
    // Its two lists make no game.
    NoGame(RowsFault),
    // There are more cases than can be counted.
    TooMany,
}

impl fmt::Display for CaseFault {
    ghost output = { λ fault. Some (case_fault_text fault) };

    fn fmt<W: fmt::Write>(&self, f: &mut fmt::Formatter<W>) -> fmt::Result {
        match self {
            CaseFault::Ended => f.write_str("the file ends within a case"),
            CaseFault::OutOfMemory => f.write_str("out of memory"),
            CaseFault::NoSide(number) => write!(f, "no side has the number {number}"),
            CaseFault::NoGame(fault) => fault.fmt(f),
            CaseFault::TooMany => f.write_str("more cases than can be counted"),
        }
    }
}

impl Error for CaseFault {}

// A fault as the programs that try cases tell it: in brief, without what it carries.
#[derive(Clone, Copy, PartialEq, Eq, Debug)]
pub struct Brief(pub CaseFault);

impl fmt::Display for Brief {
    ghost output = { λ brief. Some (brief_text brief.0) };

    fn fmt<W: fmt::Write>(&self, f: &mut fmt::Formatter<W>) -> fmt::Result {
        f.write_str(match self.0 {
            CaseFault::Ended => "the file ends within a case",
            CaseFault::OutOfMemory => "memory allocation failed",
            CaseFault::NoSide(number) if number > 255 => {
                "out of range integral type conversion attempted"
            }
            CaseFault::NoSide(_) => "no side",
            CaseFault::NoGame(_) => "the rows make no game",
            CaseFault::TooMany => "more cases than can be counted",
        })
    }
}

impl Error for Brief {}

impl<T: Drop> From<AllocFailed<T>> for CaseFault {
    ghost from_gives = { λ _ e. e ≡ OutOfMemory };

    fn from(_e: AllocFailed<T>) -> CaseFault {
        CaseFault::OutOfMemory
    }
}

impl From<RowsRefused> for CaseFault {
    ghost from_gives = { λ refused e. e ≡ NoGame refused.refusal };

    fn from(refused: RowsRefused) -> CaseFault {
        CaseFault::NoGame(refused.refusal)
    }
}
