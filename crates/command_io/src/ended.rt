ghost use Rattle.std.specs.Prelude.{◌≡◌, Some};
ghost use Rattle.command_io.specs.Ends.{status_of, kind_text, end_text};

use crate::fault_text::{write_live_fault, write_site_fault};
use crate::live_fault::LiveFault;
use busbars::{BusCause, BusFault};
use script_text::LineKind;
use site_config::SiteFault;
use std::fmt;
use std::fmt::{Display, Formatter};

/// How the program ended.
#[derive(Clone, Copy, Debug, PartialEq, Eq)]
pub enum Ended {
    /// The input was read to its end, and all was written.
    Done,
    /// The words of the command line ask for nothing that the program does.
    BadWords,
    /// The line of this number, from 1, is the first that is at fault.
    BadLine {
        /// The number of the line, from 1.
        line: u32,
        /// How it is at fault.
        kind: LineKind,
    },
    /// The site file is at fault, and this is its first fault; or no book is opened of the site of a script.
    BadSite(SiteFault),
    /// A book had no room for the next call: for the next call line of a script, or for a worker's in a run.
    BookFull {
        /// The calls of the book, which are its room.
        calls: u32,
    },
    /// The input failed.
    ReadFault,
    /// The output failed.
    WriteFault,
    /// Memory ran out.
    NoMemory,
    /// The input has more bytes than it may have.
    TooLong {
        /// How many bytes it may have.
        limit: u32,
    },
    /// A command over links was refused.
    Refused(LiveFault),
    /// A bus of an input with buses is at fault, and this is the first such.
    BadBus(BusFault),
}

/// The status with which the program ends.
pub fn status(ended: &Ended) -> u8
    ensures { result ≡ status_of ended.now }
{
    match ended {
        Ended::Done => 0,
        Ended::BadWords => 2,
        Ended::BadLine { .. } => 3,
        Ended::BadSite(_) => 4,
        Ended::BookFull { .. } => 5,
        Ended::ReadFault => 6,
        Ended::WriteFault => 7,
        Ended::NoMemory => 8,
        Ended::TooLong { .. } => 9,
        Ended::Refused(_) => 10,
        Ended::BadBus(_) => 11,
    }
}

/// The kind of a bad line as it is shown.
fn kind_name(kind: LineKind) -> &'static str
    ensures { result.now ≡ kind_text kind }
{
    match kind {
        LineKind::Form => "form",
        LineKind::Inverter => "inverter",
        LineKind::Time => "time",
        LineKind::Value => "value",
    }
}

/// The line on standard error.
impl Display for Ended {
    ghost output = { end_text };

    fn fmt<W: fmt::Write>(&self, f: &mut Formatter<W>) -> fmt::Result {
        match self {
            Ended::Done => f.write_str("done"),
            Ended::BadWords => f.write_str("bad words"),
            Ended::BadLine { line, kind } => {
                let kind = kind_name(*kind);
                write!(f, "line {line}: {kind}")
            }
            Ended::BadSite(fault) => {
                f.write_str("bad site: ")?;
                write_site_fault(f, *fault)
            }
            Ended::BookFull { calls } => write!(f, "book full: {calls}"),
            Ended::ReadFault => f.write_str("read fault"),
            Ended::WriteFault => f.write_str("write fault"),
            Ended::NoMemory => f.write_str("no memory"),
            Ended::TooLong { limit } => write!(f, "too long: {limit}"),
            Ended::Refused(fault) => {
                f.write_str("refused: ")?;
                write_live_fault(f, *fault)
            }
            Ended::BadBus(fault) => {
                let bus = fault.bus;
                match fault.cause {
                    BusCause::Range => write!(f, "badbus {bus} range"),
                    BusCause::Crossing => write!(f, "badbus {bus} crossing"),
                    BusCause::FloorsOver(sum) => write!(f, "badbus {bus} floorsover {sum}"),
                }
            }
        }
    }
}
