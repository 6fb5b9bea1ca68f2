ghost use Rattle.std.specs.Prelude.{◌≤◌, length, MatchResult};
ghost use Rattle.script_text.specs.Progress.{Explains, IsBadLine};
ghost use Rattle.script_text.specs.Reader.{AreLast, CanGoOn, HasRead, IsBadFrom, NextRead, script_begun};
ghost use Rattle.script_text.specs.Size.{HasSize};

use crate::fault::ScriptFault;
use crate::judging::moment_after;
use crate::line::Line;
use crate::rows::Rows;
use crate::script::{SCRIPT_BYTES_MAX, read_line, read_site, read_units};
use crate::size::{SiteSize, count_units};
use plant_book::Site;
use std::alloc::Global;

/// The lines behind the head of a script, from some line on. They are read one after another.
#[derive(Clone, Copy)]
pub struct Lines<'a> {
    /// The rows that are still to be read.
    rows: Rows<'a>,
    /// How many inverters the site has.
    inverters: usize,
    /// The last moment so far, in ms.
    latest: u64,
}

/// The head of a script, and the lines behind it.
#[derive(Drop)]
pub struct Begun<'a> {
    /// The site of all books.
    pub site: Site,
    /// The moment at which the first book begins, in ms.
    pub start: u64,
    /// The lines behind the head.
    pub lines: Lines<'a>,
}

impl Lines<'_> {
    /// Reads the next line, or finds the end of the script. Behind a fault there is nothing more to read.
    #[inline]
    pub fn next_line(&mut self) -> Result<Option<Line>, ScriptFault>
        requires { CanGoOn self.old }
        ensures { NextRead self.old self.new result }
    {
        match read_line(self.rows, self.inverters, self.latest)? {
            None => Ok(None),
            Some((line, rows)) => {
                self.latest = moment_after(&line, self.latest);
                self.rows = rows;
                Ok(Some(line))
            }
        }
    }
}

/// Reads the head of a script.
pub fn read_head(alloc: Global, bytes: &[u8]) -> Result<Begun<'_>, ScriptFault>
    requires { length bytes.now ≤ SCRIPT_BYTES_MAX }
    ensures { MatchResult result
        (λ begun. HasRead bytes.now (script_begun begun) begun.lines)
        (λ fault. Explains fault bytes.now) }
{
    let rows = Rows {
        whole: bytes,
        rest: bytes,
        number: 1,
    };
    let (line, rows) = read_site(rows)?;
    let (units, start, rows) = read_units(alloc, rows)?;
    let lines = Lines {
        rows,
        inverters: units.len(),
        latest: start,
    };
    Ok(Begun {
        site: Site::new(line.cap, line.rules, line.policy, line.room, units),
        start,
        lines,
    })
}

/// Judges the lines that are left, and takes no memory for them.
pub fn judge_rest(lines: &mut Lines<'_>) -> Result<(), ScriptFault>
    requires { CanGoOn lines.old }
    ensures { MatchResult result (λ _. AreLast lines.old) (λ fault. IsBadFrom lines.old fault) }
{
    while lines.next_line()?.is_some() {}
    Ok(())
}

/// The size of the site of a script, or its first bad line. The whole script is judged, and no memory is taken.
pub fn site_size(bytes: &[u8]) -> Result<SiteSize, ScriptFault>
    requires { length bytes.now ≤ SCRIPT_BYTES_MAX }
    ensures { MatchResult result (λ size. HasSize bytes.now size) (λ fault. IsBadLine fault bytes.now) }
{
    let rows = Rows {
        whole: bytes,
        rest: bytes,
        number: 1,
    };
    let (line, rows) = read_site(rows)?;
    let (size, latest, rows) = count_units(line.cap, rows)?;
    let mut lines = Lines {
        rows,
        inverters: size.inverters,
        latest,
    };
    judge_rest(&mut lines)?;
    Ok(size)
}

/// The fault of a script for which memory ran out: its first bad line, if it has one.
pub fn out_of_memory(bytes: &[u8]) -> ScriptFault
    requires { length bytes.now ≤ SCRIPT_BYTES_MAX }
    ensures { Explains result bytes.now }
{
    match site_size(bytes) {
        Ok(_) => ScriptFault::NoMemory,
        Err(fault) => fault,
    }
}
