//! The lines that are written.
ghost use Rattle.std.specs.Prelude.{◌≡◌, ◌≤◌, ◌<◌, length};
ghost use Rattle.commission_run.specs.Lines.{found_line, commissioned_line};

use commissioning::Record702;
use fixed_list::FixedList;
use itoa::Buffer;

/// Room for the longest line: three words, four names and four numbers of at most six bytes.
const LINE_MAX: usize = 64;

/// A line of text with its line feed.
pub(crate) type Line = FixedList<u8, LINE_MAX>;

/// The line of what was found.
pub(crate) fn found_text(found: &Record702) -> Line
    ensures { result ≡ found_line found.now }
{
    let mut line = Line::new();
    line.extend_from_slice(b"found base ");
    line.extend_from_slice(Buffer::new().format(found.base).as_bytes());
    line.extend_from_slice(b" wmax ");
    line.extend_from_slice(Buffer::new().format(found.wmax).as_bytes());
    line.extend_from_slice(b" wsf ");
    line.extend_from_slice(Buffer::new().format(found.wsf).as_bytes());
    line.extend_from_slice(b" psf ");
    line.extend_from_slice(Buffer::new().format(found.psf).as_bytes());
    line.push(b'\n');
    line
}

/// The line of an inverter that is commissioned.
pub(crate) fn commissioned_text(inverter: u8) -> Line
    ensures { result ≡ commissioned_line inverter }
{
    let mut line = Line::new();
    line.extend_from_slice(b"commissioned ");
    line.extend_from_slice(Buffer::new().format(inverter).as_bytes());
    line.push(b'\n');
    line
}
