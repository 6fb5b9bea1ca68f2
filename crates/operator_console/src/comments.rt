//! The comment lines of a console.
ghost use Rattle.std.specs.Prelude.{◌≡◌, ◌≤◌, ◌+◌, ◌++◌, codes, length};
ghost use Rattle.std.specs.Fmt.{decimal};
ghost use Rattle.operator_console.specs.Comments as comments;

use fixed_list::FixedList;
use itoa::Buffer;
use plant_book::Reply;
use plant_ledger::Goal;

/// Room for the longest line: two words of a cap and two numbers.
const LINE_MAX: usize = 64;

/// A line of text with its line feed.
pub(crate) type Line = FixedList<u8, LINE_MAX>;

/// The line of a word and a number.
fn numbered(word: &[u8], number: u64) -> Line
    requires { length word.now ≤ 20 }
    ensures line { result ≡ word.now ++ decimal number ++ codes "\n" }
    ensures short { length result ≤ 41 }
{
    let mut line = Line::from_slice(word);
    line.extend_from_slice(Buffer::new().format(number).as_bytes());
    line.push(b'\n');
    line
}

/// The line of two words, each with a number behind it.
fn twice_numbered(first: &[u8], a: u64, second: &[u8], b: u64) -> Line
    requires { length first.now + length second.now ≤ 20 }
    ensures { result ≡ first.now ++ decimal a ++ second.now ++ decimal b ++ codes "\n" }
{
    let mut line = Line::from_slice(first);
    line.extend_from_slice(Buffer::new().format(a).as_bytes());
    line.extend_from_slice(second);
    line.extend_from_slice(Buffer::new().format(b).as_bytes());
    line.push(b'\n');
    line
}

/// The line of the reply to an order's call.
pub(crate) fn reply_text(reply: &Reply) -> Line
    ensures line { result ≡ comments.reply_line reply.now }
{
    match *reply {
        Reply::Total(total) => numbered(b"# total ", total),
        Reply::Taken => Line::from_slice(b"# taken\n"),
        Reply::CapSet { cap, ceiling } => twice_numbered(b"# cap ", cap, b" ceiling ", ceiling),
        Reply::CapOut { least, most } => twice_numbered(b"# cap out ", least, b" ", most),
        _ => Line::new(),
    }
}

/// The line of an inverter's goal.
pub(crate) fn goal_text(inverter: u8, goal: &Goal) -> Line
    ensures line { result ≡ comments.goal_line inverter goal.now }
    ensures short { length result ≤ 56 }
{
    let mut line = Line::from_slice(b"# inverter ");
    line.extend_from_slice(Buffer::new().format(inverter).as_bytes());
    line.extend_from_slice(b" reserved ");
    line.extend_from_slice(Buffer::new().format(goal.reserved).as_bytes());
    line.extend_from_slice(b" goal ");
    line.extend_from_slice(Buffer::new().format(goal.raw).as_bytes());
    line.push(b'\n');
    line
}

/// The line of a line of this number that spells no order.
pub(crate) fn bad_text(number: u32) -> Line
    ensures { result ≡ comments.bad_line number }
{
    numbered(b"# bad line ", u64::from(number))
}
