ghost use Rattle.std.specs.Prelude.{◌≡◌, ◌≤◌, None, IfOk, length};

use ledger_desk::PlainDesk;
use limiter_num::{Rating, Rules};
use operator_console::{ConsoleEnd, console};
use plant_book::{Policy, Site, Unit};
use plant_ledger::Plant;
use script_text::entry_text;
use std::alloc::Global;
use std::process::Abort;
use std::test::Fail;
use world_traits::{BytesSink, BytesSource, StepClock};

/// The first book of two inverters of 6 kW with floors of 600 W, with so much room.
fn plant(rt: &impl Abort, alloc: Global, room: u32) -> Result<Plant, Fail>
    ensures { IfOk result (λ plant. (plant.carry ≡ None) × (length plant.site.units ≡ 2)) }
{
    let rules = Rules::new(1_000, 4_000, 60, 20, 500).ok().ok_or("rules")?;
    let rating = Rating::new(6_000, 0, -1).ok().ok_or("rating")?;
    let unit = Unit::new(rating, 100).ok().ok_or("unit")?;
    assert!(rt; room >= 1);
    assert!(rt; room <= 1_048_576);
    let units = vec![in alloc; unit, unit]?;
    let site = Site::new(10_000_000, rules, Policy::Fair, room, units);
    Ok(Plant::open(alloc, site, 0).ok().ok_or("open")?)
}

/// How a console ended, what it wrote, and the text of the entries of the last book.
#[derive(Drop)]
struct Session {
    end: ConsoleEnd,
    written: Vec<u8>,
    book: Vec<u8>,
}

/// A console over these bytes, where the reads and the writes of these numbers fail, and a book has so much room.
fn follow(
    rt: &impl Abort,
    alloc: Global,
    room: u32,
    bytes: Vec<u8>,
    reads: Vec<u32>,
    writes: Vec<u32>,
) -> Result<Session, Fail> {
    let mut desk = PlainDesk::new(alloc, plant(rt, alloc, room)?);
    let mut input = BytesSource::new(bytes, reads);
    let mut out = BytesSink::new(alloc, writes);
    let clock = StepClock::new(0, 1);
    let end = console(alloc, &mut desk, 2, &mut input, &mut out, &clock);
    let written = Vec::from_slice(alloc, out.taken())?;
    let plant = desk.into_plant();
    let mut book = Vec::new(alloc);
    for place in 0..plant.calls() {
        assert!(rt; entry_text(&mut book, &plant.entry(place)).is_ok());
    }
    Ok(Session { end, written, book })
}

/// What a status shows of such a plant with a cap of 10 kW: 5 kW are the share of each.
const STATUS: &str = "# total 1200000
# inverter 0 reserved 600000 goal 833
# inverter 1 reserved 600000 goal 833
";

/// Lines of an input with the room of a book, and what comes of them: the end, what is written, and the last book.
const ROWS: [(u32, &str, ConsoleEnd, &str, &str); 8] = [
    (
        1_000,
        "want 0 2000000\nstatus\nbogus\nstop\n",
        ConsoleEnd::Stopped,
        "# taken
# total 1200000
# inverter 0 reserved 600000 goal 333
# inverter 1 reserved 600000 goal 1000
# bad line 3
# taken
",
        "want 1 0 2000000 = taken\ntick 2 = total 1200000\nstop 3 = taken\n",
    ),
    (
        1_000,
        "cap 5000000\ncap 1\nroll\nroll\nwant 2 1\nwant 0 100000000000001\n\nstatus\r\nstop",
        ConsoleEnd::Stopped,
        "# cap 5000000 ceiling 10000000
# cap out 1200000 10000000
site 10000000 1000 4000 60 20 500 fair 1000
inverter 6000 0 -1 100
inverter 6000 0 -1 100
begin 0
cap 1 5000000 = capset 5000000 10000000
cap 2 1 = capout 1200000 10000000
roll = rolled
roll = rolled
# bad line 5
# bad line 6
# total 1200000
# inverter 0 reserved 600000 goal 416
# inverter 1 reserved 600000 goal 416
# taken
",
        "tick 3 = total 1200000\nstop 4 = taken\n",
    ),
    (
        1_000,
        "stop\nstatus\n",
        ConsoleEnd::Stopped,
        "# taken\n",
        "stop 1 = taken\n",
    ),
    (
        1_000,
        "cap 01\n stop\nstop \nstop\r",
        ConsoleEnd::Ended,
        "# bad line 1\n# bad line 2\n# bad line 3\n# bad line 4\n",
        "",
    ),
    (1_000, "", ConsoleEnd::Ended, "", ""),
    (
        1,
        "status\n",
        ConsoleEnd::Ended,
        STATUS,
        "tick 1 = total 1200000\n",
    ),
    (
        1,
        "status\nstatus\nstop\n",
        ConsoleEnd::BookFull,
        STATUS,
        "tick 1 = total 1200000\n",
    ),
    (
        1,
        "stop\nstop\n",
        ConsoleEnd::Stopped,
        "# taken\n",
        "stop 1 = taken\n",
    ),
];

#[test]
fn orders_become_calls_and_show_what_came_of_them(rt: HostRuntime) -> Result<(), Fail> {
    let alloc = rt.alloc();
    for (room, lines, end, written, book) in ROWS {
        let bytes = Vec::from_slice(alloc, lines.as_bytes())?;
        let session = follow(&rt, alloc, room, bytes, Vec::new(alloc), Vec::new(alloc))?;
        assert_eq!(rt; session.end, end);
        assert_eq!(rt; str::from_utf8(&session.written)?, written);
        assert_eq!(rt; str::from_utf8(&session.book)?, book);
    }
    Ok(())
}

/// What the console writes by one write each of `want 0 1`, `roll` and `stop`, in the order of the writes.
const PIECES: [&str; 5] = [
    "# taken\n",
    "site 10000000 1000 4000 60 20 500 fair 2
inverter 6000 0 -1 100
inverter 6000 0 -1 100
begin 0
",
    "want 1 0 1 = taken\n",
    "roll = rolled\n",
    "# taken\n",
];

/// The last book where the write of this number fails. A Stop is entered, behind the one of the order too.
const BOOKS: [&str; 5] = [
    "want 1 0 1 = taken\nstop 2 = taken\n",
    "stop 2 = taken\n",
    "stop 2 = taken\n",
    "stop 2 = taken\n",
    "stop 2 = taken\nstop 3 = taken\n",
];

#[test]
fn nothing_is_written_after_a_failed_write_and_a_stop_is_entered(
    rt: HostRuntime,
) -> Result<(), Fail> {
    let alloc = rt.alloc();
    for (failing, book) in BOOKS.iter().enumerate() {
        let bytes = Vec::from_slice(alloc, b"want 0 1\nroll\nstop\n")?;
        let writes = vec![in alloc; failing as u32]?;
        let session = follow(&rt, alloc, 2, bytes, Vec::new(alloc), writes)?;
        assert_eq!(rt; session.end, ConsoleEnd::WriteFault);
        let mut written = String::new(alloc);
        for piece in &PIECES[..failing] {
            written.push_str(piece)?;
        }
        assert_eq!(rt; str::from_utf8(&session.written)?, written.as_str());
        assert_eq!(rt; str::from_utf8(&session.book)?, *book);
    }
    Ok(())
}

/// The room, the lines, the number of the read that fails, and what is written and in the book then.
const FAILED_READS: [(u32, &str, u32, &str, &str); 4] = [
    (2, "status\n", 0, "", "stop 1 = taken\n"),
    (
        2,
        "status\nsto",
        1,
        STATUS,
        "tick 1 = total 1200000\nstop 2 = taken\n",
    ),
    (1, "status\n", 1, STATUS, "tick 1 = total 1200000\n"),
    (
        1,
        "cap 1\nx\n",
        1,
        "# cap out 1200000 10000000\n# bad line 2\n",
        "cap 1 1 = capout 1200000 10000000\n",
    ),
];

#[test]
fn whole_lines_are_done_before_the_input_is_read_on(rt: HostRuntime) -> Result<(), Fail> {
    let alloc = rt.alloc();
    for (room, lines, failing, written, book) in FAILED_READS {
        let bytes = Vec::from_slice(alloc, lines.as_bytes())?;
        let reads = vec![in alloc; failing]?;
        let session = follow(&rt, alloc, room, bytes, reads, Vec::new(alloc))?;
        assert_eq!(rt; session.end, ConsoleEnd::ReadFault);
        assert_eq!(rt; str::from_utf8(&session.written)?, written);
        assert_eq!(rt; str::from_utf8(&session.book)?, book);
    }
    Ok(())
}

/// How a console ends, and what it writes, over an input of so many bytes: a long line, and a stop at its end.
const LENGTHS: [(usize, ConsoleEnd, &str); 3] = [
    (1_048_575, ConsoleEnd::Stopped, "# bad line 1\n# taken\n"),
    (1_048_576, ConsoleEnd::Stopped, "# bad line 1\n# taken\n"),
    (1_048_577, ConsoleEnd::Ended, "# bad line 1\n# bad line 2\n"),
];

#[test]
fn no_more_than_its_limit_is_read(rt: HostRuntime) -> Result<(), Fail> {
    let alloc = rt.alloc();
    for (length, end, written) in LENGTHS {
        let mut bytes = vec![in alloc; b'x'; length - 5]?;
        bytes.extend_from_slice(b"\nstop")?;
        let session = follow(&rt, alloc, 1, bytes, Vec::new(alloc), Vec::new(alloc))?;
        assert_eq!(rt; session.end, end);
        assert_eq!(rt; str::from_utf8(&session.written)?, written);
    }
    Ok(())
}
