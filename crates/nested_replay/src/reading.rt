ghost use Rattle.std.specs.Prelude.{◌≡◌};
ghost use Rattle.script_text.specs.declared.line.Line.TheVariants as lines;
ghost use Rattle.script_text.specs.Reader.{AreLast};
ghost use Rattle.nested_replay.specs.Playing.{IsCall, IsReading, NextCall};

use plant_book::Call;
use script_text::{Line, Lines};

/// The call of a line that is one.
fn call_of(line: Line) -> Call
    requires { IsCall line }
    ensures { line ≡ lines.One result }
{
    match line {
        Line::One(call) => call,
        Line::Restart(_) | Line::Roll => unreachable!(),
    }
}

/// Reads the next call of a script of one life, or finds its end.
pub fn next_call(lines: &mut Lines<'_>) -> Option<Call>
    requires { IsReading lines.old }
    ensures { NextCall lines.old lines.new result }
{
    match lines.next_line() {
        Ok(None) => None,
        Ok(Some(line)) => Some(call_of(line)),
        Err(_) => unreachable!(),
    }
}

/// Reads the lines that are left of a script of one life.
pub fn read_rest(lines: &mut Lines<'_>)
    requires { IsReading lines.old }
    ensures { AreLast lines.old }
{
    if script_text::judge_rest(lines).is_err() {
        unreachable!()
    }
}
