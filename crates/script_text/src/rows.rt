ghost use Rattle.std.specs.Prelude.{◌≡◌, ◌↔◌, IsTrue, ◌+◌, ◌^◌, ◌<◌, ◌≤◌, List, length};
ghost use Rattle.script_text.specs.Grammar.{Statement, IsComment};
ghost use Rattle.script_text.specs.Reading.{row_at};
ghost use Rattle.script_text.specs.Progress.{IsAt, IsNextRow, IsFew};

use crate::fields::Fields;
use crate::number::behind_row;
use crate::reading::read_fields;

/// The rows of a script that are still to be read.
#[derive(Clone, Copy)]
pub struct Rows<'a> {
    /// All bytes of the script.
    pub whole: &'a [u8],
    /// The bytes from the next row on.
    pub rest: &'a [u8],
    /// The number of the next row, from 1.
    pub number: u32,
}

/// What is at the front of the rows.
#[derive(Clone, Copy)]
pub enum Row<'a> {
    /// No row: this would be its number.
    End(u32),
    /// A row of this number that is no line.
    Bad(u32),
    /// The numbers of a line, and the rows behind it.
    Said(Fields, Rows<'a>),
}

/// Whether the row at the front is a comment.
#[inline(always)]
fn is_comment(bytes: &[u8]) -> bool
    ensures { IsTrue result ↔ IsComment (row_at bytes.now) }
{
    match bytes {
        [first, ..] => *first == b'#',
        [] => false,
    }
}

/// The rows from the first one on that is no comment.
#[inline(always)]
fn past_comments(rows: Rows<'_>) -> Rows<'_>
    requires { rows.number + length rows.rest.now < 2 ^ 32 }
    ensures few { result.number + length result.rest.now < 2 ^ 32 }
    ensures whole { result.whole.now ≡ rows.entry.whole.now }
    ensures shorter { length result.rest.now ≤ length rows.entry.rest.now }
    ensures number { rows.entry.number ≤ result.number }
    ensures goes_on { (before : List Statement) → IsAt rows.entry before → IsAt result before }
    ensures no_comment { IsComment (row_at result.rest.now) → ⊥ }
{
    let Rows {
        whole,
        mut rest,
        mut number,
    } = rows;
    while is_comment(rest) {
        rest = behind_row(rest);
        number += 1;
    }
    Rows {
        whole,
        rest,
        number,
    }
}

/// What is at the front of the rows, comments left out.
#[inline(always)]
pub fn next_row(rows: Rows<'_>) -> Row<'_>
    requires { rows.number + length rows.rest.now < 2 ^ 32 }
    ensures next { IsNextRow rows.entry result }
    ensures few { IsFew result }
{
    let rows = past_comments(rows);
    if rows.rest.is_empty() {
        return Row::End(rows.number);
    }
    match read_fields(rows.rest) {
        None => Row::Bad(rows.number),
        Some((fields, rest)) => Row::Said(
            fields,
            Rows {
                whole: rows.whole,
                rest,
                number: rows.number + 1,
            },
        ),
    }
}
