ghost use Rattle.std.specs.Prelude.{◌≡◌, ◌↔◌, IsTrue, ℕ, ◌^◌, ◌<◌, ◌≤◌, List, length, MatchOption, MatchResult};
ghost use Rattle.std.specs.Str.Lines.{lines};
ghost use Rattle.script_text.specs.declared.script.TheConstants.{SCRIPT_BYTES_MAX};
ghost use Rattle.script_text.specs.Reading.{row_at};
ghost use Rattle.one_life_script.specs.OneLife.{EndsBook, EndNoBook, EndsBookFirst, IsJudged, HasOneLife, IsBadOneLife};

use crate::rows::begins_with;
use script_text::number::behind_row;
use script_text::{LineKind, SCRIPT_BYTES_MAX, ScriptFault, SiteSize, site_size};

/// Whether the row at the front ends a book.
fn ends_book(bytes: &[u8]) -> bool
    ensures { IsTrue result ↔ EndsBook (row_at bytes.now) }
{
    begins_with(bytes, b"restart") || begins_with(bytes, b"roll")
}

/// The number, from 1, of the first row that ends a book, if one does.
fn first_end(bytes: &[u8]) -> Option<u32>
    requires { length bytes.now ≤ SCRIPT_BYTES_MAX }
    ensures { MatchOption result
        (EndNoBook (lines bytes.now))
        (λ number. EndsBookFirst bytes.now number) }
{
    let mut rest = bytes;
    let mut number = 1;
    while !rest.is_empty() {
        if ends_book(rest) {
            return Some(number);
        }
        rest = behind_row(rest);
        number += 1;
    }
    None
}

/// The first of two bad lines: of the row of this number that ends a book, and of the script as it was judged without
/// that. The end of the book comes first where both are one line.
fn first_of(end: u32, judged: Result<SiteSize, ScriptFault>) -> ScriptFault
    ensures { (bytes : List ℕ) → EndsBookFirst bytes end → IsJudged bytes judged → IsBadOneLife result bytes }
{
    match judged {
        Err(ScriptFault::BadLine { line, kind }) if line < end => {
            ScriptFault::BadLine { line, kind }
        }
        _ => ScriptFault::BadLine {
            line: end,
            kind: LineKind::Form,
        },
    }
}

/// The size of the site of a script of one life, or its first bad line, numbered from 1. The whole script is judged, and
/// no memory is taken.
pub fn one_life(bytes: &[u8]) -> Result<SiteSize, ScriptFault>
    requires { length bytes.now ≤ SCRIPT_BYTES_MAX }
    ensures { MatchResult result (λ size. HasOneLife bytes.now size) (λ fault. IsBadOneLife fault bytes.now) }
{
    let judged = site_size(bytes);
    match first_end(bytes) {
        None => judged,
        Some(end) => Err(first_of(end, judged)),
    }
}
