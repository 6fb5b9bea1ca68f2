ghost use Rattle.std.specs.Prelude.{◌≡◌, ◌↔◌, IsTrue, true, MatchOption};
ghost use Rattle.script_text.specs.Reading.{Gives, row_at};
ghost use Rattle.one_life_script.specs.Rows.{BeginsWith, ThreeFound, SpellsNoThree, is_plain, three_at};

use script_text::number::{after, end, next};

/// Whether the row at the front begins with a text.
#[inline]
pub fn begins_with(bytes: &[u8], text: &[u8]) -> bool
    requires { is_plain text.now ≡ true }
    ensures { IsTrue result ↔ BeginsWith text.now (row_at bytes.now) }
{
    after(bytes, text).is_some()
}

/// The three numbers behind a text at the front, and the bytes behind their row.
#[tactic(auto, unfolding(crate::specs::Rows::three_at))]
fn read_three<'a>(bytes: &'a [u8], text: &[u8]) -> Option<((u64, u64, u64), &'a [u8])>
    ensures { Gives result (three_at text.now bytes.now) }
{
    let rest = after(bytes, text)?;
    let (a, rest) = next(rest)?;
    let (b, rest) = next(rest)?;
    let (c, rest) = next(rest)?;
    Some(((a, b, c), end(rest)?))
}

/// The three numbers of the row at the front, where it spells the text and these, and the bytes behind it. A number
/// above 2^64 - 1 is read as that.
pub fn three_numbers<'a>(bytes: &'a [u8], text: &[u8]) -> Option<((u64, u64, u64), &'a [u8])>
    requires { is_plain text.now ≡ true }
    ensures { MatchOption result
        (SpellsNoThree text.now bytes.now)
        (λ found. ThreeFound text.now bytes.now found.0.0 found.0.1 found.0.2 found.1.now) }
{
    read_three(bytes, text)
}
