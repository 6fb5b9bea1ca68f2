ghost use Rattle.std.specs.Prelude.{◌≡◌, ◌≤◌, ◌+◌, ◌*◌, min, option_copied, Some};
ghost use Rattle.script_text.specs.Reading.{Gives, rest_after, behind_row, remark_at, end_at, feed_at};
ghost use Rattle.script_text.specs.Reading.{digits_at, number_at, next_at, negative_at, positive_at, signed_at, below_zero, policy_at};
ghost use Rattle.script_text.specs.Reading.{number_most, size_most};

use plant_book::Policy;

/// The greatest size of a number that may be below zero, as it is read.
const SIZE_MAX: u64 = 65_536;

/// Below it a number surely has room for one more digit.
const SHORT_END: u64 = 1_000_000_000_000_000_000;

/// The bytes behind a text at the front, or none where it doesn't stand there.
#[inline(always)]
pub fn after<'a>(bytes: &'a [u8], text: &[u8]) -> Option<&'a [u8]>
    ensures { option_copied result ≡ rest_after text.now bytes.now }
{
    bytes.strip_prefix(text)
}

/// The bytes behind the row at the front.
pub fn behind_row(bytes: &[u8]) -> &[u8]
    ensures { result.now ≡ behind_row bytes.now }
{
    for (i, byte) in bytes.iter().enumerate() {
        if *byte == b'\n' {
            return &bytes[i + 1..];
        }
    }
    &bytes[bytes.len()..]
}

/// The bytes behind the row, where nothing but spaces and a remark is left of it.
fn remark(bytes: &[u8]) -> Option<&[u8]>
    ensures { option_copied result ≡ remark_at bytes.now }
{
    for (i, byte) in bytes.iter().enumerate() {
        if *byte == b'=' {
            return Some(behind_row(&bytes[i + 1..]));
        }
        if *byte != b' ' {
            return None;
        }
    }
    None
}

/// The bytes behind the row and its end, LF or CR LF, where nothing is left of it but spaces and a remark from `=` on.
#[inline(always)]
pub fn end(bytes: &[u8]) -> Option<&[u8]>
    ensures { option_copied result ≡ end_at bytes.now }
{
    match bytes {
        [] => Some(bytes),
        [b'\n', rest @ ..] => Some(rest),
        [b'\r', b'\n', rest @ ..] => Some(rest),
        [b'\r', ..] => None,
        _ => remark(bytes),
    }
}

/// The number with one more digit behind its own.
#[inline(always)]
fn with_digit(number: u64, digit: u8) -> u64
    requires { digit ≤ 9 }
    ensures { result ≡ min (number * 10 + digit) number_most }
{
    if number < SHORT_END {
        return number * 10 + u64::from(digit);
    }
    number.saturating_mul(10).saturating_add(u64::from(digit))
}

/// The number of the digits at the front, behind those of a first number, and the bytes behind them.
#[tactic(auto, unfolding(crate::specs::Reading::digits_at))]
#[inline(always)]
fn digits(bytes: &[u8], first: u64) -> (u64, &[u8])
    ensures { digits_at number_most first bytes.now ≡ (result.0, result.1.now) }
{
    let mut number = first;
    for (i, byte) in bytes.iter().enumerate() {
        if *byte < b'0' || *byte > b'9' {
            return (number, &bytes[i..]);
        }
        number = with_digit(number, *byte - b'0');
    }
    (number, &bytes[bytes.len()..])
}

/// The number at the front, and the bytes behind it.
#[tactic(auto, unfolding(crate::specs::Reading::number_at))]
#[inline(always)]
fn number(bytes: &[u8]) -> Option<(u64, &[u8])>
    ensures { Gives result (number_at number_most bytes.now) }
{
    match bytes {
        [b'0', rest @ ..] => Some((0, rest)),
        [first @ b'1'..=b'9', rest @ ..] => Some(digits(rest, u64::from(*first - b'0'))),
        _ => None,
    }
}

/// The number behind a space, and the bytes behind it. A number above 2^64 - 1 is read as that.
#[tactic(auto, unfolding(crate::specs::Reading::next_at))]
#[inline(always)]
pub fn next(bytes: &[u8]) -> Option<(u64, &[u8])>
    ensures { Gives result (next_at number_most bytes.now) }
{
    match bytes {
        [b' ', rest @ ..] => number(rest),
        _ => None,
    }
}

/// The number below zero of this size, which isn't 0.
fn negated(size: u64) -> Option<i32>
    ensures { result ≡ below_zero size_most size }
{
    if size == 0 {
        return None;
    }
    Some(-(size.min(SIZE_MAX) as i32))
}

/// The number below zero whose size is at the front, and the bytes behind it.
fn negative(bytes: &[u8]) -> Option<(i32, &[u8])>
    ensures { Gives result (negative_at number_most size_most bytes.now) }
{
    let (size, rest) = number(bytes)?;
    Some((negated(size)?, rest))
}

/// The number without a sign behind a space, and the bytes behind it.
fn positive(bytes: &[u8]) -> Option<(i32, &[u8])>
    ensures { Gives result (positive_at number_most size_most bytes.now) }
{
    let (size, rest) = next(bytes)?;
    Some((size.min(SIZE_MAX) as i32, rest))
}

/// The number behind a space, perhaps with a minus sign, and the bytes behind it.
#[tactic(auto, unfolding(crate::specs::Reading::signed_at))]
pub(crate) fn signed(bytes: &[u8]) -> Option<(i32, &[u8])>
    ensures { Gives result (signed_at number_most size_most bytes.now) }
{
    if let Some(rest) = after(bytes, b" -") {
        return negative(rest);
    }
    positive(bytes)
}

/// The policy behind a space, and the bytes behind it.
#[tactic(auto, unfolding(crate::specs::Reading::policy_at))]
pub(crate) fn policy(bytes: &[u8]) -> Option<(Policy, &[u8])>
    ensures { Gives result (policy_at bytes.now) }
{
    if let Some(rest) = after(bytes, b" open") {
        return Some((Policy::Open, rest));
    }
    if let Some(rest) = after(bytes, b" fair") {
        return Some((Policy::Fair, rest));
    }
    None
}
