//! Points of a text.
ghost use Rattle.std.specs.Prelude.{◌≡◌, ◌*◌, ◌≤◌, ◌==◌, length, position, SomeIff};
ghost use Rattle.std.specs.Option.{option_map};
ghost use Rattle.std.specs.Str.{IsAscii};
ghost use Rattle.scale_points.specs.Text.{text_registers, bytes_of, up_to_zero, text_at, HasText};

use arrayvec::{ArrayString, ArrayVec};

/// How many registers a text may have.
pub const TEXT_REGISTERS: usize = 32;

/// How many bytes those registers have, and so a text at most.
pub const TEXT_BYTES: usize = 2 * TEXT_REGISTERS;

/// The text in the `count` registers from offset `at` on: their bytes, the high one of each register
/// first, up to the first zero byte. None where they reach past the end, are more than
/// `TEXT_REGISTERS`, or have a byte above 127 in the text.
pub fn text(regs: &[u16], at: usize, count: usize) -> Option<ArrayString<TEXT_BYTES>>
    ensures { SomeIff (option_map (λ text. text.bytes) result)
        (HasText regs.now at count) (text_at regs.now at count) }
{
    if count > TEXT_REGISTERS {
        return None;
    }
    let bytes = register_bytes(regs.get(at..at.checked_add(count)?)?);
    ascii_text(up_to_zero(&bytes))
}

/// The bytes of the registers, the high one of each first.
fn register_bytes(regs: &[u16]) -> ArrayVec<u8, TEXT_BYTES>
    requires { length regs.now ≤ text_registers }
    ensures { result.items ≡ bytes_of regs.now }
{
    let mut bytes = ArrayVec::new();
    for register in regs {
        let [high, low] = register.to_be_bytes();
        bytes.push(high);
        bytes.push(low);
    }
    bytes
}

/// The place of the first zero byte.
fn first_zero(bytes: &[u8]) -> Option<usize>
    ensures { result ≡ position (λ byte. byte == 0) bytes.now }
{
    bytes.iter().position(|&byte| byte == 0)
}

/// The bytes before the first zero byte, or all where there is none.
fn up_to_zero(bytes: &[u8]) -> &[u8]
    ensures { result.now ≡ up_to_zero bytes.now }
{
    match first_zero(bytes) {
        Some(end) => &bytes[..end],
        None => bytes,
    }
}

/// The bytes as a text. None where one is above 127.
fn ascii_text(bytes: &[u8]) -> Option<ArrayString<TEXT_BYTES>>
    requires { length bytes.now ≤ 2 * text_registers }
    ensures { SomeIff (option_map (λ text. text.bytes) result) (IsAscii bytes.now) bytes.now }
{
    if !bytes.is_ascii() {
        return None;
    }
    match str::from_utf8(bytes) {
        Ok(text) => ArrayString::from(text).ok(),
        Err(_) => None,
    }
}
