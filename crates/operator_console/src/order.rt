//! The orders of an operator.
ghost use Rattle.operator_console.specs.declared.order.Order.{Order as Spelled};
ghost use Rattle.std.specs.Prelude.{◌≡◌, ◌<◌, ◌≤◌, ◌^◌, ◌++◌, ℕ, Some, IfNone, IfSome, codes};
ghost use Rattle.std.specs.Fmt.{decimal};
ghost use Rattle.operator_console.specs.Orders.{IsInRange, IsOrder, order_line};

use crate::finding::parts_at;
use itoa::Buffer;

/// The greatest wish and the greatest cap, in mW.
const MW_MAX: u64 = 100_000_000_000_000;

const _: () = prove!(MW_MAX == 100_000_000_000_000);

/// An order of an operator.
#[derive(Clone, Copy, Debug, PartialEq, Eq)]
pub enum Order {
    /// Shows the total, and what each inverter may aim at.
    Status,
    /// Wishes this limit for an inverter.
    Want {
        /// Its number from 0.
        inverter: u8,
        /// In mW.
        mw: u64,
    },
    /// Stops the plant and ends the console.
    Stop,
    /// Changes the cap of the plant.
    Cap {
        /// In mW.
        mw: u64,
    },
    /// Ends the book and goes on with an empty one.
    Roll,
}

/// The number that a text is: decimal, without a sign or a leading zero.
fn text_number(text: &str) -> Option<u64>
    ensures some { IfSome result (λ number. (text.now ≡ decimal number) × (number < 2 ^ 64)) }
    ensures none { IfNone result ((number : ℕ) → number < 2 ^ 64 → text.now ≡ decimal number → ⊥) }
{
    let Ok(number) = text.parse::<u64>() else {
        return None;
    };
    if Buffer::new().format(number) == text {
        Some(number)
    } else {
        None
    }
}

/// The number that a word is.
fn number_of(word: &[u8]) -> Option<u64>
    ensures some { IfSome result (λ number. (word.now ≡ decimal number) × (number < 2 ^ 64)) }
    ensures none { IfNone result ((number : ℕ) → number < 2 ^ 64 → word.now ≡ decimal number → ⊥) }
{
    match str::from_utf8(word) {
        Ok(text) => text_number(text),
        Err(_) => None,
    }
}

/// The order of a cap that this word is.
fn cap_of(word: &[u8]) -> Option<Order>
    ensures some { IfSome result (λ order. (mw : ℕ) × (order ≡ Order.Cap mw)
        × (mw ≤ 10 ^ 14) × (word.now ≡ decimal mw)) }
    ensures exact { (mw : ℕ) → mw ≤ 10 ^ 14 → word.now ≡ decimal mw → result ≡ Some (Order.Cap mw) }
{
    match number_of(word) {
        Some(mw) if mw <= MW_MAX => Some(Order::Cap { mw }),
        _ => None,
    }
}

/// The order of a wish that these words are: an inverter of so many and its limit.
fn want_of(words: &[u8], inverters: u32) -> Option<Order>
    requires { inverters ≤ 64 }
    ensures some { IfSome result (λ order. (inverter : ℕ) × (mw : ℕ) × (order ≡ Order.Want inverter mw)
        × (inverter < inverters) × (mw ≤ 10 ^ 14) × (words.now ≡ decimal inverter ++ codes " " ++ decimal mw)) }
    ensures exact { (inverter mw : ℕ) → inverter < inverters → mw ≤ 10 ^ 14
        → words.now ≡ decimal inverter ++ codes " " ++ decimal mw → result ≡ Some (Order.Want inverter mw) }
{
    let (inverter, mw) = parts_at(words, b' ')?;
    match (number_of(inverter), number_of(mw)) {
        (Some(inverter), Some(mw)) if inverter < u64::from(inverters) && mw <= MW_MAX => {
            Some(Order::Want {
                inverter: inverter as u8,
                mw,
            })
        }
        _ => None,
    }
}

/// The order of one word alone that a line is.
fn word_of(line: &[u8]) -> Option<Order>
    ensures some { IfSome result (λ order. line.now ≡ order_line order) }
    ensures status { line.now ≡ codes "status" → result ≡ Some Order.Status }
    ensures stop { line.now ≡ codes "stop" → result ≡ Some Order.Stop }
    ensures roll { line.now ≡ codes "roll" → result ≡ Some Order.Roll }
    ensures plain { (inverters : ℕ) → IfSome result (λ order. IsInRange inverters order) }
{
    match line {
        b"status" => Some(Order::Status),
        b"stop" => Some(Order::Stop),
        b"roll" => Some(Order::Roll),
        _ => None,
    }
}

/// The order that a line spells, to a plant of so many inverters: `status`, `want I MW`, `stop`, `cap MW` or `roll`,
/// with I from 0 to below the count of inverters and MW from 0 to 10^14, in mW. Its numbers have no sign and no
/// leading zero.
pub fn order_of(line: &[u8], inverters: u32) -> Option<Order>
    requires { inverters ≤ 64 }
    ensures right { IfSome result (λ order. IsOrder inverters line.now order) }
    ensures exact { (order : Spelled) → IsOrder inverters line.now order → result ≡ Some order }
{
    if let Some(words) = line.strip_prefix(b"want ") {
        return want_of(words, inverters);
    }
    if let Some(word) = line.strip_prefix(b"cap ") {
        return cap_of(word);
    }
    word_of(line)
}
