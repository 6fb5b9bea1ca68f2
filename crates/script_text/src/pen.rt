ghost use Rattle.std.specs.Prelude.{◌≡◌, ◌≤◌, ◌+◌, ◌*◌, ◌∷◌, ◌++◌, [], length, codes};
ghost use Rattle.std.specs.Fmt.{decimal, signed_decimal};
ghost use Rattle.script_text.specs.Words.{spaced};
ghost use Rattle.script_text.specs.Lines.{tail_of};

use itoa::write_digits;

/// How many bytes a line takes at most.
pub const LINE_MAX: usize = 160;

const _: () = prove!(LINE_MAX == 160);

/// A line as it is written, from its last byte to its first.
#[derive(Drop)]
pub struct Pen {
    /// The line stands at the end of these bytes.
    bytes: [u8; LINE_MAX],
    /// Where it begins there.
    at: usize,
}

impl Pen {
    /// A line of nothing but its end.
    #[inline]
    pub fn new() -> Pen
        ensures line { tail_of result ≡ 10 ∷ [] }
        ensures room { result.at ≡ 159 }
    {
        Pen {
            bytes: [b'\n'; LINE_MAX],
            at: LINE_MAX - 1,
        }
    }

    /// The line so far.
    #[inline]
    pub fn line(&self) -> &[u8]
        requires { self.now.at ≤ 160 }
        ensures { result.now ≡ tail_of self.now }
    {
        &self.bytes[self.at..]
    }

    /// Writes a text before the line.
    #[inline(always)]
    pub fn text(&mut self, text: &[u8])
        requires room { length text.now ≤ self.old.at }
        requires within { self.old.at ≤ 160 }
        ensures line { tail_of self.new ≡ text.now ++ tail_of self.old }
        ensures room { self.new.at + length text.now ≡ self.old.at }
    {
        let start = self.at - text.len();
        self.bytes[start..self.at].copy_from_slice(text);
        self.at = start;
    }

    /// Writes a number before the line.
    #[inline(always)]
    pub fn number(&mut self, number: u64)
        requires room { 20 ≤ self.old.at }
        requires within { self.old.at ≤ 160 }
        ensures line { tail_of self.new ≡ decimal number ++ tail_of self.old }
        ensures room { self.old.at ≤ self.new.at + 20 }
        ensures within { self.new.at ≤ 160 }
    {
        self.at = write_digits(number, &mut self.bytes, self.at);
    }

    /// Writes a space and a number before the line.
    #[inline(always)]
    pub fn next(&mut self, number: u64)
        requires room { 21 ≤ self.old.at }
        requires within { self.old.at ≤ 160 }
        ensures line { tail_of self.new ≡ 32 ∷ (decimal number ++ tail_of self.old) }
        ensures room { self.old.at ≤ self.new.at + 21 }
        ensures within { self.new.at ≤ 160 }
    {
        self.number(number);
        self.text(b" ");
    }

    /// Writes a space and a number that may be below zero before the line.
    pub fn signed(&mut self, number: i8)
        requires room { 22 ≤ self.old.at }
        requires within { self.old.at ≤ 160 }
        ensures line { tail_of self.new ≡ 32 ∷ (signed_decimal number ++ tail_of self.old) }
        ensures room { self.old.at ≤ self.new.at + 22 }
        ensures within { self.new.at ≤ 160 }
    {
        self.number(u64::from(number.unsigned_abs()));
        if number < 0 {
            self.text(b" -");
        } else {
            self.text(b" ");
        }
    }

    /// Writes a word before the line.
    #[inline(always)]
    pub fn none(&mut self, word: &[u8])
        requires room { length word.now ≤ self.old.at }
        requires within { self.old.at ≤ 160 }
        ensures line { tail_of self.new ≡ spaced (word.now ∷ []) ++ tail_of self.old }
        ensures room { self.old.at ≤ self.new.at + length word.now }
        ensures within { self.new.at ≤ 160 }
    {
        self.text(word);
    }

    /// Writes a word and a number before the line.
    #[inline(always)]
    pub fn one(&mut self, word: &[u8], a: u64)
        requires room { length word.now + 21 ≤ self.old.at }
        requires within { self.old.at ≤ 160 }
        ensures line { tail_of self.new ≡ spaced (word.now ∷ decimal a ∷ []) ++ tail_of self.old }
        ensures room { self.old.at ≤ self.new.at + (length word.now + 21) }
        ensures within { self.new.at ≤ 160 }
    {
        self.next(a);
        self.text(word);
    }

    /// Writes a word and two numbers before the line.
    #[inline(always)]
    pub fn two(&mut self, word: &[u8], a: u64, b: u64)
        requires room { length word.now + 42 ≤ self.old.at }
        requires within { self.old.at ≤ 160 }
        ensures line { tail_of self.new ≡ spaced (word.now ∷ decimal a ∷ decimal b ∷ []) ++ tail_of self.old }
        ensures room { self.old.at ≤ self.new.at + (length word.now + 42) }
        ensures within { self.new.at ≤ 160 }
    {
        self.next(b);
        self.next(a);
        self.text(word);
    }

    /// Writes a word and three numbers before the line.
    #[inline(always)]
    pub fn three(&mut self, word: &[u8], a: u64, b: u64, c: u64)
        requires room { length word.now + 63 ≤ self.old.at }
        requires within { self.old.at ≤ 160 }
        ensures line { tail_of self.new
            ≡ spaced (word.now ∷ decimal a ∷ decimal b ∷ decimal c ∷ []) ++ tail_of self.old }
        ensures room { self.old.at ≤ self.new.at + (length word.now + 63) }
        ensures within { self.new.at ≤ 160 }
    {
        self.next(c);
        self.next(b);
        self.next(a);
        self.text(word);
    }

    /// Writes a word and four numbers before the line.
    #[inline(always)]
    pub fn four(&mut self, word: &[u8], a: u64, b: u64, c: u64, d: u64)
        requires room { length word.now + 84 ≤ self.old.at }
        requires within { self.old.at ≤ 160 }
        ensures line { tail_of self.new
            ≡ spaced (word.now ∷ decimal a ∷ decimal b ∷ decimal c ∷ decimal d ∷ []) ++ tail_of self.old }
        ensures room { self.old.at ≤ self.new.at + (length word.now + 84) }
        ensures within { self.new.at ≤ 160 }
    {
        self.next(d);
        self.next(c);
        self.next(b);
        self.next(a);
        self.text(word);
    }
}
