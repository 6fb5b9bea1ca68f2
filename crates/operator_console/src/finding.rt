//! Bytes in two parts.
ghost use Rattle.std.specs.Prelude.{◌≡◌, ◌++◌, ◌∷◌, MatchOption};
ghost use Rattle.std.specs.Str.Iter.{LacksByte};

/// What stands before the first such byte, and what behind it.
pub(crate) fn parts_at(bytes: &[u8], byte: u8) -> Option<(&[u8], &[u8])>
    ensures { MatchOption result (LacksByte byte bytes.now) (λ parts.
        (bytes.now ≡ parts.0.now ++ byte ∷ parts.1.now) × LacksByte byte parts.0.now) }
{
    match bytes.iter().position(|one| *one == byte) {
        Some(place) => Some((&bytes[..place], &bytes[place + 1..])),
        None => None,
    }
}
