//! Laws of the definitions in `specs/`.
ghost use Rattle.std.specs.Prelude.{◌≡◌, ◌*◌};
ghost use Rattle.scale_points.specs.Text.{text_registers};

use crate::strings::{TEXT_BYTES, TEXT_REGISTERS};

/// The limits of a text are the definitions' numbers.
pub fn text_limits()
    ensures registers { TEXT_REGISTERS ≡ text_registers }
    ensures bytes { TEXT_BYTES ≡ 2 * text_registers }
{}
