use plant_book::Call;

/// A line of a script behind its head.
#[derive(Clone, Copy, Debug, PartialEq, Eq)]
pub enum Line {
    One(Call),
    /// The book ends, and the next life begins with an empty one at this moment in ms.
    Restart(u64),
    /// The book ends, and the life goes on with an empty one.
    Roll,
}

/// How a line of a script is at fault, in the order in which it is tried by the grammar.
#[derive(Clone, Copy, Debug, PartialEq, Eq)]
pub enum LineKind {
    /// It is no line of the grammar, or not at its place.
    Form,
    /// It names an inverter that the site lacks.
    Inverter,
    /// Its moment is below the one before.
    Time,
    /// A number of it is out of its range, or the points of an inverter are refused.
    Value,
}
