use crate::line::LineKind;

/// Why bytes are no script.
#[derive(Clone, Copy, Debug, PartialEq, Eq)]
pub enum ScriptFault {
    /// The first bad line.
    BadLine {
        /// Its number, from 1.
        line: u32,
        /// How it is at fault.
        kind: LineKind,
    },
    /// Memory ran out.
    NoMemory,
}
