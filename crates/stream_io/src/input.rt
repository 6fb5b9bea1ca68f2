ghost use Rattle.std.specs.Prelude.{ℕ, ◌≤◌, List, IfErr, IfOk};
ghost use Rattle.stream_io.specs.Streams.{ReadsWhole, StopsReading, change};

use std::alloc::Global;
use world_traits::Source;

/// How many bytes are read at a time, at most.
const CHUNK: usize = 65_536;

/// Why an input was not read.
#[derive(Clone, Copy, Debug, PartialEq, Eq)]
pub enum InputFault {
    /// The source failed.
    Failed,
    /// The source gave a byte beyond the limit.
    TooLong,
    /// Memory ran out.
    NoMemory,
}

/// Reads a source of at most so many bytes to its end.
pub fn read_whole<S: Source>(
    alloc: Global,
    source: &mut S,
    limit: u32,
) -> Result<Vec<u8>, InputFault>
    ensures later { S.faults source.old ≤ S.faults source.new }
    ensures whole { IfOk result (λ bytes.
        ReadsWhole limit bytes.items (change S.left S.faults source.old source.new)) }
    ensures fault { IfErr result (λ fault.
        (read : List ℕ) × StopsReading fault limit read (change S.left S.faults source.old source.new)) }
{
    let mut bytes = Vec::new(alloc);
    let mut chunk = [0; CHUNK];
    for _ in 0..=limit {
        let Ok(count) = source.read(&mut chunk) else {
            return Err(InputFault::Failed);
        };
        if count == 0 {
            return Ok(bytes);
        }
        if bytes.len() + count > limit as usize {
            return Err(InputFault::TooLong);
        }
        if bytes.extend_from_slice(&chunk[..count]).is_err() {
            return Err(InputFault::NoMemory);
        }
    }
    unreachable!()
}
