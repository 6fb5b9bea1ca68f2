use std::io::{Read, Write};
use world_traits::{ReadFailed, Sink, Source, WriteFailed};

/// A reader of the system as a source. It counts its faults.
#[derive(Drop)]
pub struct Input<R> {
    reader: R,
    faults: u64,
}

impl<R> Input<R> {
    pub fn new(reader: R) -> Self {
        Input { reader, faults: 0 }
    }
}

impl<R: Read> Source for Input<R> {
    ghost left = { λ s. R.remaining s.reader };

    ghost faults = { λ s. s.faults };

    fn read(&mut self, into: &mut [u8]) -> Result<usize, ReadFailed> {
        match self.reader.read(into) {
            Ok(count) => Ok(count),
            Err(_) => {
                self.faults = self.faults.saturating_add(1);
                Err(ReadFailed)
            }
        }
    }
}

/// A writer of the system as a sink. It counts its faults; a write that takes nothing of a piece that isn't
/// empty is one too.
#[derive(Drop)]
pub struct Output<W> {
    writer: W,
    faults: u64,
    late: u64,
}

impl<W> Output<W> {
    pub fn new(writer: W) -> Self {
        Output {
            writer,
            faults: 0,
            late: 0,
        }
    }
}

impl<W: Write> Sink for Output<W> {
    ghost taken = { λ s. W.contents s.writer };

    ghost faults = { λ s. s.faults };

    ghost late = { λ s. s.late };

    fn write(&mut self, bytes: &[u8]) -> Result<usize, WriteFailed> {
        match self.writer.write(bytes) {
            Ok(count) if count > 0 || bytes.is_empty() => {
                if self.faults > 0 {
                    self.late = self.late.saturating_add(1);
                }
                Ok(count)
            }
            _ => {
                self.faults = self.faults.saturating_add(1);
                Err(WriteFailed)
            }
        }
    }
}
