use std::io::Read;
use std::rt::Files;
use std::{fs, io};

/// A file of the system as a reader. It is opened at the first read, so a pipe that nobody reads keeps nobody waiting.
/// Where it can't be opened, the read fails.
#[derive(Drop)]
pub struct Opened<'p, R: Files> {
    rt: R,
    path: &'p str,
    file: Option<R::File>,
}

impl<'p, R: Files> Opened<'p, R> {
    /// The file at a path.
    pub fn at(rt: R, path: &'p str) -> Self {
        Opened {
            rt,
            path,
            file: None,
        }
    }

    /// The file, opened where it isn't yet.
    fn file(&mut self) -> io::Result<R::File> {
        match self.file.take() {
            Some(file) => Ok(file),
            None => fs::open(&self.rt, self.path),
        }
    }
}

impl<'p, R: Files> Read for Opened<'p, R> {
    fn read(&mut self, into: &mut [u8]) -> io::Result<usize> {
        let mut file = self.file()?;
        let count = file.read(into);
        self.file = Some(file);
        count
    }
}
