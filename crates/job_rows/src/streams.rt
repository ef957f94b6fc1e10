//! Readers and writers that fail, that take little at once, and that hold back what isn't flushed.
use std::io::{self, ErrorKind, Read, Write};

/// Gives one byte a call, and fails at the call of this number, from 0 on.
#[derive(Drop)]
pub struct Failing<'a> {
    pub bytes: &'a [u8],
    pub calls: usize,
}

impl Read for Failing<'_> {
    fn read(&mut self, buf: &mut [u8]) -> io::Result<usize> {
        if self.calls == 0 || buf.is_empty() {
            return Err(io::Error::from(ErrorKind::Other));
        }
        self.calls -= 1;
        self.bytes.read(&mut buf[..1])
    }
}

/// Takes so many bytes a call, up to so many in all, and then fails.
#[derive(Drop)]
pub struct Limited {
    pub held: Vec<u8>,
    pub piece: usize,
    pub room: usize,
}

impl Write for Limited {
    fn write(&mut self, buf: &[u8]) -> io::Result<usize> {
        if self.held.len() >= self.room {
            return Err(io::Error::from(ErrorKind::Other));
        }
        let count = buf.len().min(self.piece).min(self.room - self.held.len());
        self.held.extend_from_slice(&buf[..count])?;
        Ok(count)
    }

    fn flush(&mut self) -> io::Result<()> {
        Ok(())
    }
}

/// Gives on what it holds only where it is flushed, which fails if it is to.
#[derive(Drop)]
pub struct Holding {
    pub held: Vec<u8>,
    pub out: Vec<u8>,
    pub fails: bool,
}

impl Holding {
    /// What it has given on.
    pub fn into_text(self) -> Vec<u8> {
        drop(self.held);
        self.out
    }
}

impl Write for Holding {
    fn write(&mut self, buf: &[u8]) -> io::Result<usize> {
        self.held.extend_from_slice(buf)?;
        Ok(buf.len())
    }

    fn flush(&mut self) -> io::Result<()> {
        if self.fails {
            return Err(io::Error::from(ErrorKind::Other));
        }
        self.out.extend_from_slice(self.held.as_slice())?;
        self.held.clear();
        Ok(())
    }
}
