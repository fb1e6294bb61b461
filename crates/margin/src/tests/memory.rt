//! Streams that give and take little at a time, and fail.
use std::io;
use std::io::{ErrorKind, Read, Write};

/// Gives its bytes piece by piece, and behind them an error where it has one. Each other call is
/// interrupted.
#[derive(Drop)]
pub struct Feed<'a> {
    pub left: &'a [u8],
    pub piece: usize,
    pub error: Option<ErrorKind>,
    pub given: usize,
    pub is_interrupted: bool,
}

impl<'a> Feed<'a> {
    pub fn new(left: &'a [u8], piece: usize) -> Feed<'a> {
        Feed {
            left,
            piece,
            error: None,
            given: 0,
            is_interrupted: false,
        }
    }
}

impl Read for Feed<'_> {
    fn read(&mut self, buf: &mut [u8]) -> io::Result<usize> {
        self.is_interrupted = !self.is_interrupted;
        if self.is_interrupted {
            return Err(ErrorKind::Interrupted.into());
        }
        let len = buf.len().min(self.piece).min(self.left.len());
        if let (0, Some(error)) = (len, self.error) {
            return Err(error.into());
        }
        let (front, rest) = self.left.split_at(len);
        buf[..len].copy_from_slice(front);
        self.left = rest;
        self.given = self.given.saturating_add(len);
        Ok(len)
    }
}

/// Takes bytes piece by piece as long as it has room, and then is closed. Each other call is
/// interrupted.
#[derive(Drop)]
pub struct Tray {
    pub taken: Vec<u8>,
    pub room: usize,
    pub piece: usize,
    pub is_interrupted: bool,
}

impl Write for Tray {
    fn write(&mut self, buf: &[u8]) -> io::Result<usize> {
        self.is_interrupted = !self.is_interrupted;
        if self.is_interrupted {
            return Err(ErrorKind::Interrupted.into());
        }
        let len = buf.len().min(self.piece).min(self.room);
        if len == 0 {
            return Err(ErrorKind::BrokenPipe.into());
        }
        self.taken.extend_from_slice(&buf[..len])?;
        self.room -= len;
        Ok(len)
    }

    fn flush(&mut self) -> io::Result<()> {
        Ok(())
    }
}
