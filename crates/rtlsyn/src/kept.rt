//! A reader and a writer that keep what passes, for what is told of an error afterwards.

use std::alloc::Global;
use std::io::{self, Read, Write};

/// A reader, and the bytes that it gave, where they are to be kept and there was memory for them.
#[derive(Drop)]
pub(crate) struct Kept<R: Read> {
    reader: R,
    bytes: Vec<u8>,
    keeps: bool,
}

impl<R: Read> Kept<R> {
    /// The reader, whose bytes are kept or not.
    pub(crate) fn make(alloc: Global, reader: R, keeps: bool) -> Kept<R> {
        Kept {
            reader,
            bytes: Vec::new(alloc),
            keeps,
        }
    }

    /// The bytes that it gave, where they were kept.
    pub(crate) fn held(&self) -> Option<&[u8]> {
        if self.keeps {
            Some(self.bytes.as_slice())
        } else {
            None
        }
    }

    /// Keeps these bytes too. Without memory for them nothing is kept from here on.
    fn keep(&mut self, bytes: &[u8]) {
        if self.keeps && self.bytes.extend_from_slice(bytes).is_err() {
            self.keeps = false;
            self.bytes.clear();
        }
    }
}

impl<R: Read> Read for Kept<R> {
    fn read(&mut self, buf: &mut [u8]) -> io::Result<usize> {
        let count = self.reader.read(buf)?;
        self.keep(&buf[..count]);
        Ok(count)
    }
}

/// A writer, and the first piece that it was given: all of an error's line, unless names in it are longer than a piece.
#[derive(Drop)]
pub(crate) struct Heard<W: Write> {
    writer: W,
    first: Vec<u8>,
}

impl<W: Write> Heard<W> {
    /// The writer, which was given nothing.
    pub(crate) fn make(alloc: Global, writer: W) -> Heard<W> {
        Heard {
            writer,
            first: Vec::new(alloc),
        }
    }

    /// The first piece. It is empty where there was no memory for it.
    pub(crate) fn first(&self) -> &[u8] {
        self.first.as_slice()
    }

    /// Keeps the piece, where it is the first.
    fn hear(&mut self, piece: &[u8]) {
        if self.first.is_empty() && self.first.extend_from_slice(piece).is_err() {
            self.first.clear();
        }
    }
}

impl<W: Write> Write for Heard<W> {
    fn write(&mut self, buf: &[u8]) -> io::Result<usize> {
        let count = self.writer.write(buf)?;
        self.hear(&buf[..count]);
        Ok(count)
    }

    fn flush(&mut self) -> io::Result<()> {
        self.writer.flush()
    }
}
