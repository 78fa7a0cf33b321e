//! A writer each of whose writes is tried once, also by a buffer in front of it.
ghost use Rattle.std.specs.Prelude.{◌≢◌, IfErr};
ghost use Rattle.std.specs.Io.{WritesAtMost};
ghost use Rattle.std.specs.Io.KnownBytes.{WriteAppends};
ghost use Rattle.std.specs.IoError.{error_kind};

use std::io::{Error, ErrorKind, Result, Write};

/// A writer over another one. No error of its writes says `Interrupted`: a buffer tries such a write again.
#[derive(Drop)]
pub struct OneTry<W> {
    /// The other one.
    pub writer: W,
}

impl<W: Write> Write for OneTry<W> {
    ghost contents = { λ t. W.contents t.writer };

    fn write(&mut self, buf: &[u8]) -> Result<usize>
        ensures bound { WritesAtMost result buf.now }
        ensures bytes { WriteAppends (W.contents self.old.writer) (W.contents self.new.writer) result buf.now }
        ensures once { IfErr result (λ error. error_kind error ≢ ErrorKind.Interrupted) }
    {
        match self.writer.write(buf) {
            Ok(count) => Ok(count),
            Err(_) => Err(Error::from(ErrorKind::Other)),
        }
    }

    fn flush(&mut self) -> Result<()> {
        self.writer.flush()
    }
}
