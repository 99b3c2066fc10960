//! A writer that takes many short pieces, and knows whether it failed.
ghost use Rattle.std.specs.Prelude.{◌≡◌, [], true, false, IsOk, OnOk};
ghost use Rattle.std.specs.Io.KnownBytes.{Appends, Keeps, append_known};
ghost use Rattle.geos_shell.specs.Streams.{StopsWriting};

use geos_shell::Sink;
use std::alloc::Global;
use std::io::{self, ErrorKind, Write};

/// How many bytes are gathered at most, as of a `BufWriter`.
const MOST: usize = 8_192;

/// A sink, and whether the last write to it failed.
#[derive(Drop)]
pub struct Watched<W: Sink + Drop> {
    pub sink: W,
    pub failed: bool,
    pub ghost cause: { ∥ (failed ≡ true → StopsWriting W.writes sink) ∥₁ },
}

impl<W: Sink + Drop> Watched<W> {
    fn write(&mut self, bytes: &[u8]) -> io::Result<()>
        ensures bytes { OnOk result (Appends (W.contents self.old.sink) (W.contents self.new.sink) bytes.now) }
        ensures failed { self.new.failed ≡ false → IsOk result }
    {
        match self.sink.write_out(bytes) {
            Ok(()) => {
                self.failed = false;
                Ok(())
            }
            Err(_) => {
                self.failed = true;
                Err(io::Error::from(ErrorKind::Other))
            }
        }
    }
}

/// Gathers pieces, and writes them to a sink together. A `write_all` fails where a write to the sink does, or where
/// there is no memory to gather in: a `BufWriter` wouldn't tell which.
#[derive(Drop)]
pub struct Pieces<W: Sink + Drop> {
    watched: Watched<W>,
    gathered: Vec<u8>,
}

impl<W: Sink + Drop> Pieces<W> {
    pub fn new(alloc: Global, sink: W) -> Pieces<W>
        ensures sink { result.watched.sink ≡ sink }
        ensures gathered { result.gathered.items ≡ [] }
    {
        Pieces {
            watched: Watched {
                sink,
                failed: false,
            },
            gathered: Vec::new(alloc),
        }
    }

    /// The sink, once what is gathered went to it. Where the last write failed nothing more is written.
    pub fn finish(self) -> Watched<W>
        ensures { result.failed ≡ false
            → Keeps (append_known (W.contents self.watched.sink) self.gathered.items) (W.contents result.sink) }
    {
        let Pieces {
            mut watched,
            gathered,
        } = self;
        if !watched.failed {
            // `failed` says what became of it.
            let _ = watched.write(&gathered);
        }
        watched
    }

    fn send(&mut self) -> io::Result<()>
        ensures empty { OnOk result (self.new.gathered.items ≡ []) }
        ensures bytes { OnOk result (Appends (W.contents self.old.watched.sink) (W.contents self.new.watched.sink)
            self.old.gathered.items) }
    {
        self.watched.write(&self.gathered)?;
        self.gathered.clear();
        Ok(())
    }
}

impl<W: Sink + Drop> Write for Pieces<W> {
    ghost contents = { λ p. append_known (W.contents p.watched.sink) p.gathered.items };

    /// Gathers the bytes, however many there are.
    fn write(&mut self, buf: &[u8]) -> io::Result<usize> {
        self.gathered.extend_from_slice(buf)?;
        Ok(buf.len())
    }

    /// Nothing goes out before the buffer is full or `finish` is called.
    fn flush(&mut self) -> io::Result<()> {
        Ok(())
    }

    fn write_all(&mut self, buf: &[u8]) -> io::Result<()> {
        if buf.len() > MOST.saturating_sub(self.gathered.len()) {
            self.send()?;
        }
        if buf.len() > MOST {
            return self.watched.write(buf);
        }
        Ok(self.gathered.extend_from_slice(buf)?)
    }
}
