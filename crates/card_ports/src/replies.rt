// Replies that wait until more is read, so that many are written at once. Over a writer whose bytes clauses see, they show those and,
// behind them, the ones that wait.
ghost use Rattle.std.specs.Prelude.{◌≡◌, [], IfOk};
ghost use Rattle.std.specs.Io.Buffered.{writer_contents};
ghost use Rattle.std.specs.Io.KnownBytes.{append_known};

use std::alloc::Global;
use std::cell::RefCell;
use std::io::{self, BufWriter, Error, ErrorKind, Read, Write};

/// Replies on their way to a writer of std: so many bytes of them may be kept back. After an error none is taken any more.
#[derive(Drop)]
pub struct Replies<W: Write + Drop> {
    writer: BufWriter<W>,
    failed: bool,
}

impl<W: Write + Drop> Replies<W> {
    /// No reply yet, and room for so many bytes; with 0 each reply is written at once. An error means that memory ran out.
    pub fn new(alloc: Global, writer: W, room: usize) -> io::Result<Replies<W>>
        ensures { IfOk result (λ r. writer_contents W.contents r.writer ≡ append_known (W.contents writer) []) }
    {
        let writer = BufWriter::with_capacity(alloc, room, writer)?;
        Ok(Replies {
            writer,
            failed: false,
        })
    }
}

impl<W: Write + Drop> Write for Replies<W> {
    ghost use Rattle.std.specs.Prelude.{◌≡◌, [], OnOk};
    ghost use Rattle.std.specs.Io.Buffered.{writer_buffer, writer_contents};
    ghost use Rattle.std.specs.Io.KnownBytes.{Keeps};

    ghost contents = { λ r. writer_contents W.contents r.writer };

    fn write(&mut self, bytes: &[u8]) -> io::Result<usize> {
        if self.failed {
            return Err(Error::from(ErrorKind::BrokenPipe));
        }
        let written = self.writer.write(bytes);
        self.failed = written.is_err();
        written
    }

    fn flush(&mut self) -> io::Result<()>
        ensures bytes { Keeps (writer_contents W.contents self.old.writer) (writer_contents W.contents self.new.writer) }
        ensures ok { OnOk result (writer_buffer self.new.writer ≡ []) }
    {
        if self.failed {
            return Err(Error::from(ErrorKind::BrokenPipe));
        }
        let written = self.writer.flush();
        self.failed = written.is_err();
        written
    }
}

/// A writer that is lent. It fails while it is being written to elsewhere.
#[derive(Drop)]
pub struct Lent<'a, W: Write> {
    to: &'a RefCell<W>,
}

impl<'a, W: Write> Lent<'a, W> {
    /// What is written goes there.
    pub fn new(to: &'a RefCell<W>) -> Lent<'a, W> {
        Lent { to }
    }
}

impl<'a, W: Write> Write for Lent<'a, W> {
    fn write(&mut self, bytes: &[u8]) -> io::Result<usize> {
        match self.to.try_borrow_mut() {
            Ok(mut writer) => writer.write(bytes),
            Err(_) => Err(Error::from(ErrorKind::WouldBlock)),
        }
    }

    fn flush(&mut self) -> io::Result<()> {
        match self.to.try_borrow_mut() {
            Ok(mut writer) => writer.flush(),
            Err(_) => Err(Error::from(ErrorKind::WouldBlock)),
        }
    }
}

/// A reader that has replies written out before it waits for more. Where they can't be written, it reads all the same, and the
/// next reply fails.
#[derive(Drop)]
pub struct Asking<'a, R: Read, W: Write> {
    reader: R,
    replies: Lent<'a, W>,
}

impl<'a, R: Read, W: Write> Asking<'a, R, W> {
    /// Reads from this reader.
    pub fn new(reader: R, replies: &'a RefCell<W>) -> Asking<'a, R, W> {
        Asking {
            reader,
            replies: Lent::new(replies),
        }
    }
}

impl<'a, R: Read, W: Write> Read for Asking<'a, R, W> {
    fn read(&mut self, buf: &mut [u8]) -> io::Result<usize> {
        let _ = self.replies.flush();
        self.reader.read(buf)
    }
}
