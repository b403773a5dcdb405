// What is written: a line for each run, and a last line. Bytes wait in a space that the caller lends, and go out when it is full.
use dump_runs::Run;
use std::fmt::Display;
use std::io;
use std::io::Write;

// Bytes on their way to standard output: the first len of the space wait. Fixed memory that is lent, so that a listing needs no heap.
#[derive(Drop)]
pub struct Waiting<'a, 'b, R> {
    rt: &'a R,
    space: &'b mut [u8],
    len: usize,
}

impl<'a, 'b, R: Print> Waiting<'a, 'b, R> {
    // Nothing waits.
    pub fn new(rt: &'a R, space: &'b mut [u8]) -> Waiting<'a, 'b, R> {
        Waiting { rt, space, len: 0 }
    }
}

impl<'a, 'b, R: Print> Write for Waiting<'a, 'b, R> {
    fn write(&mut self, bytes: &[u8]) -> io::Result<usize> {
        self.write_all(bytes)?;
        Ok(bytes.len())
    }

    // What waits goes out first where the bytes do not fit beside it.
    fn write_all(&mut self, bytes: &[u8]) -> io::Result<()> {
        if self.space.len().saturating_sub(self.len) < bytes.len() {
            self.flush()?;
        }
        let end = self.len.saturating_add(bytes.len());
        let Some(room) = self.space.get_mut(self.len..end) else {
            return Err(io::Error::from(io::ErrorKind::WriteZero));
        };
        room.copy_from_slice(bytes);
        self.len = end;
        Ok(())
    }

    fn flush(&mut self) -> io::Result<()> {
        let rt = self.rt;
        let n = self.len;
        self.len = 0;
        let waiting = self.space.get(..n).unwrap_or_default();
        rt.write_all(waiting)
    }
}

// Where the lines go, and how many runs and bytes of runs were listed so far.
#[derive(Drop)]
pub struct Listing<W> {
    out: W,
    runs: u64,
    bytes: u64,
}

impl<W: Write> Listing<W> {
    // Nothing is listed yet.
    pub fn new(out: W) -> Listing<W> {
        Listing {
            out,
            runs: 0,
            bytes: 0,
        }
    }

    // Writes where a run starts, its digits as one piece: a write that fails in mid-listing cuts between pieces.
    fn address(&mut self, start: u64) -> io::Result<()> {
        let mut digits = [0u8; 16];
        let mut rest: &mut [u8] = &mut digits;
        write!(rest, "{start:08x}")?;
        let n = 16usize.saturating_sub(rest.len());
        self.out.write_all(b"start 0x")?;
        self.out.write_all(&digits[..n])
    }

    // Writes a run's line: its start, its length, the index of each block that it meets, and a note.
    pub fn run(&mut self, run: Run, note: &str) -> io::Result<()> {
        let Run { start, len } = run;
        self.address(start)?;
        write!(self.out, " length {len} blocks")?;
        let met = run.blocks_met();
        for k in met.first..met.first + met.count {
            write!(self.out, " {k}")?;
        }
        self.runs = self.runs.wrapping_add(1);
        self.bytes = self.bytes.wrapping_add(len);
        writeln!(self.out, "{note}")
    }

    // Writes the last line of a listing that is whole; so many bytes are equal if no run was listed.
    pub fn verdict(&mut self, equal: u64) -> io::Result<()> {
        let Listing { runs, bytes, .. } = *self;
        if runs == 0 {
            writeln!(self.out, "equal: bytes {equal}")
        } else {
            writeln!(self.out, "differ: runs {runs}, bytes {bytes}")
        }
    }

    // Writes the last line of a listing that is not whole, as one piece.
    pub fn error<E: Display>(&mut self, why: &E) -> io::Result<()> {
        let mut line = [0u8; 128];
        let mut rest: &mut [u8] = &mut line;
        writeln!(rest, "error: {why}")?;
        let n = 128usize.saturating_sub(rest.len());
        self.out.write_all(&line[..n])
    }

    // Writes what waits.
    pub fn flush(&mut self) -> io::Result<()> {
        self.out.flush()
    }
}
