// What the programs share that read files by name: opened, read to their end, told by name where that fails; and the question for help.
#![tactic(auto)]

ghost use Rattle.std.specs.Prelude.{◌≡◌, ◌≤◌, length, take, IfErr, IfOk};
ghost use Rattle.std.specs.Io.{ReadsAtMost};

use std::env::{Env, FillError};
use std::fmt::{Display, Formatter};
use std::io::{Error, ErrorKind, Read, Write};
use std::rt::Files;
use std::{fmt, fs, io};

// A file that could not be read to its end. So many bytes came before.
#[derive(Clone, Copy, Debug, PartialEq, Eq)]
pub struct Broken {
    pub len: usize,
}

impl Display for Broken {
    fn fmt<W: fmt::Write>(&self, f: &mut Formatter<W>) -> fmt::Result {
        let len = self.len;
        write!(f, "reading failed after {len} bytes")
    }
}

impl std::error::Error for Broken {}

// Reading that failed after so many bytes, and why.
#[derive(Debug, Drop)]
pub struct Cut {
    pub len: usize,
    pub why: Error,
}

// The system's reason, without its number, which std writes behind it.
fn words(text: &str) -> &str {
    text.split_once(" (os error ")
        .map_or(text, |(reason, _)| reason)
}

// Writes a line to standard error: what failed, a colon and the reason.
fn say<R: Eprint>(rt: &R, what: &[u8], reason: &str) {
    let _ = match str::from_utf8(what) {
        Ok(name) => eprintln!(rt; "{name}: {reason}"),
        Err(_) => eprintln!(rt; "{}: {reason}", what.escape_ascii()),
    };
}

// Writes a line to standard error: what failed, as the caller names it, a colon and the system's reason.
pub fn fail<R: Eprint>(rt: &R, what: &[u8], why: &Error) {
    // Fixed memory, since a caller has no allocator to lend.
    let mut room = [0u8; 256];
    let mut rest: &mut [u8] = &mut room;
    let _ = write!(rest, "{why}");
    let n = 256usize.saturating_sub(rest.len());
    say(
        rt,
        what,
        str::from_utf8(&room[..n]).map_or("no reason is known", words),
    );
}

// A file's name as std takes it: text, which a name of Linux need not be.
pub fn path(name: &[u8]) -> io::Result<&str> {
    str::from_utf8(name).map_err(|_| Error::new(ErrorKind::InvalidInput, "the name is not UTF-8"))
}

// Opens a file.
pub fn open_named<R: Files>(rt: &R, name: &[u8]) -> io::Result<R::File> {
    fs::open(rt, path(name)?)
}

// Opens a file that can be read: a directory opens and cannot.
fn open_to_read<R: Files>(rt: &R, name: &[u8]) -> io::Result<R::File> {
    let mut file = open_named(rt, name)?;
    file.read(&mut [])?;
    Ok(file)
}

// What came of a file. Or nothing, and its name and the system's reason go to standard error.
pub fn told<R: Eprint, T: Drop>(rt: &R, name: &[u8], outcome: io::Result<T>) -> Option<T> {
    outcome.inspect_err(|e| fail(rt, name, e)).ok()
}

// Opens a file that can be read. Or nothing, and its name and the system's reason go to standard error.
pub fn open<R: Files + Eprint>(rt: &R, name: &[u8]) -> Option<R::File> {
    told(rt, name, open_to_read(rt, name))
}

// Reads until the buffer is full or the file ends. If reading fails, the reason comes with how many bytes came before.
pub fn fill_or_cut<F: Read>(file: &mut F, buf: &mut [u8]) -> Result<usize, Cut>
    ensures ok { ReadsAtMost result buf.new }
    ensures bound { IfErr result (λ e. e.len ≤ length buf.new) }
{
    let mut n = 0;
    // A loop over read, since read_exact and read_to_end do not promise how many bytes came before an error.
    while n < buf.len() {
        match file.read(&mut buf[n..]) {
            Ok(0) => break,
            Ok(more) => n += more,
            Err(why) => return Err(Cut { len: n, why }),
        }
    }
    Ok(n)
}

// The same, and if reading fails, the file's name and the system's reason go to standard error.
pub fn fill<R: Eprint, F: Read>(
    rt: &R,
    file: &mut F,
    name: &[u8],
    buf: &mut [u8],
) -> Result<usize, Broken>
    ensures ok { ReadsAtMost result buf.new }
    ensures bound { IfErr result (λ e. e.len ≤ length buf.new) }
    ensures prefix { IfErr result (λ e. e.len ≡ length (take e.len buf.new)) }
{
    fill_or_cut(file, buf).map_err(|Cut { len, why }| {
        fail(rt, name, &why);
        Broken { len }
    })
}

// A file of at most as many bytes as the buffer has, or the first of them.
pub fn read<R: Files + Eprint>(rt: &R, name: &[u8], buf: &mut [u8]) -> Result<usize, Broken>
    ensures ok { ReadsAtMost result buf.new }
    ensures bound { IfErr result (λ e. e.len ≤ length buf.new) }
    ensures prefix { IfErr result (λ e. e.len ≡ length (take e.len buf.new)) }
{
    let mut file = open(rt, name).ok_or(Broken { len: 0 })?;
    fill(rt, &mut file, name, buf)
}

// Puts argument i at the start of the buffer, and gives it; the first is 1. It fails if there is none, or a longer one.
pub fn argument<'a, R: Env>(rt: &R, i: usize, buf: &'a mut [u8]) -> Result<&'a [u8], FillError>
    ensures { IfOk result (λ s. length s.now ≤ length buf.old) }
{
    let n = rt.arg(i, buf)?;
    Ok(&buf[..n])
}

// Whether there is no argument i.
pub fn is_missing<R: Env>(rt: &R, i: usize) -> bool {
    matches!(rt.arg(i, &mut []), Err(FillError::NotPresent))
}

// Whether an argument asks for help.
pub fn is_help(s: &[u8]) -> bool {
    s == b"--help".as_slice()
}
