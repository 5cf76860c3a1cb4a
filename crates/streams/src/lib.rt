// All bytes from a reader or to a writer, for programs: a read that fails is told apart from the end of the input, and a write that takes only
// a part is continued. Every function returns if each call of the reader, the writer or the clock does, whatever it answers.
#![tactic(auto)]

ghost use Rattle.std.specs.Prelude.{◌≡◌, ◌<◌, length, IfOk};
ghost use Rattle.streams.specs.Counts.{Within, Whole};

use std::error::Error;
use std::io::{Cursor, ErrorKind, Read, Write};
use std::rt::Clock;
use std::time::Duration;
use std::{fmt, io, thread};

// How often a call is made again before a byte moves. With a pause before each, that is some ten seconds.
pub const TRIES: u32 = 1000;

// Ten milliseconds, in nanoseconds.
const PAUSE: u32 = 10_000_000;

// What stopped reading or writing: an error of the system, or that TRIES calls moved nothing.
#[derive(Clone, Copy, Debug)]
pub enum Stopped {
    Failed(io::Error),
    Waited,
}

impl From<io::Error> for Stopped {
    ghost use Rattle.std.specs.Prelude.{◌≡◌};
    ghost use Rattle.streams.specs.declared.Stopped.TheVariants.{Failed};

    ghost from_gives = { λ e r. r ≡ Failed e };

    fn from(e: io::Error) -> Self {
        Stopped::Failed(e)
    }
}

// The system's text for an error: std writes the error's number behind it.
fn without_number(text: &str) -> &str {
    match text.rsplit_once(" (os error ") {
        Some((before, _)) => before,
        None => text,
    }
}

impl fmt::Display for Stopped {
    fn fmt<W: fmt::Write>(&self, f: &mut fmt::Formatter<W>) -> fmt::Result {
        match self {
            Stopped::Failed(error) => {
                let mut line = Cursor::new([0u8; 128]);
                let _ = write!(line, "{error}");
                let size = line.position().min(128) as usize;
                let bytes = line.into_inner();
                let text = std::str::from_utf8(&bytes[..size]).unwrap_or("");
                f.write_str(without_number(text))
            }
            Stopped::Waited => write!(f, "not ready in {TRIES} tries"),
        }
    }
}

impl Error for Stopped {}

// Gives the error back, unless the call that failed so is made again: at once where a signal came between, after a pause where nothing is ready yet.
fn pass_over<C: Clock>(clock: &C, error: io::Error) -> io::Result<()> {
    match error.kind() {
        ErrorKind::WouldBlock => thread::sleep(clock, Duration::new(0, PAUSE)),
        ErrorKind::Interrupted => {}
        _ => return Err(error),
    }
    Ok(())
}

// One read, made again where the system says so: at least one byte, or 0 at the end of the input.
fn read_some<C: Clock, R: Read>(clock: &C, input: &mut R, buf: &mut [u8]) -> Result<usize, Stopped>
    ensures { Within (length buf.old) result }
{
    for _ in 0..TRIES {
        match input.read(buf) {
            Ok(n) => return Ok(n),
            Err(error) => pass_over(clock, error)?,
        }
    }
    Err(Stopped::Waited)
}

// Reads until the input ends or buf is full, and says how many bytes now stand at the front of buf.
pub fn read_all<C: Clock, R: Read>(
    clock: &C,
    input: &mut R,
    buf: &mut [u8],
) -> Result<usize, Stopped>
    ensures { (length buf.new ≡ length buf.old) × Within (length buf.old) result }
{
    let mut done = 0;
    // Stays: the index is the count that the clause `Within` speaks of, so a slice that shrinks would not save it.
    while done < buf.len() {
        let n = read_some(clock, input, &mut buf[done..])?;
        if n == 0 {
            break;
        }
        done += n;
    }
    Ok(done)
}

// One write, made again where the system says so or takes nothing.
// Stays: in `read_some` 0 is an answer and here it is not; one function for both takes a closure, which promises no bound by the buffer.
fn write_some<C: Clock, W: Write>(clock: &C, output: &mut W, buf: &[u8]) -> Result<usize, Stopped>
    ensures some { IfOk result (λ n. 0 < n) }
    ensures within { Within (length buf.now) result }
{
    for _ in 0..TRIES {
        match output.write(buf) {
            Ok(0) => pass_over(clock, io::Error::from(ErrorKind::WouldBlock))?,
            Ok(n) => return Ok(n),
            Err(error) => pass_over(clock, error)?,
        }
    }
    Err(Stopped::Waited)
}

// Writes all of buf, or says why not; a part of it may then have been written.
pub fn write_all<C: Clock, W: Write>(
    clock: &C,
    output: &mut W,
    buf: &[u8],
) -> Result<usize, Stopped>
    ensures { Whole (length buf.now) result }
{
    let mut done = 0;
    // Stays: the index is the count that the clause `Whole` speaks of; with a slice that shrinks the answer would count nothing.
    while done < buf.len() {
        done += write_some(clock, output, &buf[done..])?;
    }
    Ok(done)
}
