// Lines of questions and answers, as the test programs read and write them: numbers as 16 hexadecimal digits in lower case. What cannot be read
// is as the end of the input, and what cannot be written is lost: what holds a program to its answers sees that they are not all there.
#![tactic(auto)]

ghost use Rattle.std.specs.Prelude.{◌≡◌, ◌<◌, ◌≤◌, length};
ghost use Rattle.field.specs.Field.{P, Coefficients};

use field::BFieldElement;
use std::fmt;
use std::fmt::Display;
use std::io::Read;

// ---- questions
// What a hexadecimal digit in lower case stands for; any other byte counts as 0.
// Stays: `char::to_digit` and `from_str_radix` take upper case too, and the programs answer on every input as they did.
pub fn digit(byte: u8) -> u64
    ensures { result < 16 }
{
    match byte {
        b'0'..=b'9' => u64::from(byte - b'0'),
        b'a'..=b'f' => u64::from(byte - b'a' + 10),
        _ => 0,
    }
}

// The number that digits stand for, at most 16 of them.
fn number(digits: &[u8]) -> u64 {
    digits.iter().fold(0, |x, d| x << 4 | digit(*d))
}

// Reads until buf is full, the input ends or a read fails, and says how many bytes now stand at the front of buf.
pub fn read_full(rt: &HostRuntime, buf: &mut [u8]) -> usize
    ensures within { result ≤ length buf.old }
    ensures kept { length buf.new ≡ length buf.old }
{
    let mut input = rt.stdin();
    let mut done = 0;
    // Stays: the index is the count that the clause `within` speaks of, so a slice that shrinks would not save it.
    while done < buf.len() {
        match input.read(&mut buf[done..]) {
            Ok(0) | Err(_) => break,
            Ok(n) => done += n,
        }
    }
    done
}

// The name of the next question; None, as for a name of four zero bytes, where the input ends before it.
pub fn read_name(rt: &HostRuntime) -> Option<[u8; 4]> {
    let mut name = [0u8; 4];
    if read_full(rt, &mut name) < 4 || name == [0u8; 4] {
        return None;
    }
    Some(name)
}

// A space and n digits, as a number.
pub fn read_digits(rt: &HostRuntime, n: usize) -> u64
    requires { n ≤ 16 }
{
    let mut part = [0u8; 17];
    read_full(rt, &mut part[..n + 1]);
    number(&part[1..n + 1])
}

// An operand as a canonical number.
fn read_coefficient(rt: &HostRuntime) -> u64
    ensures { result < P }
{
    read_digits(rt, 16) % BFieldElement::P
}

// As many operands as out has room for.
pub fn read_numbers(rt: &HostRuntime, out: &mut [u64])
    ensures { Coefficients (length out.old) out.new }
{
    for x in out.iter_mut() {
        *x = read_coefficient(rt);
    }
}

// The byte of two digits.
pub fn byte(high: u8, low: u8) -> u8 {
    (digit(high) * 16 + digit(low)) as u8
}

// As many bytes as out has room for, eight to an operand, the first the highest.
pub fn read_bytes(rt: &HostRuntime, out: &mut [u8])
    ensures { length out.new ≡ length out.old }
{
    for eight in out.chunks_mut(8) {
        let mut part = [0u8; 17];
        read_full(rt, &mut part);
        let (pairs, _) = part[1..].as_chunks::<2>();
        for (to, pair) in eight.iter_mut().zip(pairs) {
            *to = byte(pair[0], pair[1]);
        }
    }
}

// The question's end; false where the input ends before it.
pub fn read_end(rt: &HostRuntime) -> bool {
    let mut end = [0u8; 1];
    read_full(rt, &mut end) == 1
}

// ---- answers
// Numbers of 16 digits, a space between two.
#[derive(Clone, Copy)]
pub struct Numbers<'a>(pub &'a [u64]);

impl Display for Numbers<'_> {
    fn fmt<W: fmt::Write>(&self, f: &mut fmt::Formatter<W>) -> fmt::Result {
        for (i, x) in self.0.iter().enumerate() {
            if 0 < i {
                f.write_str(" ")?;
            }
            write!(f, "{x:016x}")?;
        }
        Ok(())
    }
}

// Bytes of two digits, as one run.
#[derive(Clone, Copy)]
pub struct Run<'a>(pub &'a [u8]);

impl Display for Run<'_> {
    fn fmt<W: fmt::Write>(&self, f: &mut fmt::Formatter<W>) -> fmt::Result {
        for x in self.0 {
            write!(f, "{x:02x}")?;
        }
        Ok(())
    }
}

// Bytes of two digits, eight to a number.
#[derive(Clone, Copy)]
pub struct Bytes<'a>(pub &'a [u8]);

impl Display for Bytes<'_> {
    fn fmt<W: fmt::Write>(&self, f: &mut fmt::Formatter<W>) -> fmt::Result {
        for (i, eight) in self.0.chunks(8).enumerate() {
            if 0 < i {
                f.write_str(" ")?;
            }
            write!(f, "{}", Run(eight))?;
        }
        Ok(())
    }
}

// A part of an answer's line.
pub fn put<D: Display + Drop>(rt: &HostRuntime, part: D) {
    let _ = print!(rt; "{part}");
}

// An answer's line, or what is left of it.
pub fn tell<D: Display + Drop>(rt: &HostRuntime, answer: D) {
    let _ = println!(rt; "{answer}");
}
