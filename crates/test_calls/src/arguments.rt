// What an argument holds: draws from a seed, and the places that the question sets. An output holds draws too, so that whether it was kept is seen
// beside them.
ghost use Rattle.std.specs.Prelude.{◌≡◌, ◌<◌, ◌≤◌, length, min};
ghost use Rattle.arrayvec.specs.ArrayVec.{array_vec_len};

use crate::question::{Argument, Question};
use arrayvec::ArrayVec;
use field::BFieldElement;
use test_lines::Run;

// No question lends more numbers.
pub const MOST_NUMBERS: usize = 1025;

// No question lends more bytes.
pub const MOST_BYTES: usize = 9217;

// Both lie in the value itself, so that no run stops for want of memory.
// What holds them is not inlined, as else the frame of main would have room for all of them at once.
pub type Numbers = ArrayVec<u64, MOST_NUMBERS>;

pub type Bytes = ArrayVec<u8, MOST_BYTES>;

impl Argument {
    pub fn numbers(self) -> usize
        ensures { result ≤ MOST_NUMBERS }
    {
        self.length % (MOST_NUMBERS + 1)
    }

    pub fn bytes(self) -> usize
        ensures { result ≤ MOST_BYTES }
    {
        self.length % (MOST_BYTES + 1)
    }
}

fn draw(x: u64) -> u64 {
    let a = x ^ (x << 13);
    let b = a ^ (a >> 7);
    b ^ (b << 17)
}

// Gives the last draw, from which a public key goes on.
pub fn draw_bytes(out: &mut [u8], seed: u64) -> u64
    ensures { length out.new ≡ length out.old }
{
    let mut x = seed;
    for byte in out.iter_mut() {
        x = draw(x);
        *byte = (x % 256) as u8;
    }
    x
}

// As many bytes as the argument has.
#[inline(never)]
pub fn bytes(argument: Argument) -> Bytes {
    let mut out = Bytes::new();
    resize(&mut out, argument.bytes());
    draw_bytes(&mut out, argument.seed);
    out
}

fn numbers(seed: u64, below: u64, n: usize) -> Numbers
    requires { 0 < below }
    ensures { array_vec_len result ≡ min n MOST_NUMBERS }
{
    let mut out = Numbers::new();
    let _ = out.try_extend_from_slice(&[0; MOST_NUMBERS][..n.min(MOST_NUMBERS)]);
    let mut x = seed;
    for number in out.iter_mut() {
        x = draw(x);
        *number = x % below;
    }
    out
}

// The places that the question sets in one of its arguments, each to the item of its value.
pub fn amend<T: Copy + Drop, F: Fn(u64) -> T>(items: &mut [T], q: &Question, argument: u64, item: F)
    requires { F.IsAlwaysCallable item }
{
    for place in q.places {
        if place.argument == argument && place.index < items.len() {
            items[place.index] = item(place.value);
        }
    }
}

// An argument of n coefficients, of which no more than an argument's have room.
#[inline(never)]
pub fn coefficients(q: &Question, argument: u64, seed: u64, n: usize) -> Numbers
    ensures { array_vec_len result ≡ min n MOST_NUMBERS }
{
    let mut out = numbers(seed, BFieldElement::P, n);
    amend(&mut out, q, argument, |x| x);
    out
}

// The bytes of numbers, which have room.
pub fn packed(numbers: &[u64]) -> Bytes {
    let mut out = Bytes::new();
    for number in numbers {
        let _ = out.try_extend_from_slice(&number.to_le_bytes());
    }
    out
}

// Cut to n bytes, or with zeros behind.
pub fn resize(bytes: &mut Bytes, n: usize) {
    bytes.truncate(n);
    let zeros = n.saturating_sub(bytes.len()).min(MOST_BYTES);
    let _ = bytes.try_extend_from_slice(&[0; MOST_BYTES][..zeros]);
}

// An output: a call is lent its front, of `size` items. What stands behind is there to be seen kept.
#[derive(Drop)]
pub struct Output<T, const N: usize> {
    before: ArrayVec<T, N>,
    held: ArrayVec<T, N>,
    size: usize,
}

impl<T: Copy + Default + Drop + PartialEq, const N: usize> Output<T, N> {
    pub fn new(held: ArrayVec<T, N>, size: usize) -> Output<T, N> {
        let mut before = ArrayVec::new();
        let _ = before.try_extend_from_slice(&held);
        Output { before, held, size }
    }

    fn lent(&self) -> usize
        ensures { result ≤ array_vec_len self.now.held }
    {
        self.size.min(self.held.len())
    }

    pub fn front(&self) -> &[T] {
        &self.held[..self.lent()]
    }

    // Whether all from the item `from` on is as it was.
    pub fn is_kept(&self, from: usize) -> bool {
        self.held.get(from..) == self.before.get(from..)
    }

    pub fn lend<R, F: FnOnce(&mut [T]) -> R>(&mut self, call: F) -> R
        requires { F.IsAlwaysCallable call }
    {
        let n = self.lent();
        call(&mut self.held[..n])
    }

    // Lends another output's front too.
    pub fn lend_both<
        U: Copy + Default + Drop + PartialEq,
        const M: usize,
        R,
        F: FnOnce(&mut [T], &mut [U]) -> R,
    >(&mut self, other: &mut Output<U, M>, call: F) -> R
        requires { F.IsAlwaysCallable call }
    {
        let m = self.lent();
        let n = other.lent();
        call(&mut self.held[..m], &mut other.held[..n])
    }
}

// What an output of N items holds: bytes or numbers.
pub trait Item<const N: usize>: Copy + Default + Drop + PartialEq {
    fn output(argument: Argument) -> Output<Self, N>;

    // As an answer shows what was lent.
    fn put(rt: &HostRuntime, items: &[Self]);
}

impl Item<MOST_BYTES> for u8 {
    #[inline(never)]
    fn output(argument: Argument) -> Output<u8, MOST_BYTES> {
        let mut held = Bytes::from([0; MOST_BYTES]);
        draw_bytes(&mut held, argument.seed);
        Output::new(held, argument.bytes())
    }

    fn put(rt: &HostRuntime, items: &[u8]) {
        test_lines::put(rt, format_args!(" {}", Run(items)));
    }
}

impl Item<MOST_NUMBERS> for u64 {
    // Its numbers may be anything.
    #[inline(never)]
    fn output(argument: Argument) -> Output<u64, MOST_NUMBERS> {
        let held = numbers(argument.seed, u64::MAX, MOST_NUMBERS);
        Output::new(held, argument.numbers())
    }

    fn put(rt: &HostRuntime, items: &[u64]) {
        for x in items {
            test_lines::put(rt, format_args!(" {x:016x}"));
        }
    }
}
