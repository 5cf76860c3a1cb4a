// The calls of field, ring, lanes and hashes, by the shape of their arguments.
use crate::arguments::{Item, MOST_NUMBERS, Output};
use crate::question::Question;
use crate::{arguments, tell};
use refusals::Refusal;

// A field call's values stand in the places of the first two seeds.
// Stays: `rt` and the question stand side by side; a struct of them would be taken apart by the first line of each.
pub fn one_value<F: Fn(u64) -> Result<u64, Refusal>>(rt: &HostRuntime, q: &Question, call: F)
    requires { F.IsAlwaysCallable call }
{
    tell::given(rt, call(q.first.seed));
}

pub fn two_values<F: Fn(u64, u64) -> Result<u64, Refusal>>(rt: &HostRuntime, q: &Question, call: F)
    requires { F.IsAlwaysCallable call }
{
    tell::given(rt, call(q.first.seed, q.second.seed));
}

// Numbers in place.
#[inline(never)]
pub fn in_place<F: Fn(&mut [u64]) -> Result<(), Refusal>>(rt: &HostRuntime, q: &Question, call: F)
    requires { F.IsAlwaysCallable call }
{
    let array = arguments::coefficients(q, 1, q.first.seed, MOST_NUMBERS);
    let mut array = Output::new(array, q.first.numbers());
    let answer = array.lend(call);
    tell::filled(rt, answer, &array);
}

// Numbers from numbers.
#[inline(never)]
pub fn operands<F: Fn(&[u64], &[u64], &mut [u64]) -> Result<(), Refusal>>(
    rt: &HostRuntime,
    q: &Question,
    call: F,
)
    requires { F.IsAlwaysCallable call }
{
    let lhs = arguments::coefficients(q, 1, q.first.seed, q.first.numbers());
    let rhs = arguments::coefficients(q, 2, q.second.seed, q.second.numbers());
    let mut out = u64::output(q.third);
    let answer = out.lend(|out| call(&lhs, &rhs, out));
    tell::filled(rt, answer, &out);
}

// Numbers from bytes.
#[inline(never)]
pub fn numbers_from_bytes<F: Fn(&[u8], &mut [u64]) -> Result<(), Refusal>>(
    rt: &HostRuntime,
    q: &Question,
    call: F,
)
    requires { F.IsAlwaysCallable call }
{
    let bytes = arguments::bytes(q.first);
    let mut out = u64::output(q.second);
    let answer = out.lend(|out| call(&bytes, out));
    tell::filled(rt, answer, &out);
}

// Bytes from bytes.
// Stays: apart from the numbers, as a function for both would ask that an array of items of any type has room.
#[inline(never)]
pub fn bytes_from_bytes<F: Fn(&[u8], &mut [u8]) -> Result<(), Refusal>>(
    rt: &HostRuntime,
    q: &Question,
    call: F,
)
    requires { F.IsAlwaysCallable call }
{
    let bytes = arguments::bytes(q.first);
    let mut out = u8::output(q.second);
    let answer = out.lend(|out| call(&bytes, out));
    tell::filled(rt, answer, &out);
}

// One number from bytes.
#[inline(never)]
pub fn coefficient(rt: &HostRuntime, q: &Question) {
    let randomness = arguments::bytes(q.first);
    tell::given(
        rt,
        galmuriec::message_lanes::sample_short_bfield_element(&randomness),
    );
}

// Bytes from numbers.
#[inline(never)]
pub fn extraction(rt: &HostRuntime, q: &Question) {
    let embedding = arguments::coefficients(q, 1, q.first.seed, q.first.numbers());
    let mut out = u8::output(q.second);
    let answer = out.lend(|out| galmuriec::message_lanes::extract_msg(&embedding, out));
    tell::filled(rt, answer, &out);
}
