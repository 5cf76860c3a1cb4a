// Refusals: what a call says when it says no, the steps that decide it, and one judging function for each shape of an argument list, for any
// sizes. docs/SCHEME.md, "When a call says no"; which call has which arguments is the table specs/Asks.
#![tactic(auto)]

ghost use Rattle.std.specs.Prelude.{◌≡◌, [], ◌∷◌, nat_le, position};
ghost use Rattle.field.specs.Field.{P};
ghost use Rattle.codec.specs.Layout.{words};
ghost use Rattle.laws.specs.Choices.{pick};
ghost use Rattle.refusals.specs.Arguments.{value, numbers, packed, room, at_most};
ghost use Rattle.refusals.specs.Judgement.{sign, no_fault, as_fault, unless, placed, fine, canonicals, blame};
ghost use Rattle.refusals.specs.Answers.{said, paper, Judges};

use field::BFieldElement;
use std::error::Error;
use std::fmt;

// Why a call says no. Arguments are counted from 1, inputs before outputs.
#[derive(Clone, Copy, Debug, PartialEq, Eq)]
pub enum Refusal {
    // The argument has not an allowed length.
    Length(u8),
    // The argument has a coefficient of p or more, the first one at this index.
    Coefficient(u8, u64),
    // The regenerated ciphertext differs.
    Differs,
    // The inverse of 0 is asked.
    InverseOfZero,
    // No job of an allowed kind and length.
    NoJob,
}

// A refusal as docs/SCHEME.md writes it.
// Stays: `number` is no enum, since the C interface has it as a number (`galmuriec_refusal` of include/galmuriec.h, `entry` of galmuriec_c).
#[derive(Clone, Copy, Debug, PartialEq, Eq)]
pub struct Record {
    pub number: u8,
    pub argument: u8,
    pub place: u64,
}

fn plain(number: u8, argument: u8) -> Record
    ensures { sign result.number result.argument result.place ≡ sign number argument 0 }
{
    Record {
        number: number,
        argument: argument,
        place: 0,
    }
}

impl From<Refusal> for Record {
    ghost use Rattle.std.specs.Prelude.{◌≡◌};
    ghost use Rattle.refusals.specs.Judgement.{sign};
    ghost use Rattle.refusals.specs.Answers.{paper};

    ghost from_gives = { λ refusal r. sign r.number r.argument r.place ≡ paper refusal };

    fn from(refusal: Refusal) -> Record {
        match refusal {
            Refusal::Length(a) => plain(1, a),
            Refusal::Coefficient(a, i) => Record {
                number: 2,
                argument: a,
                place: i,
            },
            Refusal::Differs => plain(3, 0),
            Refusal::InverseOfZero => plain(4, 1),
            Refusal::NoJob => plain(5, 0),
        }
    }
}

impl fmt::Display for Refusal {
    ghost use Rattle.std.specs.Prelude.{Some};
    ghost use Rattle.refusals.specs.Answers.{paper, sentence};

    ghost output = { λ refusal. Some (sentence (paper refusal)) };

    fn fmt<W: fmt::Write>(&self, f: &mut fmt::Formatter<W>) -> fmt::Result {
        let r = Record::from(*self);
        write!(
            f,
            "refusal {}, argument {}, place {}",
            r.number, r.argument, r.place
        )
    }
}

impl Error for Refusal {}

// The index of the first number that is p or more.
fn first_bad(s: &[u64]) -> Option<usize>
    ensures { result ≡ position (λ x. nat_le P x) s.now }
{
    s.iter().position(|x| *x >= BFieldElement::P)
}

// The same for numbers in bytes.
fn first_bad_packed(s: &[u8]) -> Option<usize>
    ensures { result ≡ position (λ x. nat_le P x) (words s.now) }
{
    let (numbers, _) = s.as_chunks::<8>();
    numbers
        .iter()
        .position(|number| u64::from_le_bytes(*number) >= BFieldElement::P)
}

// ---- the steps of judging, in turn: the first refusal stays (`so_far` of proofs/Steps)
// A test that an argument must stand, or else this refusal.
#[tactic(auto, unfolding(crate::specs::Judgement::blame))]
pub fn unless(stands: bool, refusal: Refusal) -> Result<(), Refusal>
    ensures { said result ≡ blame (paper refusal).argument (pick stands no_fault (as_fault (paper refusal))) fine }
{
    if stands { Ok(()) } else { Err(refusal) }
}

// The length of an argument.
pub fn sized(argument: u8, fits: bool) -> Result<(), Refusal>
    ensures { said result ≡ blame argument (unless fits 1) fine }
{
    unless(fits, Refusal::Length(argument))
}

// The first bad coefficient of an argument, if it has one.
#[tactic(auto, unfolding(crate::specs::Judgement::blame))]
fn found(argument: u8, bad: Option<usize>) -> Result<(), Refusal>
    ensures { said result ≡ blame argument (placed bad) fine }
{
    match bad {
        Some(at) => Err(Refusal::Coefficient(argument, at as u64)),
        None => Ok(()),
    }
}

// A field value.
#[tactic(auto, unfolding(crate::specs::Arguments::fits, crate::specs::Arguments::coefficients))]
pub fn value(argument: u8, x: u64) -> Result<(), Refusal>
    ensures { said result ≡ blame argument (canonicals (value x)) fine }
{
    numbers(argument, &[x], 1)
}

// The coefficients of an argument that should have n.
pub fn numbers(argument: u8, s: &[u64], n: usize) -> Result<(), Refusal>
    ensures { said result ≡ blame argument (canonicals (numbers n s.now)) fine }
{
    if s.len() == n {
        found(argument, first_bad(s))
    } else {
        Ok(())
    }
}

// The coefficients of an argument that should have n bytes, the first of them at `start`.
pub fn packed(argument: u8, s: &[u8], n: usize, start: usize) -> Result<(), Refusal>
    ensures { said result ≡ blame argument (canonicals (packed n start s.now)) fine }
{
    if s.len() == n && start <= n {
        found(argument, first_bad_packed(&s[start..n]))
    } else {
        Ok(())
    }
}

// ---- one function for each shape of an argument list
// One field value.
#[tactic(auto, using(crate::proofs::Calls::steps), unfolding(crate::specs::Judgement::judged))]
pub fn judge_value(a: u64) -> Result<(), Refusal>
    ensures { Judges (value a ∷ []) result }
{
    value(1, a)
}

// Two field values.
#[tactic(auto, using(crate::proofs::Calls::steps), unfolding(crate::specs::Judgement::judged))]
pub fn judge_values(a: u64, b: u64) -> Result<(), Refusal>
    ensures { Judges (value a ∷ value b ∷ []) result }
{
    value(1, a)?;
    value(2, b)
}

// One slice of n coefficients, turned in place.
#[tactic(auto, using(crate::proofs::Calls::steps), unfolding(crate::specs::Judgement::judged))]
pub fn judge_array(array: &[u64], n: usize) -> Result<(), Refusal>
    ensures { Judges (numbers n array.now ∷ []) result }
{
    sized(1, array.len() == n)?;
    numbers(1, array, n)
}

// Two slices of l and m coefficients, and a buffer that has `size` and should have n.
// Stays: here and below a length and what it should be are two numbers; a struct of both makes each call longer, and no contract shorter.
#[tactic(auto, using(crate::proofs::Calls::steps), unfolding(crate::specs::Judgement::judged))]
pub fn judge_operands(
    lhs: &[u64],
    l: usize,
    rhs: &[u64],
    m: usize,
    size: usize,
    n: usize,
) -> Result<(), Refusal>
    ensures { Judges (numbers l lhs.now ∷ numbers m rhs.now ∷ room n size ∷ []) result }
{
    sized(1, lhs.len() == l)?;
    sized(2, rhs.len() == m)?;
    sized(3, size == n)?;
    numbers(1, lhs, l)?;
    numbers(2, rhs, m)
}

// One slice of l coefficients, and a buffer that has `size` and should have n.
#[tactic(auto, using(crate::proofs::Calls::steps), unfolding(crate::specs::Judgement::judged))]
pub fn judge_reading(from: &[u64], l: usize, size: usize, n: usize) -> Result<(), Refusal>
    ensures { Judges (numbers l from.now ∷ room n size ∷ []) result }
{
    sized(1, from.len() == l)?;
    sized(2, size == n)?;
    numbers(1, from, l)
}

// Bytes of which any will do: they number `given` and should be l.
#[tactic(auto, using(crate::proofs::Calls::steps), unfolding(crate::specs::Judgement::judged))]
pub fn judge_bytes(given: usize, l: usize) -> Result<(), Refusal>
    ensures { Judges (room l given ∷ []) result }
{
    sized(1, given == l)
}

// The same, and a buffer that has `size` and should have n.
#[tactic(auto, using(crate::proofs::Calls::steps), unfolding(crate::specs::Judgement::judged))]
pub fn judge_sampling(given: usize, l: usize, size: usize, n: usize) -> Result<(), Refusal>
    ensures { Judges (room l given ∷ room n size ∷ []) result }
{
    sized(1, given == l)?;
    sized(2, size == n)
}

// A message of at most l bytes, and an output of at most n.
// Stays: it differs from `judge_sampling` and `judge_digest` in `==` and `<=`; a comparison passed as a closure says less than these names.
#[tactic(auto, using(crate::proofs::Calls::steps), unfolding(crate::specs::Judgement::judged))]
pub fn judge_stream(given: usize, l: usize, size: usize, n: usize) -> Result<(), Refusal>
    ensures { Judges (at_most l given ∷ at_most n size ∷ []) result }
{
    sized(1, given <= l)?;
    sized(2, size <= n)
}

// A message of at most l bytes, and an output of n.
#[tactic(auto, using(crate::proofs::Calls::steps), unfolding(crate::specs::Judgement::judged))]
pub fn judge_digest(given: usize, l: usize, size: usize, n: usize) -> Result<(), Refusal>
    ensures { Judges (at_most l given ∷ room n size ∷ []) result }
{
    sized(1, given <= l)?;
    sized(2, size == n)
}
