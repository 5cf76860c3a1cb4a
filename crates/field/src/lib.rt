// The prime field of order p = 2^64 - 2^32 + 1 of b_field_element.rs. An element is held as its Montgomery word, with R = 2^64.
#![tactic(auto)]

ghost use Rattle.std.specs.Prelude.{◌≡◌, ◌+◌, ◌-◌, ◌*◌, ◌/◌, ◌%◌, ◌^◌, ◌<◌, ◌≤◌};
ghost use Rattle.field.specs.Field.{P, reduced};
ghost use Rattle.field.specs.Element.{inverted};
ghost use Rattle.field.specs.Sums.{amount, carries};

use std::marker::Model;
use std::ops::{Add, Mul, Neg, Sub};

// What the high half of a number of 128 bits counts.
const HALF: u128 = 0x1_0000_0000_0000_0000;

// The product of two numbers of 64 bits.
fn product(a: u64, b: u64) -> u128
    ensures { result ≡ a * b }
{
    u128::from(a) * u128::from(b)
}

// The difference modulo p, for b at most p; it is canonical where a is. Taken by an `if` over both results, the borrow that the
// wrapping difference loses becomes one conditional move, also in the sum.
fn sub_lazy(a: u64, b: u64) -> u64
    requires { b ≤ P }
    ensures { (result % P ≡ (a + (P - b)) % P) × (a < P → result < P) }
{
    let (x, is_lost) = a.overflowing_sub(b);
    if is_lost {
        x.wrapping_add(BFieldElement::P)
    } else {
        x
    }
}

// The sum modulo p of any number and one of at most p, not canonical: 2^64, which a wrapping sum loses, is 2^32 - 1.
pub fn add_lazy(a: u64, b: u64) -> u64
    requires { b ≤ P }
    ensures { result % P ≡ (a + b) % P }
{
    let (x, is_lost) = a.overflowing_add(b);
    if is_lost {
        x.wrapping_add(0xffff_ffff)
    } else {
        x
    }
}

// The remainder modulo p: p is taken off once at most, as 2^64 is below 2p.
pub fn canonical(x: u64) -> u64
    ensures { (result ≡ x % P) × (result < P) }
{
    if x < BFieldElement::P {
        x
    } else {
        x - BFieldElement::P
    }
}

// Stays: numbers, here and below, with a `requires` and no type of their own, since C lends slices of u64 (`galmuriec_ring_add`).
pub fn sub_mod_p(a: u64, b: u64) -> u64
    requires { (a < P) × (b ≤ P) }
    ensures { (result ≡ (a + (P - b)) % P) × (result < P) }
{
    sub_lazy(a, b)
}

// The sum modulo p: a + b is a - (p - b).
pub fn add_mod_p(a: u64, b: u64) -> u64
    requires { (a < P) × (b < P) }
    ensures { (result ≡ (a + b) % P) × (result < P) }
{
    sub_mod_p(a, BFieldElement::P - b)
}

// Montgomery's reduction: x / 2^64 modulo p, where the high half of x is below p.
fn montyred(x: u128) -> u64
    requires { x / 2 ^ 64 < P }
    ensures { (result ≡ reduced x) × (result < P) }
{
    let xl = (x % HALF) as u64;
    let xh = (x / HALF) as u64;
    let a = xl.wrapping_add(xl << 32);
    // Stays: a comparison, since from the flag of `overflowing_add` a transform takes eight percent more instructions.
    let e = u64::from(a < xl);
    let b = a.wrapping_sub(a >> 32).wrapping_sub(e);
    sub_mod_p(xh, b)
}

// a b / 2^64 modulo p, for a below p: a product of words, or of a word and a plain number.
fn reduced_product(a: u64, b: u64) -> u64
    requires { a < P }
    ensures { (result ≡ reduced (a * b)) × (result < P) }
{
    montyred(product(a, b))
}

// A sum of products of plain numbers, top 2^128 + hi 2^64 + lo, to be reduced once. Made and read only through its functions.
// Stays: three words, since with the lower two as one u128 a matrix product takes two percent more instructions.
#[derive(Clone, Copy)]
pub struct SumOfProducts {
    lo: u64,
    hi: u64,
    top: u64,
}

#[tactic(auto, unfolding(crate::specs::Sums::amount, crate::specs::Sums::carries))]
pub fn first_product(a: u64, b: u64) -> SumOfProducts
    ensures { (amount result ≡ a * b) × (carries result ≡ 0) }
{
    let (lo, hi) = a.carrying_mul(b, 0);
    SumOfProducts { lo, hi, top: 0 }
}

// One product more.
#[tactic(auto, unfolding(crate::specs::Sums::amount, crate::specs::Sums::carries))]
pub fn plus_product(s: SumOfProducts, a: u64, b: u64) -> SumOfProducts
    requires { carries s < 2 ^ 64 - 1 }
    ensures { (amount result ≡ amount s + a * b) × (carries result ≤ carries s + 1) }
{
    let (lo, h) = a.carrying_mul(b, s.lo);
    let (hi, is_lost) = h.overflowing_add(s.hi);
    let d = u64::from(is_lost);
    SumOfProducts {
        lo,
        hi,
        top: s.top + d,
    }
}

// The sum modulo p: 2^64 is 2^32 - 1, 2^96 is -1 and 2^128 is -2^32.
#[tactic(auto, unfolding(crate::specs::Sums::amount, crate::specs::Sums::carries))]
pub fn sum_mod_p(s: SumOfProducts) -> u64
    requires { carries s < 2 ^ 32 - 1 }
    ensures { (result ≡ amount s % P) × (result < P) }
{
    let down = s.hi / 0x1_0000_0000 + s.top * 0x1_0000_0000;
    let up = s.hi % 0x1_0000_0000 * 0xffff_ffff;
    canonical(add_lazy(sub_lazy(s.lo, down), up))
}

// A field element: its Montgomery word, made and read only through its functions. A contract sees the number that it stands for.
#[derive(Clone, Copy)]
pub struct BFieldElement(u64);

impl Model for BFieldElement {
    ghost use Rattle.std.specs.Prelude.{ℕ};
    ghost use Rattle.field.specs.Element.{Good, num, element};
    ghost use Rattle.field.specs.Words.{element_is};

    ghost Value = { ℕ };

    ghost view = { num };

    ghost invariant = { Good };

    ghost inverse = { element };

    ghost inverse_ok = { element_is };
}

impl BFieldElement {
    pub const P: u64 = 0xffff_ffff_0000_0001;

    pub const MAX: u64 = Self::P - 1;
    // 2^128 modulo p, which makes a Montgomery word.
    pub const R2: u64 = 0xffff_fffe_0000_0001;

    // Holds the constants to their values: its contract is about them, and nothing calls it.
    fn constants()
        ensures p { (BFieldElement.P ≡ P) × (P ≡ 2 ^ 64 - 2 ^ 32 + 1) }
        ensures max { BFieldElement.MAX ≡ P - 1 }
        ensures r2 { BFieldElement.R2 ≡ 2 ^ 128 % P }
    {}

    #[tactic(auto, using(crate::proofs::Elements::num_new))]
    pub fn new(value: u64) -> Self
        ensures { result ≡ value % P }
    {
        BFieldElement(reduced_product(Self::R2, value))
    }

    // The element of a word, for tables of them.
    pub fn from_word(word: u64) -> Self
        requires { word < P }
        ensures { result ≡ reduced word }
    {
        BFieldElement(word)
    }

    pub fn value(self) -> u64
        ensures { (result ≡ self) × (result < P) }
    {
        montyred(u128::from(self.0))
    }

    // The element times a plain number, as a plain number: one reduction and no conversion.
    #[tactic(auto, using(crate::proofs::Elements::num_scaled))]
    pub fn scaled(self, x: u64) -> u64
        ensures { (result ≡ (self * x) % P) × (result < P) }
    {
        reduced_product(self.0, x)
    }

    // By squaring and multiplying from the exponent's top digit down; 0 to the power 0 is 1.
    pub fn mod_pow(self, exp: u64) -> Self
        ensures { result ≡ (self ^ exp) % P }
    {
        let _ = &self.0; // so that the proof knows that the number is below p
        let mut acc = BFieldElement::new(1);
        for digit in (0..64 - exp.leading_zeros()).rev() {
            acc = acc * acc;
            let is_one = (exp >> digit) % 2 == 1;
            if is_one {
                acc = acc * self;
            }
        }
        acc
    }

    // The element squared so many times: B's `exp`.
    #[tactic(auto, using(crate::proofs::Elements::squares))]
    fn squared(self, times: u32) -> Self
        ensures { result ≡ (self ^ (2 ^ times)) % P }
    {
        let _ = &self.0; // so that the proof knows that the number is below p
        let mut res = self;
        for _ in 0..times {
            res = res * res;
        }
        res
    }

    // From powers x^a and x^b the power x^(a 2^n + b): the n binary digits of b come behind those of a.
    #[tactic(auto, using(laws::proofs::Congruence::mul_mod_l))]
    fn append(self, n: u32, low: Self) -> Self
        ensures { result ≡ (self ^ (2 ^ n) * low) % P }
    {
        self.squared(n) * low
    }

    // The power p - 2 by B's chain: in binary p - 2 is 31 ones, a zero and 32 ones.
    fn to_p_minus_2(self) -> Self
        ensures { result ≡ (self ^ (P - 2)) % P }
    {
        let _ = &self.0; // so that the proof knows that the number is below p
        let x = self;
        let bin_2_ones = x.append(1, x);
        let bin_3_ones = bin_2_ones.append(1, x);
        let bin_6_ones = bin_3_ones.append(3, bin_3_ones);
        let bin_12_ones = bin_6_ones.append(6, bin_6_ones);
        let bin_24_ones = bin_12_ones.append(12, bin_12_ones);
        let bin_30_ones = bin_24_ones.append(6, bin_6_ones);
        let bin_31_ones = bin_30_ones.append(1, x);
        let bin_31_ones_1_zero = bin_31_ones * bin_31_ones;
        let bin_32_ones = bin_31_ones_1_zero * x;
        bin_31_ones_1_zero.append(32, bin_32_ones)
    }

    // 0 has none.
    #[tactic(auto, using(crate::proofs::Inverses::inverses))]
    pub fn inverse(self) -> Option<Self>
        ensures { result ≡ inverted self }
    {
        let word = self.0;
        let is_zero = word == 0;
        if is_zero {
            None
        } else {
            Some(self.to_p_minus_2())
        }
    }
}

impl Add for BFieldElement {
    type Output = Self;

    ghost add_gives = { λ a b r. r ≡ (a + b) % P };

    #[tactic(auto, using(crate::proofs::Elements::num_add))]
    fn add(self, rhs: Self) -> Self {
        BFieldElement(add_mod_p(self.0, rhs.0))
    }
}

impl Sub for BFieldElement {
    type Output = Self;

    ghost sub_gives = { λ a b r. r ≡ (a + (P - b)) % P };

    #[tactic(auto, using(crate::proofs::Elements::num_sub))]
    fn sub(self, rhs: Self) -> Self {
        BFieldElement(sub_mod_p(self.0, rhs.0))
    }
}

impl Mul for BFieldElement {
    type Output = Self;

    ghost mul_gives = { λ a b r. r ≡ (a * b) % P };

    #[tactic(auto, using(crate::proofs::Elements::num_mul))]
    fn mul(self, rhs: Self) -> Self {
        BFieldElement(reduced_product(self.0, rhs.0))
    }
}

impl Neg for BFieldElement {
    type Output = Self;

    ghost neg_gives = { λ a r. r ≡ (P - a) % P };

    #[tactic(auto, using(crate::proofs::Elements::num_neg))]
    fn neg(self) -> Self {
        BFieldElement(sub_mod_p(0, self.0))
    }
}
