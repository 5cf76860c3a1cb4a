// The ring of lattice.rs, polynomials modulo X^64 + 1 and p: both transforms, sums, differences and products of ring elements, and the
// product of matrices of them. A ring element is 64 canonical numbers, a matrix one flat slice of ring elements, row by row.
#![tactic(auto)]

mod directions; // forward and backward
mod tables; // the zetas, and 1/64

ghost use Rattle.std.specs.Prelude.{◌≡◌, ℕ, ◌+◌, ◌*◌, ◌-◌, ◌%◌, ◌<◌, ◌≤◌, length, get_or};
ghost use Rattle.laws.specs.Lists.{tab};
ghost use Rattle.field.specs.Field.{P, Coefficients};
ghost use Rattle.ring.specs.Transform.{transform, untransform, zeta};
ghost use Rattle.ring.specs.Elements.{plus, minus, hadamard, product};
ghost use Rattle.ring.specs.Matrices.{cell, flat, transforms, dot, matrix};
ghost use Rattle.ring.specs.Stages.{Butterflied, stage_at, unscaled, scaled};

use directions::{Backward, Direction, Forward};
use field::BFieldElement;

// Stays: that numbers are canonical, and how many, is asked of slices that C callers lend (`galmuriec_ring_add`), so no struct here can hold it.

// The first table with its rule, as docs/SCHEME.md, "Transform", states it; the transforms read its words.
pub fn powers_of_psi_bitreversed() -> [u64; 64]
    ensures { result ≡ tab 64 zeta }
{
    tables::POWERS_OF_PSI_BITREVERSED
}

// One block of a transform.
// Stays: over both halves (`iter_mut().zip(..)`) nothing is kept of what is written, so that `returns` stays open, as in lanes' samplers.
fn butterflies<D: Direction>(array: &mut [u64], s: usize, t: usize, zeta: BFieldElement)
    requires coefficients { Coefficients 64 array.old }
    requires t_bound { s + t + t ≤ 64 }
    ensures { Butterflied (D.low zeta) (D.high zeta) s t (s + t) array.old array.new }
{
    for j in s..s + t {
        let (low, high) = D::butterfly(zeta, array[j], array[j + t]);
        array[j] = low;
        array[j + t] = high;
    }
}

// One stage: m blocks of t + t numbers.
// Stays: with `chunks_exact_mut` `returns` stays open (tried in `coset_ntt_noswap_four`), since nothing is kept of what it lends.
fn stage<D: Direction>(array: &mut [u64], direction: &D, m: usize, t: usize)
    requires coefficients { Coefficients 64 array.old }
    requires blocks { m * (t + t) ≡ 64 }
    ensures { (array.new ≡ tab 64 (stage_at D.low D.high D.zetas m t array.old)) × Coefficients 64 array.new }
{
    for i in 0..m {
        let zeta = direction.zeta(m + i);
        butterflies::<D>(array, i * (t + t), t, zeta);
    }
}

// The stages are calls with constant sizes, which LLVM unrolls.
// Stays: `unstages` goes the other way, so one function for both would loop over the sizes, which takes a tenth more time.
fn stages(array: &mut [u64], forward: &Forward)
    requires { Coefficients 64 array.old }
    ensures { array.new ≡ transform array.old }
{
    stage(array, forward, 1, 32);
    stage(array, forward, 2, 16);
    stage(array, forward, 4, 8);
    stage(array, forward, 8, 4);
    stage(array, forward, 16, 2);
    stage(array, forward, 32, 1);
}

pub fn coset_ntt_noswap_64(array: &mut [u64])
    requires { Coefficients 64 array.old }
    ensures { array.new ≡ transform array.old }
{
    stages(array, &Forward::new());
}

// Each of four ring elements, in place. The table is taken once, as each mention of it fills it anew.
// Stays: with `chunks_exact_mut(64)` `returns` stays open, since nothing is kept of what it lends.
pub fn coset_ntt_noswap_four(vector: &mut [u64])
    requires { Coefficients 256 vector.old }
    ensures { vector.new ≡ transforms 4 vector.old }
{
    let forward = Forward::new();
    for i in 0..4 {
        let start = i * 64;
        let end = start + 64;
        stages(&mut vector[start..end], &forward);
    }
}

fn unstages(array: &mut [u64], backward: &Backward)
    requires { Coefficients 64 array.old }
    ensures { (array.new ≡ unscaled array.old) × Coefficients 64 array.new }
{
    stage(array, backward, 32, 1);
    stage(array, backward, 16, 2);
    stage(array, backward, 8, 4);
    stage(array, backward, 4, 8);
    stage(array, backward, 2, 16);
    stage(array, backward, 1, 32);
}

// Each number becomes what f makes of it and of its place.
fn each_place<F: Fn(usize, u64) -> u64>(array: &mut [u64], f: F)
    requires { (k : ℕ) → k < length array.old → F.pre f k (get_or array.old k 0) }
    ensures { (length array.new ≡ length array.old)
        × ((k : ℕ) → k < length array.old → F.post f k (get_or array.old k 0) (get_or array.new k 0)) }
{
    for (k, number) in array.iter_mut().enumerate() {
        *number = f(k, *number);
    }
}

fn scale(array: &mut [u64], factor: BFieldElement)
    requires { length array.old ≡ 64 }
    ensures { array.new ≡ scaled factor array.old }
{
    each_place(array, |_, x| factor.scaled(x));
}

pub fn coset_intt_noswap_64(array: &mut [u64])
    requires { Coefficients 64 array.old }
    ensures { array.new ≡ untransform array.old }
{
    unstages(array, &Backward::new());
    scale(array, BFieldElement::new(tables::N_INV));
}

// Of any number of coefficients: 64 for a ring element, 256 for a vector of four.
pub fn add_assign(lhs: &mut [u64], rhs: &[u64])
    requires { Coefficients (length lhs.old) lhs.old × Coefficients (length lhs.old) rhs.now }
    ensures { lhs.new ≡ plus (length lhs.old) lhs.old rhs.now }
{
    each_place(lhs, |k, x| field::add_mod_p(x, rhs[k]));
}

// The products of the entries of two transformed elements.
pub fn hadamard_assign(lhs: &mut [u64], rhs: &[u64])
    requires { Coefficients 64 lhs.old × Coefficients 64 rhs.now }
    ensures { lhs.new ≡ hadamard lhs.old rhs.now }
{
    each_place(lhs, |k, x| BFieldElement::new(x).scaled(rhs[k]));
}

// The product in the ring, through the transforms.
pub fn multiply(lhs: &[u64], rhs: &[u64], out: &mut [u64])
    requires { Coefficients 64 lhs.now × Coefficients 64 rhs.now × (length out.old ≡ 64) }
    ensures { out.new ≡ product lhs.now rhs.now }
{
    let mut other = [0u64; 64];
    let forward = Forward::new();
    // Stays: a copy entry by entry. `copy_from_slice` between two lent slices is `memmove`, which the archive for C asks of nobody.
    each_place(out, |k, _| lhs[k]);
    other.copy_from_slice(rhs);
    stages(out, &forward);
    stages(&mut other, &forward);
    hadamard_assign(out, &other);
    coset_intt_noswap_64(out);
}

pub fn add(lhs: &[u64], rhs: &[u64], out: &mut [u64])
    requires { Coefficients 64 lhs.now × Coefficients 64 rhs.now × (length out.old ≡ 64) }
    ensures { out.new ≡ plus 64 lhs.now rhs.now }
{
    each_place(out, |k, _| field::add_mod_p(lhs[k], rhs[k]));
}

pub fn sub(lhs: &[u64], rhs: &[u64], out: &mut [u64])
    requires { Coefficients 64 lhs.now × Coefficients 64 rhs.now × (length out.old ≡ 64) }
    ensures { out.new ≡ minus 64 lhs.now rhs.now }
{
    each_place(out, |k, _| field::sub_mod_p(lhs[k], rhs[k]));
}

// Place k of four elements times the coefficients of a matrix that stand at at, at + step, at + 2 step and at + 3 step, added
// up: the four products are reduced once.
fn combined(vector: &[u64], k: usize, matrix: &[u64], at: usize, step: usize) -> u64
    requires { (192 + k < length vector.now) × (at + 3 * step < length matrix.now) }
    ensures { result ≡ (get_or vector.now k 0 * get_or matrix.now at 0
        + get_or vector.now (64 + k) 0 * get_or matrix.now (at + step) 0
        + get_or vector.now (128 + k) 0 * get_or matrix.now (at + 2 * step) 0
        + get_or vector.now (192 + k) 0 * get_or matrix.now (at + 3 * step) 0) % P }
{
    let a = field::first_product(vector[k], matrix[at]);
    let b = field::plus_product(a, vector[64 + k], matrix[at + step]);
    let c = field::plus_product(b, vector[128 + k], matrix[at + 2 * step]);
    let d = field::plus_product(c, vector[192 + k], matrix[at + 3 * step]);
    field::sum_mod_p(d)
}

// A vector of four ring elements times a matrix: element e of out is the sum over q of vector element q times matrix element
// e·row + q·step.
// Stays: with `chunks_exact_mut(64)` `returns` stays open, as in `coset_ntt_noswap_four`; with `count` from `out.len()` the contract divides by 64.
fn vector_times(
    vector: &[u64],
    matrix: &[u64],
    out: &mut [u64],
    count: usize,
    row: usize,
    step: usize,
)
    requires coefficients { Coefficients 256 vector.now × (length out.old ≡ count * 64) }
    requires step_in_bounds { (count * row + 3 * step + 1) * 64 ≤ length matrix.now + row * 64 }
    ensures { out.new ≡ flat count (λ e. dot 4 (cell vector.now) (λ q. cell matrix.now (e * row + q * step))) }
{
    for e in 0..count {
        let start = e * 64;
        let end = start + 64;
        let first = e * row * 64;
        each_place(
            &mut out[start..end],
            |k, _| combined(vector, k, matrix, first + k, step * 64),
        );
    }
}

// The matrix products that keys and packets take, of transformed elements: 4 by 4 times 4 by 1,
// Stays: `vector_times` is the one function of all three, and C has each of them by its name (`galmuriec_matrix_times_column`).
pub fn matrix_times_column(lhs: &[u64], rhs: &[u64], out: &mut [u64])
    requires { Coefficients 1024 lhs.now × Coefficients 256 rhs.now × (length out.old ≡ 256) }
    ensures { out.new ≡ matrix 4 4 1 lhs.now rhs.now }
{
    vector_times(rhs, lhs, out, 4, 4, 1);
}

// 1 by 4 times 4 by 4,
pub fn row_times_matrix(lhs: &[u64], rhs: &[u64], out: &mut [u64])
    requires { Coefficients 256 lhs.now × Coefficients 1024 rhs.now × (length out.old ≡ 256) }
    ensures { out.new ≡ matrix 1 4 4 lhs.now rhs.now }
{
    vector_times(lhs, rhs, out, 4, 1, 4);
}

// and 1 by 4 times 4 by 1.
pub fn row_times_column(lhs: &[u64], rhs: &[u64], out: &mut [u64])
    requires { Coefficients 256 lhs.now × Coefficients 256 rhs.now × (length out.old ≡ 64) }
    ensures { out.new ≡ matrix 1 4 1 lhs.now rhs.now }
{
    vector_times(lhs, rhs, out, 1, 1, 1);
}
