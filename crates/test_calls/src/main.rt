// Answers questions on the public calls, one to a line, as tests/calls/README.md describes the lines. The file stdin holds the questions and stdout
// what tests/calls/make, which knows nothing of this program, expects.
#![tactic(auto)]

mod arguments; // what an argument holds
mod jobs; // the job call
mod of_kem; // the kem's calls
mod parts; // the calls of field, ring, lanes and hashes
mod question; // a question, read
mod tell; // an answer, written

use galmuriec::{hashes, matrix, message_lanes, prime_field, ring_elements};
use of_kem::Opening;
use question::Question;

// No run has more questions.
const MOST: u64 = 100_000_000;

// Answers a question; false where its name is none of these.
fn answer(rt: &HostRuntime, name: &[u8; 4], q: &Question) -> bool {
    match name {
        b"fnew" => parts::one_value(rt, q, |a| Ok(prime_field::new(a))),
        b"fval" => parts::one_value(rt, q, prime_field::value),
        b"fneg" => parts::one_value(rt, q, prime_field::neg),
        b"finv" => parts::one_value(rt, q, prime_field::inverse),
        b"fadd" => parts::two_values(rt, q, prime_field::add),
        b"fsub" => parts::two_values(rt, q, prime_field::sub),
        b"fmul" => parts::two_values(rt, q, prime_field::mul),
        b"fpow" => parts::two_values(rt, q, prime_field::mod_pow),
        b"nttf" => parts::in_place(rt, q, ring_elements::coset_ntt_noswap_64),
        b"ntti" => parts::in_place(rt, q, ring_elements::coset_intt_noswap_64),
        b"radd" => parts::operands(rt, q, ring_elements::add),
        b"rsub" => parts::operands(rt, q, ring_elements::sub),
        b"rmul" => parts::operands(rt, q, ring_elements::mul),
        b"mtco" => parts::operands(rt, q, matrix::matrix_times_column),
        b"rtma" => parts::operands(rt, q, matrix::row_times_matrix),
        b"rtco" => parts::operands(rt, q, matrix::row_times_column),
        b"sbfe" => parts::coefficient(rt, q),
        b"ssho" => parts::numbers_from_bytes(rt, q, message_lanes::sample_short),
        b"suni" => parts::numbers_from_bytes(rt, q, message_lanes::sample_uniform),
        b"embd" => parts::numbers_from_bytes(rt, q, message_lanes::embed_msg),
        b"extr" => parts::extraction(rt, q),
        b"shak" => parts::bytes_from_bytes(rt, q, hashes::shake256),
        b"sha3" => parts::bytes_from_bytes(rt, q, hashes::sha3_256),
        b"kgen" => of_kem::keygen(rt, q),
        b"encb" => of_kem::enc(rt, q),
        b"encn" => of_kem::enc_numbers(rt, q),
        b"decb" => Opening::drawn(q).dec(rt, q),
        b"decn" => Opening::drawn(q).dec_numbers(rt, q),
        b"opnb" => Opening::made(q).dec(rt, q),
        b"opnn" => Opening::made(q).dec_numbers(rt, q),
        b"cler" => of_kem::clear(rt, q),
        b"jobb" => jobs::answer(rt, q, jobs::drawn(q)),
        b"jobe" => jobs::answer(rt, q, jobs::enc(q)),
        b"jobo" => jobs::answer(rt, q, jobs::dec(q)),
        _ => return false,
    }
    true
}

// Stays: as `main` of test_answers.
fn main(rt: HostRuntime) {
    for _ in 0..MOST {
        let Some(name) = test_lines::read_name(&rt) else {
            break;
        };
        let q = question::read(&rt);
        if !answer(&rt, &name, &q) {
            break;
        }
        test_lines::tell(&rt, "");
        if !test_lines::read_end(&rt) {
            break;
        }
    }
}
