// Answers questions on the layers below the public calls, one to a line, as oracle/README.md describes the lines; the same questions are put to
// the Rust. The file stdin holds a sample of them, and stdout what the Rust answered.
#![tactic(auto)]

mod of_field;
mod of_kem;
mod of_lanes;
mod of_ring;

// No run has more questions.
const MOST: u64 = 100_000_000;

// Reads the operands of a question and answers it; false where its name is none of these.
fn answer(rt: &HostRuntime, name: &[u8; 4]) -> bool {
    match name {
        b"new " | b"val " => of_field::one(rt, |e| e),
        b"neg " => of_field::one(rt, |e| -e),
        b"inv " => of_field::inverse(rt),
        b"add " => of_field::two(rt, |e, f| e + f),
        b"sub " => of_field::two(rt, |e, f| e - f),
        b"mul " => of_field::two(rt, |e, f| e * f),
        b"pow " => of_field::power(rt),
        b"ntt " => of_ring::in_place(rt, ring::coset_ntt_noswap_64),
        b"intt" => of_ring::in_place(rt, ring::coset_intt_noswap_64),
        b"hada" => of_ring::hadamard(rt),
        b"radd" => of_ring::two::<64, 64, 64, _>(rt, ring::add),
        b"rsub" => of_ring::two::<64, 64, 64, _>(rt, ring::sub),
        b"rmul" => of_ring::two::<64, 64, 64, _>(rt, ring::multiply),
        b"mcol" => of_ring::two::<1024, 256, 256, _>(rt, ring::matrix_times_column),
        b"rmat" => of_ring::two::<256, 1024, 256, _>(rt, ring::row_times_matrix),
        b"rcol" => of_ring::two::<256, 256, 64, _>(rt, ring::row_times_column),
        b"shrt" => of_lanes::short_coefficient(rt),
        b"sshr" => of_lanes::element::<512, _>(rt, lanes::sample_shorts),
        b"suni" => of_lanes::element::<576, _>(rt, lanes::sample_uniforms),
        b"embd" => of_lanes::element::<32, _>(rt, lanes::embed_msg),
        b"extr" => of_lanes::extraction(rt),
        b"kgen" => of_kem::keygen(rt),
        b"encr" => of_kem::enc(rt),
        b"decr" => of_kem::dec(rt),
        _ => return false,
    }
    true
}

// Stays: the loop is that of `main` of test_calls but for what a name leads to; a worker of both is a closure longer than these lines.
fn main(rt: HostRuntime) {
    for _ in 0..MOST {
        let Some(name) = test_lines::read_name(&rt) else {
            break;
        };
        if !answer(&rt, &name) || !test_lines::read_end(&rt) {
            break;
        }
    }
}
