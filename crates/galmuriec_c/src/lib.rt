// The public calls for other languages, as include/galmuriec.h declares them. None demands anything of the caller beyond what a reference is:
// a slice comes as a pointer and a count, the refusal as three numbers.
#![tactic(auto)]

ghost use Rattle.std.specs.Prelude.{◌≡◌, ◌+◌, ◌*◌, ◌-◌, ◌%◌, ◌^◌, length};
ghost use Rattle.laws.specs.Lists.{zeros};
ghost use Rattle.field.specs.Field.{P};
ghost use Rattle.refusals.specs.Answers.{said, told, tells};
ghost use Rattle.refusals.specs.Asks as asks;
ghost use Rattle.refusals.specs.Inverses.{inverse_told};
ghost use Rattle.codec.specs.Layout.{words, bytes};
ghost use Rattle.codec.specs.Sizes.{secret_key_bytes};
ghost use Rattle.ring.specs.Transform.{transform, untransform};
ghost use Rattle.ring.specs.Elements.{plus, minus, product};
ghost use Rattle.ring.specs.Matrices.{matrix};
ghost use Rattle.lanes.specs.Samplers.{ones, short, shorts, uniforms};
ghost use Rattle.lanes.specs.Messages.{embed, extract};
ghost use Rattle.hash.specs.Fips202.{shake256, sha3_256};
ghost use Rattle.packets.specs.Packets as packets;
ghost use Rattle.packets.specs.Layout.{public_bytes, public_of};
ghost use Rattle.job_calls.specs.Jobs.{job_answer, Writes};
ghost use Rattle.galmuriec_c.specs.Boundary.{Reports, Delivers, FillsC, FillsTwoC, GivesC, UnsealsC};

use refusals::{Record, Refusal};

// ---- what every call ends with
// The answer as a number, and its refusal in the lent record.
// Stays: the C interface takes a refusal as numbers (`galmuriec_refusal` of include/galmuriec.h), and so do the calls below.
#[tactic(auto, unfolding(crate::specs::Boundary::status, crate::specs::Boundary::entry))]
fn report(answer: Result<(), Refusal>, refusal: &mut [u64; 3]) -> u64
    ensures { Reports (said answer) result refusal.new }
{
    match answer {
        Ok(()) => {
            *refusal = [0, 0, 0];
            0
        }
        Err(r) => {
            let record = Record::from(r);
            let number = u64::from(record.number);
            *refusal = [number, u64::from(record.argument), record.place];
            number
        }
    }
}

// The same, and the number given.
#[tactic(auto, unfolding(crate::specs::Boundary::status, crate::specs::Boundary::entry, crate::specs::Boundary::given))]
fn deliver(answer: Result<u64, Refusal>, res: &mut u64, refusal: &mut [u64; 3]) -> u64
    ensures { Delivers (told answer) result refusal.new res.old res.new }
{
    match answer {
        Ok(x) => {
            *res = x;
            report(Ok(()), refusal)
        }
        Err(r) => report(Err(r), refusal),
    }
}

// ---- field: plain numbers
// Stays: from here on each function is exported, so C has it by its name with these arguments (include/galmuriec.h).
// The canonical number of any number; never refuses.
#[unsafe(no_mangle)]
pub extern "C" fn galmuriec_field_new(x: u64) -> u64
    ensures { result ≡ x % P }
{
    galmuriec::prime_field::new(x)
}

#[unsafe(no_mangle)]
pub extern "C" fn galmuriec_field_value(x: u64, res: &mut u64, refusal: &mut [u64; 3]) -> u64
    ensures { GivesC (asks.field_value x) result refusal.new
        res.old res.new x }
{
    deliver(galmuriec::prime_field::value(x), res, refusal)
}

#[unsafe(no_mangle)]
pub extern "C" fn galmuriec_field_add(a: u64, b: u64, res: &mut u64, refusal: &mut [u64; 3]) -> u64
    ensures { GivesC (asks.field_add a b) result refusal.new
        res.old res.new ((a + b) % P) }
{
    deliver(galmuriec::prime_field::add(a, b), res, refusal)
}

#[unsafe(no_mangle)]
pub extern "C" fn galmuriec_field_sub(a: u64, b: u64, res: &mut u64, refusal: &mut [u64; 3]) -> u64
    ensures { GivesC (asks.field_sub a b) result refusal.new
        res.old res.new ((a + (P - b)) % P) }
{
    deliver(galmuriec::prime_field::sub(a, b), res, refusal)
}

#[unsafe(no_mangle)]
pub extern "C" fn galmuriec_field_mul(a: u64, b: u64, res: &mut u64, refusal: &mut [u64; 3]) -> u64
    ensures { GivesC (asks.field_mul a b) result refusal.new
        res.old res.new (a * b % P) }
{
    deliver(galmuriec::prime_field::mul(a, b), res, refusal)
}

#[unsafe(no_mangle)]
pub extern "C" fn galmuriec_field_neg(a: u64, res: &mut u64, refusal: &mut [u64; 3]) -> u64
    ensures { GivesC (asks.field_neg a) result refusal.new
        res.old res.new ((P - a) % P) }
{
    deliver(galmuriec::prime_field::neg(a), res, refusal)
}

#[unsafe(no_mangle)]
pub extern "C" fn galmuriec_field_inverse(a: u64, res: &mut u64, refusal: &mut [u64; 3]) -> u64
    ensures { Delivers (tells (asks.field_inverse a) (inverse_told a)) result refusal.new
        res.old res.new }
{
    deliver(galmuriec::prime_field::inverse(a), res, refusal)
}

#[unsafe(no_mangle)]
pub extern "C" fn galmuriec_field_mod_pow(
    a: u64,
    exp: u64,
    res: &mut u64,
    refusal: &mut [u64; 3],
) -> u64
    ensures { GivesC (asks.field_mod_pow a) result refusal.new
        res.old res.new (a ^ exp % P) }
{
    deliver(galmuriec::prime_field::mod_pow(a, exp), res, refusal)
}

// ---- ring elements of 64 numbers, and matrices of them
#[unsafe(no_mangle)]
pub extern "C" fn galmuriec_coset_ntt_noswap_64(array: &mut [u64], refusal: &mut [u64; 3]) -> u64
    ensures { FillsC (asks.coset_ntt_noswap_64 array.old) result refusal.new array.old array.new
        (transform array.old) }
{
    report(
        galmuriec::ring_elements::coset_ntt_noswap_64(array),
        refusal,
    )
}

#[unsafe(no_mangle)]
pub extern "C" fn galmuriec_coset_intt_noswap_64(array: &mut [u64], refusal: &mut [u64; 3]) -> u64
    ensures { FillsC (asks.coset_intt_noswap_64 array.old) result refusal.new array.old array.new
        (untransform array.old) }
{
    report(
        galmuriec::ring_elements::coset_intt_noswap_64(array),
        refusal,
    )
}

#[unsafe(no_mangle)]
pub extern "C" fn galmuriec_ring_add(
    lhs: &[u64],
    rhs: &[u64],
    out: &mut [u64],
    refusal: &mut [u64; 3],
) -> u64
    ensures { FillsC (asks.ring_add lhs.now rhs.now (length out.old)) result
        refusal.new out.old out.new (plus 64 lhs.now rhs.now) }
{
    report(galmuriec::ring_elements::add(lhs, rhs, out), refusal)
}

#[unsafe(no_mangle)]
pub extern "C" fn galmuriec_ring_sub(
    lhs: &[u64],
    rhs: &[u64],
    out: &mut [u64],
    refusal: &mut [u64; 3],
) -> u64
    ensures { FillsC (asks.ring_sub lhs.now rhs.now (length out.old)) result
        refusal.new out.old out.new (minus 64 lhs.now rhs.now) }
{
    report(galmuriec::ring_elements::sub(lhs, rhs, out), refusal)
}

#[unsafe(no_mangle)]
pub extern "C" fn galmuriec_ring_mul(
    lhs: &[u64],
    rhs: &[u64],
    out: &mut [u64],
    refusal: &mut [u64; 3],
) -> u64
    ensures { FillsC (asks.ring_mul lhs.now rhs.now (length out.old)) result
        refusal.new out.old out.new (product lhs.now rhs.now) }
{
    report(galmuriec::ring_elements::mul(lhs, rhs, out), refusal)
}

#[unsafe(no_mangle)]
pub extern "C" fn galmuriec_matrix_times_column(
    lhs: &[u64],
    rhs: &[u64],
    out: &mut [u64],
    refusal: &mut [u64; 3],
) -> u64
    ensures { FillsC (asks.matrix_times_column lhs.now rhs.now (length out.old)) result
        refusal.new out.old out.new (matrix 4 4 1 lhs.now rhs.now) }
{
    report(
        galmuriec::matrix::matrix_times_column(lhs, rhs, out),
        refusal,
    )
}

#[unsafe(no_mangle)]
pub extern "C" fn galmuriec_row_times_matrix(
    lhs: &[u64],
    rhs: &[u64],
    out: &mut [u64],
    refusal: &mut [u64; 3],
) -> u64
    ensures { FillsC (asks.row_times_matrix lhs.now rhs.now (length out.old)) result
        refusal.new out.old out.new (matrix 1 4 4 lhs.now rhs.now) }
{
    report(galmuriec::matrix::row_times_matrix(lhs, rhs, out), refusal)
}

#[unsafe(no_mangle)]
pub extern "C" fn galmuriec_row_times_column(
    lhs: &[u64],
    rhs: &[u64],
    out: &mut [u64],
    refusal: &mut [u64; 3],
) -> u64
    ensures { FillsC (asks.row_times_column lhs.now rhs.now (length out.old)) result
        refusal.new out.old out.new (matrix 1 4 1 lhs.now rhs.now) }
{
    report(galmuriec::matrix::row_times_column(lhs, rhs, out), refusal)
}

// ---- samplers and message lanes
#[unsafe(no_mangle)]
pub extern "C" fn galmuriec_sample_short_bfield_element(
    randomness: &[u8],
    res: &mut u64,
    refusal: &mut [u64; 3],
) -> u64
    ensures { GivesC (asks.sample_short_bfield_element (length randomness.now)) result refusal.new
        res.old res.new (short ones randomness.now 0) }
{
    deliver(
        galmuriec::message_lanes::sample_short_bfield_element(randomness),
        res,
        refusal,
    )
}

#[unsafe(no_mangle)]
pub extern "C" fn galmuriec_sample_short(
    randomness: &[u8],
    out: &mut [u64],
    refusal: &mut [u64; 3],
) -> u64
    ensures { FillsC (asks.sample_short (length randomness.now) (length out.old)) result
        refusal.new out.old out.new (shorts ones 64 randomness.now) }
{
    report(
        galmuriec::message_lanes::sample_short(randomness, out),
        refusal,
    )
}

#[unsafe(no_mangle)]
pub extern "C" fn galmuriec_sample_uniform(
    randomness: &[u8],
    out: &mut [u64],
    refusal: &mut [u64; 3],
) -> u64
    ensures { FillsC (asks.sample_uniform (length randomness.now) (length out.old)) result
        refusal.new out.old out.new (uniforms 64 randomness.now) }
{
    report(
        galmuriec::message_lanes::sample_uniform(randomness, out),
        refusal,
    )
}

#[unsafe(no_mangle)]
pub extern "C" fn galmuriec_embed_msg(msg: &[u8], out: &mut [u64], refusal: &mut [u64; 3]) -> u64
    ensures { FillsC (asks.embed_msg (length msg.now) (length out.old)) result
        refusal.new out.old out.new (embed msg.now) }
{
    report(galmuriec::message_lanes::embed_msg(msg, out), refusal)
}

#[unsafe(no_mangle)]
pub extern "C" fn galmuriec_extract_msg(
    embedding: &[u64],
    out: &mut [u8],
    refusal: &mut [u64; 3],
) -> u64
    ensures { FillsC (asks.extract_msg embedding.now (length out.old)) result
        refusal.new out.old out.new (extract embedding.now) }
{
    report(
        galmuriec::message_lanes::extract_msg(embedding, out),
        refusal,
    )
}

// ---- hashes
#[unsafe(no_mangle)]
pub extern "C" fn galmuriec_shake256(
    message: &[u8],
    output: &mut [u8],
    refusal: &mut [u64; 3],
) -> u64
    ensures { FillsC (asks.shake256 (length message.now) (length output.old)) result
        refusal.new output.old output.new (shake256 message.now (length output.old)) }
{
    report(galmuriec::hashes::shake256(message, output), refusal)
}

#[unsafe(no_mangle)]
pub extern "C" fn galmuriec_sha3_256(
    message: &[u8],
    output: &mut [u8],
    refusal: &mut [u64; 3],
) -> u64
    ensures { FillsC (asks.sha3_256 (length message.now) (length output.old)) result
        refusal.new output.old output.new (sha3_256 message.now) }
{
    report(galmuriec::hashes::sha3_256(message, output), refusal)
}

// ---- keys and packets
#[unsafe(no_mangle)]
pub extern "C" fn galmuriec_keygen(
    randomness: &[u8],
    secret: &mut [u8],
    public: &mut [u8],
    refusal: &mut [u64; 3],
) -> u64
    ensures { FillsTwoC (asks.keygen (length randomness.now) (length secret.old) (length public.old)) result
        refusal.new secret.old secret.new (packets.keygen ones randomness.now).secret
        public.old public.new (public_bytes (packets.keygen ones randomness.now).public) }
{
    report(galmuriec::kem::keygen(randomness, secret, public), refusal)
}

#[unsafe(no_mangle)]
pub extern "C" fn galmuriec_enc(
    public: &[u8],
    randomness: &[u8],
    shared: &mut [u8],
    ciphertext: &mut [u8],
    refusal: &mut [u64; 3],
) -> u64
    ensures { FillsTwoC (asks.enc public.now (length randomness.now) (length shared.old)
        (length ciphertext.old)) result refusal.new
        shared.old shared.new (packets.enc ones (public_of public.now) randomness.now).shared
        ciphertext.old ciphertext.new
        (bytes (packets.enc ones (public_of public.now) randomness.now).ciphertext) }
{
    report(
        galmuriec::kem::enc(public, randomness, shared, ciphertext),
        refusal,
    )
}

// With the ciphertext as 320 numbers.
#[unsafe(no_mangle)]
pub extern "C" fn galmuriec_enc_numbers(
    public: &[u8],
    randomness: &[u8],
    shared: &mut [u8],
    ciphertext: &mut [u64],
    refusal: &mut [u64; 3],
) -> u64
    ensures { FillsTwoC (asks.enc_numbers public.now (length randomness.now) (length shared.old)
        (length ciphertext.old)) result refusal.new
        shared.old shared.new (packets.enc ones (public_of public.now) randomness.now).shared
        ciphertext.old ciphertext.new
        (packets.enc ones (public_of public.now) randomness.now).ciphertext }
{
    report(
        galmuriec::kem::enc_numbers(public, randomness, shared, ciphertext),
        refusal,
    )
}

#[unsafe(no_mangle)]
pub extern "C" fn galmuriec_dec(
    secret: &[u8],
    ciphertext: &[u8],
    shared: &mut [u8],
    refusal: &mut [u64; 3],
) -> u64
    ensures { UnsealsC (asks.dec (length secret.now) ciphertext.now (length shared.old))
        (packets.dec ones secret.now (words ciphertext.now)) result
        refusal.new shared.old shared.new }
{
    report(galmuriec::kem::dec(secret, ciphertext, shared), refusal)
}

// With the ciphertext as 320 numbers.
#[unsafe(no_mangle)]
pub extern "C" fn galmuriec_dec_numbers(
    secret: &[u8],
    ciphertext: &[u64],
    shared: &mut [u8],
    refusal: &mut [u64; 3],
) -> u64
    ensures { UnsealsC (asks.dec_numbers (length secret.now) ciphertext.now (length shared.old))
        (packets.dec ones secret.now ciphertext.now) result
        refusal.new shared.old shared.new }
{
    report(
        galmuriec::kem::dec_numbers(secret, ciphertext, shared),
        refusal,
    )
}

#[unsafe(no_mangle)]
pub extern "C" fn galmuriec_clear(secret: &mut [u8], refusal: &mut [u64; 3]) -> u64
    ensures { FillsC (asks.clear (length secret.old)) result refusal.new secret.old secret.new
        (zeros secret_key_bytes) }
{
    report(galmuriec::kem::clear(secret), refusal)
}

// ---- one job in bytes: the length of its answer
#[unsafe(no_mangle)]
pub extern "C" fn galmuriec_job(input: &[u8], output: &mut [u8]) -> usize
    ensures { Writes (job_answer input.now) result output.old output.new }
{
    galmuriec::job(input, output)
}
