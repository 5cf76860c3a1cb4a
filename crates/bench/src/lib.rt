// What bench/run times, for a program in Rust to call: the permutation and the hashes, the ring, key sealing. Coefficients are the caller's to
// keep below p.
#![tactic(auto)]

ghost use Rattle.std.specs.Prelude.{◌≡◌, length};
ghost use Rattle.field.specs.Field.{Coefficients};
ghost use Rattle.keccak.specs.Lanes.{keccak_p};
ghost use Rattle.keccak.specs.Pairs.{Both};
ghost use Rattle.hash.specs.Fips202.{shake256, sha3_256};
ghost use Rattle.ring.specs.Transform.{transform, untransform};
ghost use Rattle.ring.specs.Elements.{product};
ghost use Rattle.ring.specs.Matrices.{transforms, matrix};
ghost use Rattle.lanes.specs.Samplers.{ones};
ghost use Rattle.packets.specs.Packets.{G, keygen, enc, opens, key_or, dec};
ghost use Rattle.packets.specs.Layout.{public_bytes, public_of};

// Stays: all of this file is exported to C, which has no Option for what `bench_dec` answers and no type with a fact.
#[unsafe(no_mangle)]
pub extern "C" fn bench_permute(a: &mut [u64; 25])
    ensures { a.new ≡ keccak_p a.old }
{
    keccak::permute(a);
}

#[unsafe(no_mangle)]
pub extern "C" fn bench_permute_two(s: &mut [u64; 52])
    ensures { Both keccak_p s.old s.new }
{
    keccak::permute_two(s);
}

#[unsafe(no_mangle)]
pub extern "C" fn bench_shake256(message: &[u8], output: &mut [u8])
    ensures { output.new ≡ shake256 message.now (length output.old) }
{
    hash::shake256(message, output);
}

#[unsafe(no_mangle)]
pub extern "C" fn bench_sha3_256(message: &[u8], output: &mut [u8; 32])
    ensures { output.new ≡ sha3_256 message.now }
{
    hash::sha3_256(message, output);
}

#[unsafe(no_mangle)]
pub extern "C" fn bench_ntt(array: &mut [u64; 64])
    requires { Coefficients 64 array.old }
    ensures { array.new ≡ transform array.old }
{
    ring::coset_ntt_noswap_64(array);
}

#[unsafe(no_mangle)]
pub extern "C" fn bench_ntt_four(vector: &mut [u64; 256])
    requires { Coefficients 256 vector.old }
    ensures { vector.new ≡ transforms 4 vector.old }
{
    ring::coset_ntt_noswap_four(vector);
}

#[unsafe(no_mangle)]
pub extern "C" fn bench_intt(array: &mut [u64; 64])
    requires { Coefficients 64 array.old }
    ensures { array.new ≡ untransform array.old }
{
    ring::coset_intt_noswap_64(array);
}

#[unsafe(no_mangle)]
pub extern "C" fn bench_multiply(lhs: &[u64; 64], rhs: &[u64; 64], out: &mut [u64; 64])
    requires { Coefficients 64 lhs.now × Coefficients 64 rhs.now }
    ensures { out.new ≡ product lhs.now rhs.now }
{
    ring::multiply(lhs, rhs, out);
}

#[unsafe(no_mangle)]
pub extern "C" fn bench_matrix_times_column(
    lhs: &[u64; 1024],
    rhs: &[u64; 256],
    out: &mut [u64; 256],
)
    requires { Coefficients 1024 lhs.now × Coefficients 256 rhs.now }
    ensures { out.new ≡ matrix 4 4 1 lhs.now rhs.now }
{
    ring::matrix_times_column(lhs, rhs, out);
}

#[unsafe(no_mangle)]
pub extern "C" fn bench_row_times_matrix(lhs: &[u64; 256], rhs: &[u64; 1024], out: &mut [u64; 256])
    requires { Coefficients 256 lhs.now × Coefficients 1024 rhs.now }
    ensures { out.new ≡ matrix 1 4 4 lhs.now rhs.now }
{
    ring::row_times_matrix(lhs, rhs, out);
}

#[unsafe(no_mangle)]
pub extern "C" fn bench_row_times_column(lhs: &[u64; 256], rhs: &[u64; 256], out: &mut [u64; 64])
    requires { Coefficients 256 lhs.now × Coefficients 256 rhs.now }
    ensures { out.new ≡ matrix 1 4 1 lhs.now rhs.now }
{
    ring::row_times_column(lhs, rhs, out);
}

// G alone, as the Rust derives it; seal draws it in step with the vectors.
fn derive_matrix(seed: &[u8], g: &mut [u64])
    requires { length g.old ≡ 1024 }
    ensures { g.new ≡ G seed.now }
{
    let mut bytes = [0u8; 9216];
    hash::shake256(seed, &mut bytes);
    lanes::sample_uniforms(&bytes, g);
}

#[unsafe(no_mangle)]
pub extern "C" fn bench_derive_matrix(seed: &[u8; 32], g: &mut [u64; 1024])
    ensures { g.new ≡ G seed.now }
{
    derive_matrix(seed, g);
}

#[unsafe(no_mangle)]
pub extern "C" fn bench_keygen(
    randomness: &[u8; 32],
    secret: &mut [u8; 64],
    public: &mut [u8; 2080],
)
    ensures { (secret.new ≡ (keygen ones randomness.now).secret)
        × (public.new ≡ public_bytes (keygen ones randomness.now).public) }
{
    seal::keygen(randomness, secret, public);
}

#[unsafe(no_mangle)]
pub extern "C" fn bench_enc(
    public: &[u8; 2080],
    randomness: &[u8; 32],
    shared: &mut [u8; 32],
    ciphertext: &mut [u64; 320],
)
    requires { Coefficients 256 (public_of public.now).ga }
    ensures { (shared.new ≡ (enc ones (public_of public.now) randomness.now).shared)
        × (ciphertext.new ≡ (enc ones (public_of public.now) randomness.now).ciphertext) }
{
    seal::enc(public, randomness, shared, ciphertext);
}

#[unsafe(no_mangle)]
pub extern "C" fn bench_dec(
    secret: &[u8; 64],
    ciphertext: &[u64; 320],
    shared: &mut [u8; 32],
) -> bool
    requires { Coefficients 320 ciphertext.now }
    ensures { (result ≡ opens (dec ones secret.now ciphertext.now))
        × (shared.new ≡ key_or (dec ones secret.now ciphertext.now) shared.old) }
{
    match seal::dec(secret, ciphertext) {
        Some(key) => {
            shared.copy_from_slice(&key);
            true
        }
        None => false,
    }
}
