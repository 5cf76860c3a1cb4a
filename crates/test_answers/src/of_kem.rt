// Questions on key sealing.
ghost use Rattle.std.specs.Prelude.{◌≡◌, length};
ghost use Rattle.field.specs.Field.{Coefficients};
ghost use Rattle.packets.specs.Layout.{public_of};

use test_lines::{Bytes, Numbers};

// The bytes of a public key.
fn put_public(seed: &[u8], ga: &[u64], public: &mut [u8])
    requires { (length seed.now ≡ 32) × Coefficients 256 ga.now × (length public.old ≡ 2080) }
    ensures { (length public.new ≡ 2080) × Coefficients 256 (public_of public.new).ga }
{
    public[0..32].copy_from_slice(seed);
    codec::pack(ga, &mut public[32..2080]);
}

// A public key: the bytes of its seed, then its coefficients.
fn read_public(rt: &HostRuntime) -> [u8; 2080]
    ensures { Coefficients 256 (public_of result).ga }
{
    let mut seed = [0u8; 32];
    let mut ga = [0u64; 256];
    let mut public = [0u8; 2080];
    test_lines::read_bytes(rt, &mut seed);
    test_lines::read_numbers(rt, &mut ga);
    put_public(&seed, &ga, &mut public);
    public
}

pub fn keygen(rt: &HostRuntime) {
    let mut randomness = [0u8; 32];
    let mut secret = [0u8; 64];
    let mut public = [0u8; 2080];
    let mut ga = [0u64; 256];
    test_lines::read_bytes(rt, &mut randomness);
    seal::keygen(&randomness, &mut secret, &mut public);
    codec::unpack(&public[32..2080], &mut ga);
    let seed = Bytes(&public[0..32]);
    test_lines::tell(
        rt,
        format_args!("{} {} {}", Bytes(&secret), seed, Numbers(&ga)),
    );
}

pub fn enc(rt: &HostRuntime) {
    let public = read_public(rt);
    let mut randomness = [0u8; 32];
    let mut shared = [0u8; 32];
    let mut ciphertext = [0u64; 320];
    test_lines::read_bytes(rt, &mut randomness);
    seal::enc(&public, &randomness, &mut shared, &mut ciphertext);
    test_lines::tell(
        rt,
        format_args!("{} {}", Bytes(&shared), Numbers(&ciphertext)),
    );
}

pub fn dec(rt: &HostRuntime) {
    let mut secret = [0u8; 64];
    let mut ciphertext = [0u64; 320];
    test_lines::read_bytes(rt, &mut secret);
    test_lines::read_numbers(rt, &mut ciphertext);
    if let Some(shared) = seal::dec(&secret, &ciphertext) {
        test_lines::tell(rt, Bytes(&shared));
    } else {
        // in place of four numbers
        test_lines::tell(
            rt,
            "refused--------- refused--------- refused--------- refused---------",
        );
    }
}
