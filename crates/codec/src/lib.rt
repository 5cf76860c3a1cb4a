// Numbers of 64 bits as eight bytes, lowest first; the sizes of keys and packets.
#![tactic(auto)]

ghost use Rattle.std.specs.Prelude.{◌≡◌, ◌+◌, ◌*◌, ◌≤◌, length};
ghost use Rattle.codec.specs.Layout.{word, words, bytes, with_word};
ghost use Rattle.codec.specs.Sizes as sizes;

// ---- sizes: specs/Sizes says what each is made of
pub const SECRET_KEY_BYTES: usize = 64;

pub const PUBLIC_KEY_BYTES: usize = 2080;

pub const CIPHERTEXT_NUMBERS: usize = 320;

pub const CIPHERTEXT_BYTES: usize = 2560;

pub const SHARED_KEY_BYTES: usize = 32;

pub const RANDOMNESS_BYTES: usize = 32;

// Holds them to specs/Sizes: its contract is about them, and nothing calls it.
fn sizes()
    ensures secret_key { SECRET_KEY_BYTES ≡ sizes.secret_key_bytes }
    ensures public_key { PUBLIC_KEY_BYTES ≡ sizes.public_key_bytes }
    ensures numbers { CIPHERTEXT_NUMBERS ≡ sizes.ciphertext_numbers }
    ensures ciphertext { CIPHERTEXT_BYTES ≡ sizes.ciphertext_bytes }
    ensures shared_key { SHARED_KEY_BYTES ≡ sizes.shared_key_bytes }
    ensures randomness { RANDOMNESS_BYTES ≡ sizes.randomness_bytes }
{}

// ---- bytes and numbers
// The number in the eight bytes from `at` on. They become one load.
pub fn load(s: &[u8], at: usize) -> u64
    requires { at + 8 ≤ length s.now }
    ensures { result ≡ word s.now at }
{
    u64::from_le_bytes([
        s[at],
        s[at + 1],
        s[at + 2],
        s[at + 3],
        s[at + 4],
        s[at + 5],
        s[at + 6],
        s[at + 7],
    ])
}

// Puts the eight bytes of x from `at` on. They become one store.
pub fn store(out: &mut [u8], at: usize, x: u64)
    requires { at + 8 ≤ length out.old }
    ensures { out.new ≡ with_word out.old at x }
{
    out[at..at + 8].copy_from_slice(&x.to_le_bytes());
}

// The numbers in bytes.
pub fn unpack(s: &[u8], out: &mut [u64])
    requires { length s.now ≡ 8 * length out.old }
    ensures { out.new ≡ words s.now }
{
    for (i, x) in out.iter_mut().enumerate() {
        *x = load(s, 8 * i);
    }
}

// The bytes of numbers.
pub fn pack(w: &[u64], out: &mut [u8])
    requires { length out.old ≡ 8 * length w.now }
    ensures { out.new ≡ bytes w.now }
{
    for (i, x) in w.iter().enumerate() {
        store(out, 8 * i, *x);
    }
}
