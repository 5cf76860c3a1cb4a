// Samplers and message lanes of lattice.rs, over lent slices. Coefficients are canonical numbers.
#![tactic(auto)]

mod tables; // the set bits of every byte

ghost use Rattle.std.specs.Prelude.{◌≡◌, ◌+◌, ◌*◌, ◌%◌, ◌^◌, ◌<◌, ◌≤◌, length};
ghost use Rattle.laws.specs.Lists.{tab};
ghost use Rattle.field.specs.Field.{P};
ghost use Rattle.lanes.specs.Samplers.{uniform, uniforms, ones, counts, short, shorts};
ghost use Rattle.lanes.specs.Messages.{lifted, embed, chunk_bit, read, extract};

// Nine bytes, big-endian, modulo p. The first stands at 2^64, which is 2^32 - 1 modulo p.
fn uniform_of(bytes: &[u8]) -> u64
    requires { length bytes.now ≡ 9 }
    ensures { result ≡ uniform bytes.now 0 }
{
    let hi = u64::from(bytes[0]);
    let lo = u64::from_be_bytes([
        bytes[1], bytes[2], bytes[3], bytes[4], bytes[5], bytes[6], bytes[7], bytes[8],
    ]);
    field::canonical(field::add_lazy(lo, hi * 0xffff_ffff))
}

// As many uniform coefficients as `out` holds: a ring element, or a matrix of them.
// Stays: `out.iter_mut().zip(randomness.chunks_exact(9))`, here and in `sample_shorts`, leaves `returns` open: nothing is kept of what it wrote.
pub fn sample_uniforms(randomness: &[u8], out: &mut [u64])
    requires { length randomness.now ≡ 9 * length out.old }
    ensures { out.new ≡ uniforms (length out.old) randomness.now }
{
    for (k, coefficient) in out.iter_mut().enumerate() {
        *coefficient = uniform_of(&randomness[9 * k..9 * k + 9]);
    }
}

// The table of set bits, with its rule. Each mention of the table copies it, so that it is taken once.
// Stays: docs/SCHEME.md has the table in the base; its request 3 puts the machine's count in its place, in a landing of its own.
#[derive(Drop)]
struct SetBits {
    table: [u8; 256],
    ghost rule: { table ≡ tab 256 ones },
}

impl SetBits {
    fn new() -> Self {
        SetBits {
            table: tables::NUM_SET_BITS,
        }
    }

    fn of(&self, b: u8) -> u64
        ensures { (result ≡ ones b) × (result ≤ 8) }
    {
        u64::from(self.table[usize::from(b)])
    }

    // The bit counts of four bytes, the first at 2^48.
    fn counted(&self, bytes: &[u8]) -> u64
        requires { length bytes.now ≡ 4 }
        ensures { (result ≡ counts ones bytes.now 0) × (result < P) }
    {
        let c0 = self.of(bytes[0]);
        let c1 = self.of(bytes[1]);
        let c2 = self.of(bytes[2]);
        let c3 = self.of(bytes[3]);
        c0 * 0x1_0000_0000_0000 + c1 * 0x1_0000_0000 + c2 * 0x1_0000 + c3
    }

    fn short_of(&self, bytes: &[u8]) -> u64
        requires { length bytes.now ≡ 8 }
        ensures { result ≡ short ones bytes.now 0 }
    {
        let (first, second) = bytes.split_at(4);
        field::sub_mod_p(self.counted(first), self.counted(second))
    }
}

pub fn sample_short_bfield_element(randomness: &[u8]) -> u64
    requires { length randomness.now ≡ 8 }
    ensures { result ≡ short ones randomness.now 0 }
{
    SetBits::new().short_of(randomness)
}

// As many short coefficients as `out` holds: a ring element, or a vector of them.
pub fn sample_shorts(randomness: &[u8], out: &mut [u64])
    requires { length randomness.now ≡ 8 * length out.old }
    ensures { out.new ≡ shorts ones (length out.old) randomness.now }
{
    let set_bits = SetBits::new();
    for (k, coefficient) in out.iter_mut().enumerate() {
        *coefficient = set_bits.short_of(&randomness[8 * k..8 * k + 8]);
    }
}

// The four lowest bits of a byte, each at the top of its lane.
// Stays: with a u8 in place of the bound LLVM widens each byte twice, which takes 80 instructions more in enc and in dec.
fn lift(b: u64) -> u64
    requires { b < 256 }
    ensures { result ≡ lifted b 0 }
{
    let b0 = b % 2;
    let b1 = b / 2 % 2;
    let b2 = b / 4 % 2;
    let b3 = b / 8 % 2;
    b0 * 0x8000 + b1 * 0x8000_0000 + b2 * 0x8000_0000_0000 + b3 * 0x8000_0000_0000_0000
}

// Stays: how long slices are is asked here and above of what C callers lend (`galmuriec_embed_msg`), so that no array can say it.
pub fn embed_msg(msg: &[u8], out: &mut [u64])
    requires { (length msg.now ≡ 32) × (length out.old ≡ 64) }
    ensures { out.new ≡ embed msg.now }
{
    for (i, byte) in msg.iter().enumerate() {
        let b = u64::from(*byte);
        out[2 * i] = lift(b);
        out[2 * i + 1] = lift(b / 16);
    }
}

// A chunk of sixteen bits that is near 0 or near 2^16 is a 0.
fn chunk_bit(chunk: u64) -> u8
    requires { chunk < 2 ^ 16 }
    ensures { (result ≡ chunk_bit chunk) × (result ≤ 1) }
{
    if chunk < (1 << 14) {
        0
    } else if (1 << 16) - chunk < (1 << 14) {
        0
    } else {
        1
    }
}

// The four bits of a coefficient.
fn read_bits(v: u64) -> u8
    ensures { (result ≡ read v) × (result ≤ 15) }
{
    chunk_bit(v % 0x1_0000)
        + 2 * chunk_bit(v / 0x1_0000 % 0x1_0000)
        + 4 * chunk_bit(v / 0x1_0000_0000 % 0x1_0000)
        + 8 * chunk_bit(v / 0x1_0000_0000_0000 % 0x1_0000)
}

pub fn extract_msg(embedding: &[u64], out: &mut [u8])
    requires { (length embedding.now ≡ 64) × (length out.old ≡ 32) }
    ensures { out.new ≡ extract embedding.now }
{
    for (i, byte) in out.iter_mut().enumerate() {
        *byte = read_bits(embedding[2 * i]) + 16 * read_bits(embedding[2 * i + 1]);
    }
}
