// Questions on samplers and message lanes.
ghost use Rattle.std.specs.Prelude.{◌≡◌, ◌^◌, ◌<◌, length};

use test_lines::{Bytes, Numbers};

pub fn short_coefficient(rt: &HostRuntime) {
    let mut randomness = [0u8; 8];
    test_lines::read_bytes(rt, &mut randomness);
    let short = lanes::sample_short_bfield_element(&randomness);
    test_lines::tell(rt, Numbers(&[short]));
}

// A ring element of N bytes.
pub fn element<const N: usize, F: Fn(&[u8], &mut [u64])>(rt: &HostRuntime, call: F)
    requires size { N < 2 ^ 32 }
    requires callable { (bytes : _) (out : _) → length bytes.now ≡ N → length out.now ≡ 64 → F.pre call bytes out }
{
    let mut bytes = [0u8; N];
    let mut element = [0u64; 64];
    test_lines::read_bytes(rt, &mut bytes);
    call(&bytes, &mut element);
    test_lines::tell(rt, Numbers(&element));
}

pub fn extraction(rt: &HostRuntime) {
    let mut element = [0u64; 64];
    let mut payload = [0u8; 32];
    test_lines::read_numbers(rt, &mut element);
    lanes::extract_msg(&element, &mut payload);
    test_lines::tell(rt, Bytes(&payload));
}
