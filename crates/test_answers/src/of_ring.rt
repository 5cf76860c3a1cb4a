// Questions on the ring and on matrices.
ghost use Rattle.std.specs.Prelude.{◌≡◌, ◌^◌, ◌<◌, length};
ghost use Rattle.field.specs.Field.{Coefficients};

use test_lines::Numbers;

// One ring element.
pub fn in_place<F: Fn(&mut [u64])>(rt: &HostRuntime, call: F)
    requires { (a : _) → Coefficients 64 a.now → F.pre call a }
{
    let mut a = [0u64; 64];
    test_lines::read_numbers(rt, &mut a);
    call(&mut a);
    test_lines::tell(rt, Numbers(&a));
}

// Two ring elements, into the first.
pub fn hadamard(rt: &HostRuntime) {
    let mut a = [0u64; 64];
    let mut b = [0u64; 64];
    test_lines::read_numbers(rt, &mut a);
    test_lines::read_numbers(rt, &mut b);
    ring::hadamard_assign(&mut a, &b);
    test_lines::tell(rt, Numbers(&a));
}

// Operands of M and N coefficients, and an answer of K.
pub fn two<const M: usize, const N: usize, const K: usize, F: Fn(&[u64], &[u64], &mut [u64])>(
    rt: &HostRuntime,
    call: F,
)
    requires sizes { (M < 2 ^ 32) × (N < 2 ^ 32) × (K < 2 ^ 32) }
    requires callable { (a b out : _) → Coefficients M a.now → Coefficients N b.now → length out.now ≡ K
        → F.pre call a b out }
{
    let mut a = [0u64; M];
    let mut b = [0u64; N];
    let mut out = [0u64; K];
    test_lines::read_numbers(rt, &mut a);
    test_lines::read_numbers(rt, &mut b);
    call(&a, &b, &mut out);
    test_lines::tell(rt, Numbers(&out));
}
