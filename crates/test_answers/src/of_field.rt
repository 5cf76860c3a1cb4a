// Questions on the field.
use field::BFieldElement;
use test_lines::Numbers;

fn read_element(rt: &HostRuntime) -> BFieldElement {
    BFieldElement::new(test_lines::read_digits(rt, 16))
}

fn tell(rt: &HostRuntime, e: BFieldElement) {
    test_lines::tell(rt, Numbers(&[e.value()]));
}

// One operand.
pub fn one<F: Fn(BFieldElement) -> BFieldElement>(rt: &HostRuntime, call: F)
    requires { F.IsAlwaysCallable call }
{
    let e = read_element(rt);
    tell(rt, call(e));
}

// Two operands.
pub fn two<F: Fn(BFieldElement, BFieldElement) -> BFieldElement>(rt: &HostRuntime, call: F)
    requires { F.IsAlwaysCallable call }
{
    let e = read_element(rt);
    let f = read_element(rt);
    tell(rt, call(e, f));
}

// An operand and an exponent.
pub fn power(rt: &HostRuntime) {
    let e = read_element(rt);
    let exponent = test_lines::read_digits(rt, 16);
    tell(rt, e.mod_pow(exponent));
}

pub fn inverse(rt: &HostRuntime) {
    match read_element(rt).inverse() {
        Some(inverse) => tell(rt, inverse),
        None => test_lines::tell(rt, "refused---------"),
    }
}
