// The planes of a round, as in plain.rt, of a state whose lanes 1, 2, 8, 12, 17 and 20 are kept complemented, and stay so: 5 complements a round
// in place of 25, since x | !y is !(!x & y). x86-64 has no `!x & y` on words, so that the permutation of one state takes a tenth less time.
ghost use Rattle.keccak.specs.Complement.{kept_row};

use crate::{Planes, turned_row};

pub struct Kept;

impl Planes for Kept {
    ghost rows = { kept_row };

    #[inline(always)]
    fn plane(a: [u64; 25], d: [u64; 5], y: usize) -> [u64; 5] {
        let [b0, b1, b2, b3, b4] = turned_row(a, d, y);
        match y {
            0 => {
                let n2 = !b2;
                [
                    b0 ^ (b1 | b2),
                    b1 ^ (n2 | b3),
                    b2 ^ (b3 & b4),
                    b3 ^ (b4 | b0),
                    b4 ^ (b0 & b1),
                ]
            }
            1 => {
                let n4 = !b4;
                [
                    b0 ^ (b1 | b2),
                    b1 ^ (b2 & b3),
                    b2 ^ (b3 | n4),
                    b3 ^ (b4 | b0),
                    b4 ^ (b0 & b1),
                ]
            }
            2 => {
                let n3 = !b3;
                [
                    b0 ^ (b1 | b2),
                    b1 ^ (b2 & b3),
                    b2 ^ (n3 & b4),
                    n3 ^ (b4 | b0),
                    b4 ^ (b0 & b1),
                ]
            }
            3 => {
                let n3 = !b3;
                [
                    b0 ^ (b1 & b2),
                    b1 ^ (b2 | b3),
                    b2 ^ (n3 | b4),
                    n3 ^ (b4 & b0),
                    b4 ^ (b0 | b1),
                ]
            }
            _ => {
                let n1 = !b1;
                [
                    b0 ^ (n1 & b2),
                    n1 ^ (b2 | b3),
                    b2 ^ (b3 & b4),
                    b3 ^ (b4 | b0),
                    b4 ^ (b0 & b1),
                ]
            }
        }
    }
}
