// The planes of a round, 3.2.1 to 3.2.4 lane by lane. SSE2 has `!x & y`, so the pair uses these.
ghost use Rattle.keccak.specs.Lanes.{row};

use crate::{Planes, turned_row};

pub struct Plain;

impl Planes for Plain {
    ghost rows = { row };

    #[inline(always)]
    fn plane(a: [u64; 25], d: [u64; 5], y: usize) -> [u64; 5] {
        let [b0, b1, b2, b3, b4] = turned_row(a, d, y);
        [
            b0 ^ (!b1 & b2),
            b1 ^ (!b2 & b3),
            b2 ^ (!b3 & b4),
            b3 ^ (!b4 & b0),
            b4 ^ (!b0 & b1),
        ]
    }
}
