// The two directions of the transform: each has its table of zetas, and what a butterfly makes of two numbers.
ghost use Rattle.std.specs.Prelude.{◌≡◌, ℕ, ◌<◌};
ghost use Rattle.laws.specs.Lists.{tab};
ghost use Rattle.field.specs.Field.{P};
ghost use Rattle.ring.specs.Transform.{zeta, zeta_inv};
ghost use Rattle.ring.specs.Stages.{zeta_word, sum_of, difference_of, sum_back, difference_back};
ghost use Rattle.ring.specs.Stages.{forward_canonical, backward_canonical};

use crate::tables;
use field::BFieldElement;

pub trait Direction {
    // The two new numbers of a butterfly, from its zeta and its two old ones.
    ghost low: { ℕ → ℕ → ℕ → ℕ };

    ghost high: { ℕ → ℕ → ℕ → ℕ };

    // The rule of the table.
    ghost zetas: { ℕ → ℕ };

    fn zeta(&self, k: usize) -> BFieldElement
        requires { k < 64 }
        ensures { result ≡ zetas k };

    fn butterfly(zeta: BFieldElement, u: u64, v: u64) -> (u64, u64)
        requires { (u < P) × (v < P) }
        ensures { (result.0 ≡ low zeta u v) × (result.1 ≡ high zeta u v) };

    ghost canonical: { (z u v : ℕ) → (low z u v < P) × (high z u v < P) };
}

// The words of the zetas, so that no block has to make its element.
#[derive(Drop)]
pub struct Forward {
    words: [u64; 64],
    ghost rule: { words ≡ tab 64 zeta_word },
}

impl Forward {
    pub fn new() -> Self {
        Forward {
            words: tables::ZETA_WORDS,
        }
    }
}

impl Direction for Forward {
    ghost low = { sum_of };

    ghost high = { difference_of };

    ghost zetas = { zeta };

    ghost canonical = { forward_canonical };

    fn zeta(&self, k: usize) -> BFieldElement {
        BFieldElement::from_word(self.words[k])
    }

    fn butterfly(zeta: BFieldElement, u: u64, v: u64) -> (u64, u64) {
        let w = zeta.scaled(v);
        (field::add_mod_p(u, w), field::sub_mod_p(u, w))
    }
}

// The inverses of the zetas, as plain numbers.
#[derive(Drop)]
pub struct Backward {
    inverses: [u64; 64],
    ghost rule: { inverses ≡ tab 64 zeta_inv },
}

impl Backward {
    pub fn new() -> Self {
        Backward {
            inverses: tables::POWERS_OF_PSI_INV_BITREVERSED,
        }
    }
}

impl Direction for Backward {
    ghost low = { sum_back };

    ghost high = { difference_back };

    ghost zetas = { zeta_inv };

    ghost canonical = { backward_canonical };

    fn zeta(&self, k: usize) -> BFieldElement {
        BFieldElement::new(self.inverses[k])
    }

    fn butterfly(zeta: BFieldElement, u: u64, v: u64) -> (u64, u64) {
        (field::add_mod_p(u, v), zeta.scaled(field::sub_mod_p(u, v)))
    }
}
