// The three demands as statements about the public calls. There is no code here: specs/ has a file for each demand, proofs/ its proof.
#![tactic(auto)]

// The least that makes a crate.
pub fn nothing() -> u64 {
    0
}
