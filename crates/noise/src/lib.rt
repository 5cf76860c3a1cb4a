// What noise does to a message: theorems on the definitions of crates ring and lanes, stated in specs/ and proved in proofs/. There is no code yet.
#![tactic(auto)]

// The least that makes a crate.
pub fn nothing() -> u64 {
    0
}
