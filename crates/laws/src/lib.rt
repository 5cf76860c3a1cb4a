// Mathematics that every layer cites: definitions in specs/, laws about them in proofs/. There is no code to speak of.
#![tactic(auto)]

// The least that makes a crate.
pub fn nothing() -> u64 {
    0
}
