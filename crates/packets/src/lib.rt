// Keys and packets as definitions, and demand 3 about them. The code that meets them is in crate seal.
#![tactic(auto)]

// The least that makes a crate.
pub fn nothing() -> u64 {
    0
}
