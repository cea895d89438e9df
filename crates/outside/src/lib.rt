// Tests of what other crates can call and none here does, called as such a crate would. Expected values are the paper's, of its bench card A.
#![tactic(auto)]

#[cfg(test)]
mod tests;
