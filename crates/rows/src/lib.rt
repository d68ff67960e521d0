//! Test vectors: texts with their answers worked out by hand, as theorems, and hostile texts beside a reference
//! implementation of the grammar. No crate uses this one.
#![tactic(auto)]

#[cfg(test)]
mod tests;
