//! Tests of the libraries below: each call by itself, and callers that are proved from contracts alone. No crate uses
//! this one.
#![tactic(auto)]

#[cfg(test)]
mod tests;
