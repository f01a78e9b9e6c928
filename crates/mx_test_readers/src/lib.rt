//! Tests of what is told of an input that can't be read, and of how far one is read.
#![tactic(auto)]

#[cfg(test)]
mod tests;
