//! Piles of layers over a stranger's bottom: no proof is owed for any of them.
#![tactic(auto)]

#[cfg(test)]
mod tests;
