//! The callers of `uses`, run over texts, a connection that breaks, and a writer that is full.
#![tactic(auto)]

#[cfg(test)]
mod callers;
