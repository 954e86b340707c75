//! Builds random programs of the whole language, and compares each answer with what plain code computes.
#![tactic(auto)]

#[cfg(test)]
mod programs;
