//! Tests of threads by a schedule: which places their sections have.
#![tactic(auto)]

#[cfg(test)]
mod places;
