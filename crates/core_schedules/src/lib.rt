//! Random schedules of the pure core, each beside a plain list of its samples.
#![tactic(auto)]

#[cfg(test)]
mod tests;
