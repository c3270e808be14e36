//! Tests of the recorder's layers: its words one call after another, and threads.
#![tactic(auto)]

#[cfg(test)]
mod recorder;
#[cfg(test)]
mod reporter;
#[cfg(test)]
mod words;
