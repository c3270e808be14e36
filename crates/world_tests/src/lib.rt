//! Tests of worlds and tickers: that their calls succeed with ample memory, and how the ticker over the machine's clock goes.
#![tactic(auto)]

#[cfg(test)]
mod tickers;
#[cfg(test)]
mod worlds;
