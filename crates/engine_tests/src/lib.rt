//! Tests of a run's threads: what it prints, that workers run at the same time as each other and as the reporter, that one at a time
//! is in a section, what stands after a write that failed, and that a run is stopped.
#![tactic(auto)]

#[cfg(test)]
mod beside;
#[cfg(test)]
mod fakes;
#[cfg(test)]
mod faults;
#[cfg(test)]
mod given;
#[cfg(test)]
mod plans;
#[cfg(test)]
mod printed;
#[cfg(test)]
mod running;
#[cfg(test)]
mod runs;
#[cfg(test)]
mod sections;
#[cfg(test)]
mod slow;
#[cfg(test)]
mod stopping;
