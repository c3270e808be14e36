//! Tests of the numbered sections: seats that take turns, threads, and as many locks and seats as there may be.
#![tactic(auto)]

#[cfg(test)]
mod sections;
