//! Tests of belts.
#![tactic(auto)]

#[cfg(test)]
mod belts;
