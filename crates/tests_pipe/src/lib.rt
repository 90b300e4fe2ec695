//! Tests of the places of belts and the gates of runs by threads, and of how a thread waits.
#![tactic(auto)]

#[cfg(test)]
mod places;
#[cfg(test)]
mod runs;
#[cfg(test)]
mod waits;
