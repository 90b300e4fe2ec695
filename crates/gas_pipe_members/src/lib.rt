//! The members of a line, the worker and the feeder, over any two ends of belts. Also the plan that
//! they follow, and belts with both ends on one thread.
#![tactic(auto)]

pub mod ends;
pub mod feeder;
pub mod plain_belt;
pub mod plan;
pub mod worker;
