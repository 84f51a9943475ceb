//! How many steps a walk takes, said in its contract and counted at no cost.
#![tactic(auto)]

mod steps;

pub use steps::Steps;
