#![tactic(auto)]

pub mod utils;
