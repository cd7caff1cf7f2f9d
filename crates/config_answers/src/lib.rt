//! Answers to questions about settings, as `git config` gives them: which settings are asked for, what is
//! written for each, and the exit status.
#![tactic(auto)]

pub mod answer;
pub mod choice;
pub mod keys;
pub mod laws;
pub mod line;
pub mod read;
pub mod typed;
