// The fixpoint iterator: it computes the proposal that crate proposer defines.
#![tactic(auto)]

mod given;
mod leave;
mod nearest;
mod pass;
mod places;
mod plan;
pub mod propose;
mod start;
mod walk;
mod write;
