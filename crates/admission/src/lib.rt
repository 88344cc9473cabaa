// A packet that is let in: its checks and its equations (`source`, `repair`), where it lies and the state after it (`packet`). Until all of its
// equations are found to agree with the state, the state is only read.
#![tactic(auto)]

pub mod packet;
pub mod repair;
pub mod source;
