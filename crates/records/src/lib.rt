// What is printed of a capture: its records and their sums, where it stands after its lines, what the calls that work through it promise, and what
// follows for every list of them. The types of these, and no code.
#![tactic(auto)]

// Where a capture stands: its first line is to come; its packet lines are worked through; or its first line was bad.
#[derive(Clone, Copy)]
pub enum Stage {
    Opening,
    Working,
    Closed,
}

// How far a capture has been worked through: its stage, how many bytes of a line that has not ended are kept (8,193 where there are more than a line
// has), and the sums of the records so far.
#[derive(Clone, Copy)]
pub struct Progress {
    pub stage: Stage,
    pub have: usize,
    pub lines: u64,
    pub accepted: u64,
    pub refused: u64,
    pub known: u64,
}

// What was made of a piece of the input: how far the capture has come, how many bytes were taken, and how many were written.
#[derive(Clone, Copy)]
pub struct Pass {
    pub progress: Progress,
    pub taken: usize,
    pub written: usize,
}
