// What reading a job answers.
use graph::Graph;
use graph::refusal::Refusal;

// A record was turned back: why, and its place among the records, from 0.
#[derive(Clone, Copy)]
pub struct Rejected {
    pub why: Refusal,
    pub place: usize,
}

// The graph of all records that were taken, and whether they are all that there were.
#[derive(Drop)]
pub struct Read {
    pub graph: Graph,
    pub ended: Result<(), Rejected>,
}
