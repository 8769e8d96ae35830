// The plan of a graph over fixed arrays: what the crate `schedule` defines over lists, computed.
// A set of keys, or of messages, is a mask whose bit j says whether j is in it. A slot is a number: an original by its own, below
// FACTORS, and the message j as FACTORS + j.
#![tactic(auto)]

pub mod factors;
pub mod gather;
pub mod masks;
pub mod order;
pub mod pass;
pub mod plan;

use factor::limits::{FACTORS, VARIABLES};

// How many slots a pass has at most: all originals, and a message a key.
pub const PASS_SLOTS: usize = FACTORS + VARIABLES;
