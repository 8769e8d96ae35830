// The kinds of records, and what an observation's flag means.
ghost use Rattle.std.specs.Prelude.{◌≡◌, ◌+◌, ◌*◌, ◌≤◌, length, OnSome};
ghost use Rattle.factor.specs.Limits.{max_rows};
ghost use Rattle.records.specs.Records as spec;

use crate::bytes::MARK_BYTES;
use crate::input::Reader;

#[derive(Clone, Copy)]
pub enum Mark {
    Variable,
    Prior,
    Observation,
    Superseding,
}

// Where the variance comes from: this on the diagonal and 0 elsewhere, or numbers that follow.
#[derive(Clone, Copy)]
pub enum Flag {
    Diagonal(f64),
    Given,
}

// The mark here; one that is cut marks no kind.
#[tactic(auto, unfolding(crate::specs::Records::mark_at, crate::specs::Records::mark_of))]
pub fn mark_at(r: Reader) -> Option<Mark>
    ensures value { result ≡ spec.mark_at r.entry.bytes.now r.entry.at }
    ensures whole { OnSome result (r.entry.at + spec.mark_bytes ≤ length r.entry.bytes.now) }
{
    match r.rest().first_chunk::<MARK_BYTES>()? {
        [b'V', b'A'] => Some(Mark::Variable),
        [b'P', b'R'] => Some(Mark::Prior),
        [b'O', b'B'] => Some(Mark::Observation),
        [b'S', b'U'] => Some(Mark::Superseding),
        _ => None,
    }
}

// What the flag of an observation says of its variance; `meanings` in specs/Records.antt is the table.
pub fn meaning(flag: u8) -> Option<Flag>
    ensures { result ≡ spec.meaning flag }
{
    match flag {
        0 => Some(Flag::Diagonal(0.25)),
        1 => Some(Flag::Given),
        2 => Some(Flag::Diagonal(1.0)),
        _ => None,
    }
}

// How many numbers of the variance the record has.
pub fn given(flag: Flag, rows: usize) -> usize
    requires { rows ≤ max_rows }
    ensures { (result ≡ spec.given_numbers flag rows) × (result ≤ max_rows * max_rows) }
{
    match flag {
        Flag::Diagonal(_) => 0,
        Flag::Given => rows * rows,
    }
}
