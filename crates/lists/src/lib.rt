// The lists of an elimination, out of a plan's arrays: kept keys, cleared keys and slots.
#![tactic(auto)]

ghost use Rattle.std.specs.Prelude.{◌≡◌, ◌++◌, map, ◌+◌, ◌<◌, ◌≤◌, length, take};
ghost use Rattle.factor.specs.Limits.{max_variables};
ghost use Rattle.schedule.specs.Pass.{at};
ghost use Rattle.plan.specs.Mask.{keys_in};
ghost use Rattle.plan.specs.Pass.{PassReady, messages_of};
ghost use Rattle.plan.specs.Gather.{Held, gathered_of};
ghost use Rattle.lists.specs.Lists.{backward_shift, first_backward, raised, Holds, HoldsGathered};

use factor::limits::{FACTORS, VARIABLES};
use plan::gather::Gathered;
use plan::masks::single;
use plan::pass::Pass;
use slots::limits::SLOTS;

// How far the backward messages' numbers stand after the forward ones'.
pub const BACKWARD: usize = VARIABLES;

// Each list in the first places of its array.
#[derive(Drop)]
pub struct Lists {
    pub kept: [usize; VARIABLES],
    pub keeps: usize,
    pub cleared: [usize; VARIABLES],
    pub clears: usize,
    pub slots: [usize; SLOTS],
    pub count: usize,
}

// The members of a set, rising and each raised by so much, follow the first places of a list; the answer is the place after them.
fn put_set(list: &mut [usize], at: usize, set: u32, shift: usize) -> usize
    requires { (at + max_variables ≤ length list.old) × (shift ≤ first_backward) }
    ensures list_after { take result list.new ≡ take at list.old ++ map (λ j. shift + j) (keys_in set) }
    ensures upper_bound { result ≤ at + max_variables }
{
    let mut to = at;
    for j in 0..VARIABLES {
        if set & single(j) != 0 {
            list[to] = shift + j;
            to += 1;
        }
    }
    to
}

fn raised(s: u8, shift: usize) -> usize
    requires { shift ≤ first_backward }
    ensures { result ≡ raised shift s }
{
    let n = usize::from(s);
    if n < FACTORS { n } else { n + shift }
}

// Appends the slots and answers the place after them. Numbers of messages are raised by `shift`: 0 for the forward pass, `BACKWARD`
// for the backward one, so that the messages of the two passes have numbers of their own.
fn put_slots(list: &mut [usize], at: usize, slots: &[u8], shift: usize) -> usize
    requires { (at + length slots.now ≤ length list.old) × (shift ≤ first_backward) }
    ensures list_after { take result list.new ≡ take at list.old ++ map (raised shift) slots.now }
    ensures value { result ≡ at + length slots.now }
{
    for (i, &s) in slots.iter().enumerate() {
        list[at + i] = raised(s, shift);
    }
    at + slots.len()
}

// The lists of one message of a pass.
pub fn message_lists(p: Pass, j: usize, shift: usize) -> Lists
    requires { PassReady max_variables p × (j < p.count) × (shift ≤ backward_shift) }
    ensures { Holds shift (at (messages_of p) j) result }
{
    let from = usize::from(p.starts[j]);
    let to = usize::from(p.ends[j]);
    let mut kept = [0; VARIABLES];
    let mut cleared = [0; VARIABLES];
    let mut slots = [0; SLOTS];
    let k = put_set(&mut kept, 0, p.masks[FACTORS + j], 0);
    let c = put_set(&mut cleared, 0, p.cleared[j], 0);
    let n = put_slots(&mut slots, 0, &p.board.content[from..to], shift);
    Lists {
        kept: kept,
        keeps: k,
        cleared: cleared,
        clears: c,
        slots: slots,
        count: n,
    }
}

// The lists of the last elimination of a key.
pub fn gathered_lists(q: Gathered, key: usize) -> Lists
    requires { Held q }
    ensures { HoldsGathered key (gathered_of q) result }
{
    let mut kept = [0; VARIABLES];
    let mut cleared = [0; VARIABLES];
    let mut slots = [0; SLOTS];
    kept[0] = key;
    let c = put_set(&mut cleared, 0, q.last, 0);
    let f = put_set(&mut slots, 0, q.forward, FACTORS);
    let b = put_set(&mut slots, f, q.backward, FACTORS + BACKWARD);
    let n = put_slots(&mut slots, b, &q.items[q.covered..q.count], 0);
    Lists {
        kept: kept,
        keeps: 1,
        cleared: cleared,
        clears: c,
        slots: slots,
        count: n,
    }
}
