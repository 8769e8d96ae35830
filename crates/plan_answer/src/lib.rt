// The plan of a graph as it is told: what a plan says, copied out of the arrays in which it was made.
// A set of keys, or of messages, is a mask whose bit j says whether j is in it. Unused places hold zeros.
#![tactic(auto)]

ghost use Rattle.std.specs.Prelude.{◌≡◌, map, ℕ, ◌≤◌, ◌<◌, get_or, take};
ghost use Rattle.factor.specs.Limits.{max_variables};
ghost use Rattle.schedule.specs.Pass.{at};
ghost use Rattle.plan.specs.Pass.{PassReady, messages_of};
ghost use Rattle.plan.specs.Gather.{Held, gathered_of};
ghost use Rattle.plan.specs.Plan.{Bounded, plan_in, no_gathered};
ghost use Rattle.plan_answer.specs.Answer as spec;

use factor::limits::{FACTORS, VARIABLES};
use plan::PASS_SLOTS;
use plan::gather::Gathered;
use plan::pass::Pass;

// A message: the step of its pass that made it, counted from 0; its content, the first `slots` of content, in the order in which
// the slots were taken; the set of the keys that it keeps, and of those that it clears. A slot is an original by its number, which
// is below FACTORS, or the message j of the same pass as FACTORS + j.
#[derive(Clone, Copy)]
pub struct Message {
    pub step: usize,
    pub content: [u8; PASS_SLOTS],
    pub slots: usize,
    pub kept: u32,
    pub cleared: u32,
}

// What a key gathers: the set of the forward and of the backward messages gathered; its leaves, the first `count` of leaves; and
// the set of the keys cleared last. The leaves before the place `covered` are those under the messages gathered, and those from it
// on are the originals gathered.
#[derive(Clone, Copy)]
pub struct KeyPlan {
    pub forward: u32,
    pub backward: u32,
    pub leaves: [u8; FACTORS],
    pub covered: usize,
    pub count: usize,
    pub last: u32,
}

// The messages of the forward pass are the first `forwards` of forward, those of the backward pass the first `backwards` of
// backward, each in the order in which they were made: the message j stands at j. What the key k gathers is at[k].
#[derive(Drop)]
pub struct Plan {
    pub forward: [Message; VARIABLES],
    pub forwards: usize,
    pub backward: [Message; VARIABLES],
    pub backwards: usize,
    pub at: [KeyPlan; VARIABLES],
}

// The message j of a pass.
fn message_of(p: Pass, j: usize) -> Message
    requires { PassReady max_variables p × (j < p.count) }
    ensures { result ≡ spec.message_of (at (messages_of p) j) }
{
    let from = usize::from(p.starts[j]);
    let to = usize::from(p.ends[j]);
    let slots = to - from;
    let mut content = [0u8; PASS_SLOTS];
    content[..slots].copy_from_slice(&p.board.content[from..to]);
    Message {
        step: usize::from(p.steps[j]),
        content: content,
        slots: slots,
        kept: p.masks[FACTORS + j],
        cleared: p.cleared[j],
    }
}

// All messages of a pass, each at its number.
fn message_table(p: Pass) -> [Message; VARIABLES]
    requires { PassReady max_variables p }
    ensures { result ≡ spec.message_table (messages_of p) }
{
    let blank = Message {
        step: 0,
        content: [0u8; PASS_SLOTS],
        slots: 0,
        kept: 0,
        cleared: 0,
    };
    let mut messages = [blank; VARIABLES];
    for j in 0..p.count {
        messages[j] = message_of(p, j);
    }
    messages
}

// What one key gathers.
fn key_plan_of(q: Gathered) -> KeyPlan
    requires { Held q }
    ensures { result ≡ spec.key_plan_of (gathered_of q) }
{
    let mut leaves = [0u8; FACTORS];
    leaves[..q.count].copy_from_slice(&q.items[..q.count]);
    KeyPlan {
        forward: q.forward,
        backward: q.backward,
        leaves: leaves,
        covered: q.covered,
        count: q.count,
        last: q.last,
    }
}

// What each of the first n keys gathers, at its own place.
fn key_table(at: [Gathered; VARIABLES], n: usize) -> [KeyPlan; VARIABLES]
    requires { (n ≤ max_variables) × ((k : ℕ) → k < n → Held (get_or at k no_gathered)) }
    ensures { result ≡ spec.key_table (map gathered_of (take n at)) }
{
    let blank = KeyPlan {
        forward: 0,
        backward: 0,
        leaves: [0u8; FACTORS],
        covered: 0,
        count: 0,
        last: 0,
    };
    let mut keys = [blank; VARIABLES];
    for k in 0..n {
        keys[k] = key_plan_of(at[k]);
    }
    keys
}

// The plan for n keys, copied out of the arrays in which it was made.
pub fn copy_out(p: plan::plan::Plan, n: usize) -> Plan
    requires { (n ≤ max_variables) × Bounded n p }
    ensures { result ≡ spec.answer_of (plan_in n p) }
{
    Plan {
        forward: message_table(p.forward),
        forwards: p.forward.count,
        backward: message_table(p.backward),
        backwards: p.backward.count,
        at: key_table(p.at, n),
    }
}
