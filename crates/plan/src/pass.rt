// The schedule of one pass: `full_pass` of the original, without its arithmetic.
ghost use Rattle.std.specs.Prelude.{◌+◌, ◌≤◌, ◌<◌, ◌≡◌, take};
ghost use Rattle.factor.specs.Limits.{max_variables, max_factors};
ghost use Rattle.plan.specs.Pass as spec;

use crate::PASS_SLOTS;
use crate::masks::{single, union};
use factor::limits::{FACTORS, VARIABLES};

// The active slots are the first `used` of slots; the contents of all messages so far, one after the other, are the first
// `filled` of content.
#[derive(Clone, Copy)]
pub struct Board {
    pub slots: [u8; PASS_SLOTS],
    pub used: usize,
    pub content: [u8; PASS_SLOTS],
    pub filled: usize,
}

// A pass on its way, and at its end the messages it made: of the message j, kept keys masks[FACTORS + j], cleared keys cleared[j],
// step steps[j], content the slots of board.content from starts[j] to ends[j]. The keys of the original i are masks[i].
#[derive(Clone, Copy)]
pub struct Pass {
    pub masks: [u32; PASS_SLOTS],
    pub cleared: [u32; VARIABLES],
    pub steps: [u8; VARIABLES],
    pub starts: [u8; VARIABLES],
    pub ends: [u8; VARIABLES],
    pub count: usize,
    pub active: u32,
    pub board: Board,
}

// The coupled keys: those of every active slot that touches a key which is not active.
fn coupled<'a>(
    masks: &'a [u32; PASS_SLOTS],
    slots: &'a [u8; PASS_SLOTS],
    used: usize,
    active: u32,
) -> u32
    requires { spec.Codes used slots.now }
    ensures { spec.Coupled masks.now active (take used slots.now) result }
{
    let mut r = 0u32;
    for &s in &slots[..used] {
        let m = masks[usize::from(s)];
        if m & active != m {
            r |= m;
        }
    }
    r
}

// The walk over the active slots: one that touches a cleared key is taken out to the content, and the last slot moves into its
// place, which is looked at again. The order of the content is the order of the walk.
fn walk(masks: &[u32; PASS_SLOTS], board: Board, cleared: u32) -> Board
    requires { spec.BoardRoom board }
    ensures { spec.Walks masks.now cleared board result }
{
    let mut b = board;
    let mut i = 0;
    while i < b.used {
        let code = b.slots[i];
        let m = masks[usize::from(code)];
        if m & cleared != 0 {
            let f = b.filled;
            b.content[f] = code;
            b.filled = f + 1;
            let last = b.used - 1;
            let moved = b.slots[last];
            b.slots[i] = moved;
            b.used = last;
        } else {
            i += 1;
        }
    }
    b
}

// The pass before its first step: no key is active, and there is no message. The active slots are the live originals, and only
// originals have masks.
fn begin(keys: [u32; FACTORS], live: [u8; FACTORS], count: usize) -> Pass
    requires { spec.Live live count }
    ensures pass_ready { spec.PassReady 0 result }
    ensures begins { spec.Begins keys live count result }
{
    let mut masks = [0u32; PASS_SLOTS];
    masks[..FACTORS].copy_from_slice(&keys);
    let mut slots = [0u8; PASS_SLOTS];
    slots[..count].copy_from_slice(&live[..count]);
    let content = [0u8; PASS_SLOTS];
    let cleared = [0u32; VARIABLES];
    let zeros = [0u8; VARIABLES];
    Pass {
        masks: masks,
        cleared: cleared,
        steps: zeros,
        starts: zeros,
        ends: zeros,
        count: 0,
        active: 0,
        board: Board {
            slots: slots,
            used: count,
            content: content,
            filled: 0,
        },
    }
}

impl Pass {
    // The message of the step t, which clears the given keys: its content is what the walk takes out, and it keeps those of the
    // content's keys that are still active. It becomes an active slot itself.
    fn send(mut self, cleared: u32, t: usize) -> Pass
        requires pass_ready { spec.PassReady t self }
        requires t_lt_max_variables { t < max_variables }
        ensures pass_ready_2 { spec.PassReady (t + 1) result }
        ensures sends { spec.Sends cleared t self result }
    {
        let c = self.count;
        let start = self.board.filled;
        let mut w = walk(&self.masks, self.board, cleared);
        let stop = w.filled;
        let keys = union(&self.masks, &w.content, start, stop);
        let s = FACTORS + c;
        w.slots[w.used] = s as u8;
        w.used += 1;
        self.masks[s] = self.active & keys;
        self.cleared[c] = cleared;
        self.steps[c] = t as u8;
        self.starts[c] = start as u8;
        self.ends[c] = stop as u8;
        self.board = w;
        self.count = c + 1;
        self
    }

    // The step t, of the key k: k becomes active, and the active keys other than k that are not coupled are cleared. A message
    // arises exactly if there is one.
    fn step(mut self, k: usize, t: usize) -> Pass
        requires pass_ready { spec.PassReady t self }
        requires t_lt_max_variables { t < max_variables }
        requires k_lt_max_variables { k < max_variables }
        ensures pass_ready_2 { spec.PassReady (t + 1) result }
        ensures steps { spec.Steps k t self result }
    {
        let one = single(k);
        let active = one | self.active;
        let cp = coupled(&self.masks, &self.board.slots, self.board.used, active);
        let left = (one | cp) & active;
        let cleared = active ^ left;
        self.active = left;
        if cleared == 0 {
            return self;
        }
        self.send(cleared, t)
    }
}

// The pass along an order of the n keys, over the first `count` of the live originals: its messages are those of the definition.
pub fn full_pass(
    keys: [u32; FACTORS],
    live: [u8; FACTORS],
    count: usize,
    order: [u8; VARIABLES],
    n: usize,
) -> Pass
    requires live { spec.Live live count }
    requires order { spec.Order order n }
    ensures pass_ready { spec.PassReady n result }
    ensures passes { spec.Passes keys (take count live) (take n order) n result }
{
    let mut p = begin(keys, live, count);
    for t in 0..n {
        p = p.step(usize::from(order[t]), t);
    }
    p
}
