// What a key gathers from the two passes: `alive_messages`, `mark_leaves` and the loop over the keys of the original.
ghost use Rattle.std.specs.Prelude.{◌≤◌, ◌<◌, take};
ghost use Rattle.factor.specs.Limits.{max_variables};
ghost use Rattle.plan.specs.Mask.{Set};
ghost use Rattle.plan.specs.Pass as pass;
ghost use Rattle.plan.specs.Gather as spec;

use crate::PASS_SLOTS;
use crate::masks::{single, single64, union};
use crate::pass::Pass;
use factor::limits::{FACTORS, VARIABLES};

// Originals in the order in which they are listed, the first `count` of items; and the messages still to be opened, the first
// `top` of stack with the top last.
#[derive(Drop)]
pub struct Listing {
    pub items: [u8; FACTORS],
    pub count: usize,
    pub stack: [u8; VARIABLES],
    pub top: usize,
}

// What a key gathers: sets of messages; the leaves, the first `count` of items; of these, from `covered` on, the uncovered
// originals; and the set of the keys cleared last.
#[derive(Clone, Copy)]
pub struct Gathered {
    pub forward: u32,
    pub backward: u32,
    pub items: [u8; FACTORS],
    pub covered: usize,
    pub count: usize,
    pub last: u32,
}

// The messages among the slots from one place to another.
fn messages_in(content: &[u8; PASS_SLOTS], from: usize, to: usize) -> u32
    requires codes { pass.Codes to content.now }
    requires from_le_to { from ≤ to }
    ensures { spec.Inner from to content.now result }
{
    let mut r = 0u32;
    for &s in &content[from..to] {
        let s = usize::from(s);
        if FACTORS <= s {
            r |= single(s - FACTORS);
        }
    }
    r
}

// The messages of step at most t that no such message contains.
fn alive_messages(messages: Pass, t: usize) -> u32
    requires { pass.PassReady max_variables messages }
    ensures { spec.Alive t messages result }
{
    let mut upto = 0u32;
    let mut within = 0u32;
    for i in 0..messages.count {
        let at = usize::from(messages.steps[i]);
        if at <= t {
            upto |= single(i);
            let from = usize::from(messages.starts[i]);
            let to = usize::from(messages.ends[i]);
            within |= messages_in(&messages.board.content, from, to);
        }
    }
    upto ^ (upto & within)
}

// One message is opened: the originals of its content are listed, its messages pushed, in content order.
fn visit(content: &[u8; PASS_SLOTS], from: usize, to: usize, listing: Listing) -> Listing
    requires { spec.Visitable content.now from to listing }
    ensures { spec.Visited content.now from to listing result }
{
    let mut l = listing;
    for &code in &content[from..to] {
        let s = usize::from(code);
        if s < FACTORS {
            l.items[l.count] = code;
            l.count += 1;
        } else {
            l.stack[l.top] = (s - FACTORS) as u8;
            l.top += 1;
        }
    }
    l
}

// The leaves under the message `root`: the top of the stack is opened until none is left.
fn mark_leaves(messages: Pass, root: usize, listing: Listing) -> Listing
    requires pass_ready { pass.PassReady max_variables messages }
    requires space { spec.Space listing }
    requires openable { spec.Openable messages root listing }
    ensures { spec.Opened messages root listing result }
{
    let mut l = listing;
    l.stack[0] = root as u8;
    l.top = 1;
    while 0 < l.top {
        l.top -= 1;
        let m = usize::from(l.stack[l.top]);
        let from = usize::from(messages.starts[m]);
        let to = usize::from(messages.ends[m]);
        l = visit(&messages.board.content, from, to, l);
    }
    l
}

// The leaves under each message of a set, by rising message.
fn leaves_of(messages: Pass, set: u32, listing: Listing) -> Listing
    requires pass_ready { pass.PassReady max_variables messages }
    requires space { spec.Space listing }
    requires listable { spec.Listable messages set listing }
    ensures { spec.SetListed messages set listing result }
{
    let mut l = listing;
    for j in 0..messages.count {
        if set & single(j) != 0 {
            l = mark_leaves(messages, j, l);
        }
    }
    l
}

// The set of the originals listed first.
fn items_set(items: &[u8; FACTORS], count: usize) -> u64
    requires { spec.Items count items.now }
    ensures { Set (take count items.now) result }
{
    let mut r = 0u64;
    for &x in &items[..count] {
        r |= single64(usize::from(x));
    }
    r
}

// The live originals that are not listed yet follow, in their own order: they are uncovered.
fn uncovered(live: [u8; FACTORS], count: usize, listing: Listing) -> Listing
    requires live { pass.Live live count }
    requires space { spec.Space listing }
    requires coverable { spec.Coverable live count listing }
    ensures { spec.OthersListed live count listing result }
{
    let mut l = listing;
    let covered = items_set(&l.items, l.count);
    for &x in &live[..count] {
        if covered & single64(usize::from(x)) == 0 {
            l.items[l.count] = x;
            l.count += 1;
        }
    }
    l
}

// The kept keys of the messages of a set.
fn kept_keys(messages: Pass, set: u32) -> u32
    requires { pass.PassReady max_variables messages }
    ensures { spec.Kept messages set result }
{
    let mut r = 0u32;
    for j in 0..messages.count {
        if set & single(j) != 0 {
            r |= messages.masks[FACTORS + j];
        }
    }
    r
}

// What the key k gathers: the forward messages of step at most r, the backward ones of step at most s, and the uncovered
// originals. All other keys of these are cleared last.
pub fn gather(
    fw: Pass,
    bw: Pass,
    keys: [u32; FACTORS],
    live: [u8; FACTORS],
    count: usize,
    r: usize,
    s: usize,
    k: usize,
) -> Gathered
    requires gatherable { spec.Gatherable fw bw live count r s }
    requires k_lt_max_variables { k < max_variables }
    ensures gathers { spec.Gathers fw bw keys (take count live) r s k result }
    ensures held { spec.Held result }
{
    let forward = alive_messages(fw, r);
    let backward = alive_messages(bw, s);
    let empty = Listing {
        items: [0; FACTORS],
        count: 0,
        stack: [0; VARIABLES],
        top: 0,
    };
    let one = leaves_of(fw, forward, empty);
    let two = leaves_of(bw, backward, one);
    let covered = two.count;
    let all = uncovered(live, count, two);
    let fk = kept_keys(fw, forward);
    let bk = kept_keys(bw, backward);
    let uk = union(&keys, &all.items, covered, all.count);
    let touched = (fk | bk) | uk;
    let own = single(k);
    Gathered {
        forward: forward,
        backward: backward,
        items: all.items,
        covered: covered,
        count: all.count,
        last: touched ^ (touched & own),
    }
}
