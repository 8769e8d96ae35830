// The plan of a graph: both passes along an order of the keys, and what each key gathers.
ghost use Rattle.std.specs.Prelude.{◌≡◌, reverse, ◌≤◌, length, take};
ghost use Rattle.factor.specs.Limits.{max_variables};
ghost use Rattle.schedule.specs.Count.{from};
ghost use Rattle.schedule.specs.Plan as schedule;
ghost use Rattle.plan.specs.Factors.{keys_among};
ghost use Rattle.plan.specs.Plan as spec;

use crate::factors::masks_of;
use crate::gather::{Gathered, gather};
use crate::pass::{Pass, full_pass};
use factor::Factor;
use factor::limits::{FACTORS, VARIABLES};

// The messages of both passes, and at[k] what the key k gathers.
#[derive(Clone, Copy)]
pub struct Plan {
    pub forward: Pass,
    pub backward: Pass,
    pub at: [Gathered; VARIABLES],
}

// The order of the backward pass.
fn reversed(order: [u8; VARIABLES], n: usize) -> [u8; VARIABLES]
    requires { n ≤ max_variables }
    ensures { take n result ≡ reverse (take n order) }
{
    let mut r = order;
    r[..n].reverse();
    r
}

// The place of a key in the order, which is its step in the forward pass.
fn place(order: [u8; VARIABLES], n: usize, k: usize) -> usize
    requires { n ≤ max_variables }
    ensures { result ≡ spec.key_place k (take n order) }
{
    order[..n]
        .iter()
        .position(|x| usize::from(*x) == k)
        .unwrap_or(n)
}

// The plan for n keys along an order, over the first `count` of the live originals, from the key sets of the originals. What is
// required says only that keys are below n, that no live original stands twice, and that the order is one of the n keys.
fn make_plan(
    keys: [u32; FACTORS],
    live: [u8; FACTORS],
    count: usize,
    order: [u8; VARIABLES],
    n: usize,
) -> Plan
    requires { spec.Sound keys live count order n }
    ensures plans { spec.Plans keys (take count live) (take n order) n result }
    ensures bounded { spec.Bounded n result }
{
    let fw = full_pass(keys, live, count, order, n);
    let back = reversed(order, n);
    let bw = full_pass(keys, live, count, back, n);
    let blank = Gathered {
        forward: 0,
        backward: 0,
        items: [0; FACTORS],
        covered: 0,
        count: 0,
        last: 0,
    };
    let mut at = [blank; VARIABLES];
    for k in 0..n {
        let r = place(order, n, k);
        let s = n - 1 - r;
        at[k] = gather(fw, bw, keys, live, count, r, s, k);
    }
    Plan {
        forward: fw,
        backward: bw,
        at: at,
    }
}

// The plan of the first `count` factors over n keys: over the first `lives` of the live originals, along an order of the keys.
pub fn plan_of(
    factors: [Factor; FACTORS],
    count: usize,
    live: [u8; FACTORS],
    lives: usize,
    order: [u8; VARIABLES],
    n: usize,
) -> Plan
    requires registered { spec.Registered factors count n }
    requires ordered { spec.Ordered live lives order n }
    ensures result_value { spec.plan_in n result ≡ schedule.plan n (keys_among factors count) (take lives live) (take n order) }
    ensures bounded { spec.Bounded n result }
{
    let keys = masks_of(factors, count);
    make_plan(keys, live, lives, order, n)
}

// Every place holds its own number: all keys, rising.
pub fn rise(list: &mut [u8])
    requires { length list.old ≤ 256 }
    ensures { list.new ≡ from 0 (length list.old) }
{
    for i in 0..list.len() {
        list[i] = i as u8;
    }
}
