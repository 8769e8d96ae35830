// The lines that are printed: an outcome, and whether the graph and the store are as they were.
ghost use Rattle.std.specs.Prelude.{◌≤◌};

use factor::limits::FACTORS;
use graph::refusal::{Refusal, code};
use graph::{Graph, Symbol};
use streams::{print_named, write_all};

// The numbers of the longest store that a call is lent.
const ROOM: usize = 130;

fn print(rt: &HostRuntime, text: &[u8]) {
    let _ = write_all(&mut rt.stdout(), text);
}

fn print_state(rt: &HostRuntime, same_graph: bool, same_store: bool) {
    if same_graph {
        print(rt, b", graph as it was");
    } else {
        print(rt, b", graph changed");
    }
    if same_store {
        print(rt, b", store as it was\n");
    } else {
        print(rt, b", store changed\n");
    }
}

// What a call answered, as a number of that name, and whether it left the graph and the store as they were.
fn line(
    rt: &HostRuntime,
    label: &[u8],
    name: &[u8],
    outcome: Result<usize, Refusal>,
    same_graph: bool,
    same_store: bool,
) {
    print(rt, label);
    print(rt, b": ");
    let _ = match outcome {
        Ok(number) => print_named(&mut rt.stdout(), name, number),
        Err(why) => print_named(&mut rt.stdout(), b"refused ", code(why)),
    };
    print_state(rt, same_graph, same_store);
}

// Registers a variable, prints a line of what came of it, and hands the graph on.
pub fn variable(
    rt: &HostRuntime,
    label: &[u8],
    g: Graph,
    letter: u32,
    index: u32,
    size: usize,
) -> Graph {
    let mut next = g;
    let outcome = next.add_variable(Symbol(letter, index), size);
    line(rt, label, b"key ", outcome, g == next, true);
    next
}

// As `variable`, with a call that registers a factor; it is lent a store of `room` numbers, all of them 9.
fn registered<F: FnOnce(&mut Graph, &mut [f64]) -> Result<usize, Refusal>>(
    rt: &HostRuntime,
    label: &[u8],
    g: Graph,
    room: usize,
    call: F,
) -> Graph
    requires room { room ≤ 130 }
    requires callable { F.IsAlwaysCallable call }
{
    let mut store = [9.0; ROOM];
    let mut next = g;
    let outcome = call(&mut next, &mut store[..room]);
    let untouched = store.iter().all(|&x| x == 9.0);
    line(rt, label, b"number ", outcome, g == next, untouched);
    next
}

pub fn prior(
    rt: &HostRuntime,
    label: &[u8],
    g: Graph,
    key: usize,
    mean: &[f64],
    variance: &[f64],
    room: usize,
) -> Graph
    requires { room ≤ 130 }
{
    registered(rt, label, g, room, |g, store| {
        g.add_prior(key, mean, variance, store)
    })
}

pub fn observation(
    rt: &HostRuntime,
    label: &[u8],
    g: Graph,
    keys: &[usize],
    rows: usize,
    a: &[f64],
    mean: &[f64],
    variance: &[f64],
    room: usize,
) -> Graph
    requires { room ≤ 130 }
{
    registered(rt, label, g, room, |g, store| {
        g.add_observation(keys, rows, a, mean, variance, store)
    })
}

// As `prior`, in place of the factor of that number.
pub fn over_prior(
    rt: &HostRuntime,
    label: &[u8],
    g: Graph,
    number: usize,
    key: usize,
    mean: &[f64],
    variance: &[f64],
    room: usize,
) -> Graph
    requires { room ≤ 130 }
{
    registered(rt, label, g, room, |g, store| {
        g.supersede_prior(number, key, mean, variance, store)
    })
}

// As `observation`, in place of the factor of that number.
pub fn over_observation(
    rt: &HostRuntime,
    label: &[u8],
    g: Graph,
    number: usize,
    keys: &[usize],
    rows: usize,
    a: &[f64],
    mean: &[f64],
    variance: &[f64],
    room: usize,
) -> Graph
    requires { room ≤ 130 }
{
    registered(rt, label, g, room, |g, store| {
        g.supersede_observation(number, keys, rows, a, mean, variance, store)
    })
}

// Both calls in place of the factor of that number, with arguments that are accepted where it is live.
pub fn over_each(rt: &HostRuntime, label: &[u8], g: Graph, number: usize) {
    let one = [1.0];
    over_prior(rt, label, g, number, 0, &one, &one, 32);
    over_observation(rt, label, g, number, &[], 1, &[], &one, &one, 32);
}

// The numbers of the live factors.
pub fn live(rt: &HostRuntime, label: &[u8], g: Graph) {
    print(rt, label);
    print(rt, b": live");
    for number in 0..FACTORS {
        if g.is_live(number) {
            let _ = print_named(&mut rt.stdout(), b" ", number);
        }
    }
    print(rt, b"\n");
}

// A record that no calls yield: each call is made on it, with arguments that a right one would accept.
pub fn forged(rt: &HostRuntime, label: &[u8], g: Graph) {
    let one = [1.0];
    variable(rt, label, g, 122, 0, 1);
    prior(rt, label, g, 0, &one, &one, 32);
    observation(rt, label, g, &[], 1, &[], &one, &one, 32);
}

// `forged` for a graph that is changed first.
pub fn changed<F: FnOnce(&mut Graph)>(rt: &HostRuntime, label: &[u8], g: Graph, change: F)
    requires { F.IsAlwaysCallable change }
{
    let mut bad = g;
    change(&mut bad);
    forged(rt, label, bad);
}
