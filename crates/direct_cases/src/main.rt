// Replays direct eliminations and runs over factor stores that a caller lends as they are: reads them from standard input and prints
// what each call answers and leaves in its stores. README.md has the form of the input.
#![tactic(auto)]

mod input;
mod report;

use graph::Graph;
use input::{at_most, byte, list, next, two, values};
use report::{print_direct, print_ran, print_store};
use streams::{COUNTED, print_numbered, read_full};

// More cases aren't read.
const CASES: usize = 4096;

// The longest stores that a case lends, and the longest list.
const FACTORS: usize = 2048;

const ROOM: usize = 512;

const WORK: usize = 4096;

const LIST: usize = 256;

fn main(rt: HostRuntime) {
    for number in 0..CASES {
        if replay(&rt, number).is_none() {
            return;
        }
    }
}

// The next case, or there is none.
fn replay(rt: &HostRuntime, number: usize) -> Option<()> {
    let kind = next(rt)?;
    let _ = print_numbered(&mut rt.stdout(), number, b"");
    let n = two(rt);
    let mut job = [0u8; COUNTED];
    read_full(&mut rt.stdin(), &mut job[..n]);
    let mut store = [0.0; FACTORS];
    let mut g = records::read(&job[..n], &mut store).graph;
    if byte(rt) != 0 {
        // a record that no calls yield
        g.variables = 33;
    }
    let given = at_most(rt, FACTORS);
    values(rt, &mut store[..given]);
    let lent = at_most(rt, FACTORS);
    if kind == b'D' {
        direct_case(rt, g, &store[..lent]);
    } else {
        run_case(rt, g, &store[..lent]);
    }
    Some(())
}

fn direct_case(rt: &HostRuntime, g: Graph, factors: &[f64]) {
    let mut slots = [0; LIST];
    let mut kept = [0; LIST];
    let mut cleared = [0; LIST];
    let s = list(rt, &mut slots);
    let k = list(rt, &mut kept);
    let c = list(rt, &mut cleared);
    let room = at_most(rt, ROOM);
    let works = at_most(rt, WORK);
    let mut messages = [9.0; ROOM];
    let mut work = [9.0; WORK];
    let answer = direct::eliminate(
        g,
        &slots[..s],
        &kept[..k],
        &cleared[..c],
        factors,
        &mut messages[..room],
        &mut work[..works],
    );
    print_direct(rt, answer);
    print_store(rt, &messages[..room]);
}

fn run_case(rt: &HostRuntime, g: Graph, factors: &[f64]) {
    let room = at_most(rt, ROOM);
    let works = at_most(rt, WORK);
    let found = at_most(rt, ROOM);
    let mut messages = [9.0; ROOM];
    let mut work = [9.0; WORK];
    let mut marginals = [9.0; ROOM];
    let ran = solver::run::run(
        g,
        factors,
        &mut messages[..room],
        &mut work[..works],
        &mut marginals[..found],
    );
    print_ran(rt, ran);
    print_store(rt, &messages[..room]);
    print_store(rt, &marginals[..found]);
}
