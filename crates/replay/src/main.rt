// Replays recorded jobs: reads them from standard input and prints the number of each, from 0, and below it what the job prints.
// A job stands behind the count of its bytes.
#![tactic(auto)]

use job::OUTPUT_ROOM;
use streams::{each_counted, print_numbered};

// More jobs aren't read.
const JOBS: usize = 65536;

fn main(rt: HostRuntime) {
    each_counted(&mut rt.stdin(), JOBS, |number, bytes| {
        print_answer(&rt, number, bytes);
        Some(())
    });
}

// The output is never too short.
fn print_answer(rt: &HostRuntime, number: usize, bytes: &[u8]) {
    let mut output = [0u8; OUTPUT_ROOM];
    let n = job::solve(bytes, &mut output).unwrap();
    let _ = print_numbered(&mut rt.stdout(), number, &output[0..n]);
}
