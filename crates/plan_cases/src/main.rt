// Shows the plans of a few jobs: reads them from standard input and prints the number of each, from 0, and below it what `show_plan` prints
// for the job. A job stands behind the count of its bytes.
#![tactic(auto)]

use plan_text::TEXT_ROOM;
use streams::{each_counted, print_numbered};

// More jobs aren't read.
const JOBS: usize = 256;

fn main(rt: HostRuntime) {
    each_counted(&mut rt.stdin(), JOBS, |number, bytes| {
        print_plan(&rt, number, bytes);
        Some(())
    });
}

// The text is never longer than its room.
fn print_plan(rt: &HostRuntime, number: usize, bytes: &[u8]) {
    let mut text = [0u8; TEXT_ROOM];
    let n = plan_text::show(bytes, &mut text).unwrap();
    let _ = print_numbered(&mut rt.stdout(), number, &text[0..n]);
}
