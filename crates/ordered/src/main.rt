// Reads orders of keys and jobs from standard input in turn, each behind the count of its bytes. Prints for each job how many numbers of the message
// store its messages need along the order, then what the job prints along the order, then its plan along the order.
#![tactic(auto)]

use job::{FACTOR_ROOM, OUTPUT_ROOM};
use plan_text::TEXT_ROOM;
use solver::run::run_along;
use streams::{COUNTED, each_counted, print, print_named, read_counted, write_all};

// More cases aren't read.
const CASES: usize = 256;

fn main(rt: HostRuntime) {
    each_counted(&mut rt.stdin(), CASES, |_, order| print_case(&rt, order));
}

// What is told of an order and the job that follows it; or none follows, which ends the program.
fn print_case(rt: &HostRuntime, order: &[u8]) -> Option<()> {
    let mut input = [0u8; COUNTED];
    let Some(n) = read_counted(&mut rt.stdin(), &mut input) else {
        let _ = write_all(
            &mut rt.stderr(),
            b"ordered: no whole job follows the order\n",
        );
        return None;
    };
    let bytes = &input[..n];
    print_figure(rt, order, bytes);
    print_answer(rt, order, bytes);
    print_plan(rt, order, bytes);
    Some(())
}

// The figure of the run. It is told with stores that are too short as well, and then nothing is computed.
fn figure_of(order: &[u8], bytes: &[u8]) -> usize {
    let mut factors = [0.0; FACTOR_ROOM];
    let read = records::read(bytes, &mut factors);
    if read.ended.is_err() {
        return 0;
    }
    let mut messages = [0.0; 1];
    let mut work = [0.0; 1];
    let mut marginals = [0.0; 1];
    run_along(
        read.graph,
        order,
        &factors,
        &mut messages,
        &mut work,
        &mut marginals,
    )
    .figure
}

fn print_figure(rt: &HostRuntime, order: &[u8], bytes: &[u8]) {
    let _ = print_named(&mut rt.stdout(), b"figure ", figure_of(order, bytes));
    let _ = write_all(&mut rt.stdout(), b"\n");
}

// The text is never longer than its room.
fn print_answer(rt: &HostRuntime, order: &[u8], bytes: &[u8]) {
    let mut text = [0u8; OUTPUT_ROOM];
    let n = job::solve_along(bytes, order, &mut text).unwrap();
    print(
        &mut rt.stdout(),
        &mut rt.stderr(),
        &text[0..n],
        b"ordered: not all of the text could be written\n",
    );
}

// Nor is this one.
fn print_plan(rt: &HostRuntime, order: &[u8], bytes: &[u8]) {
    let mut text = [0u8; TEXT_ROOM];
    let n = plan_text::show_along(bytes, order, &mut text).unwrap();
    print(
        &mut rt.stdout(),
        &mut rt.stderr(),
        &text[0..n],
        b"ordered: not all of the plan could be written\n",
    );
}
