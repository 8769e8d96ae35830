// Reads a job from standard input and prints the plan of its graph, or the line of the refusal where reading it is refused.
#![tactic(auto)]

use job::INPUT_ROOM;
use plan_text::TEXT_ROOM;
use streams::{answer_all, print, write_all};

// What doesn't fit into the input isn't read: the room takes all bytes that decide the graph. After a failed read nothing is printed, since
// exposures might be missing.
fn main(rt: HostRuntime) {
    check::expect(job::deciding() <= INPUT_ROOM);
    let mut input = [0u8; INPUT_ROOM];
    let answered = answer_all(&mut rt.stdin(), &mut input, |bytes| show(&rt, bytes));
    if answered.is_err() {
        let _ = write_all(
            &mut rt.stderr(),
            b"show_plan: the input could not be read\n",
        );
    }
}

// The text is never longer than its room.
fn show(rt: &HostRuntime, bytes: &[u8]) {
    let mut text = [0u8; TEXT_ROOM];
    let n = plan_text::show(bytes, &mut text).unwrap();
    print(
        &mut rt.stdout(),
        &mut rt.stderr(),
        &text[0..n],
        b"show_plan: not all of the plan could be written\n",
    );
}
