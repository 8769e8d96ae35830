// Reads a job from standard input and prints a line for each key, or one line that says why there are none.
#![tactic(auto)]

use job::{INPUT_ROOM, OUTPUT_ROOM};
use streams::{answer_all, print, write_all};

// What doesn't fit into the input isn't read: the room takes all bytes that decide the text. After a failed read nothing is printed, since
// exposures might be missing.
fn main(rt: HostRuntime) {
    check::expect(job::deciding() <= INPUT_ROOM);
    let mut input = [0u8; INPUT_ROOM];
    let answered = answer_all(&mut rt.stdin(), &mut input, |bytes| answer(&rt, bytes));
    if answered.is_err() {
        let _ = write_all(&mut rt.stderr(), b"strips: the input could not be read\n");
    }
}

// The output is never too short.
fn answer(rt: &HostRuntime, bytes: &[u8]) {
    let mut output = [0u8; OUTPUT_ROOM];
    let n = job::solve(bytes, &mut output).unwrap();
    print(
        &mut rt.stdout(),
        &mut rt.stderr(),
        &output[0..n],
        b"strips: not all of the text could be written\n",
    );
}
