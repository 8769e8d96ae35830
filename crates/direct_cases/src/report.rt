// What is printed of an answer and of a store.
use graph::refusal::{Refusal, code};
use lines::bits_of;
use solver::run::Ran;
use streams::{print_named, write_all, write_hex};

fn end_line(rt: &HostRuntime) {
    let _ = write_all(&mut rt.stdout(), b"\n");
}

// A line: the rows of the message, or the refusal's number.
pub fn print_direct(rt: &HostRuntime, answer: Result<usize, Refusal>) {
    let _ = match answer {
        Ok(rows) => print_named(&mut rt.stdout(), b"rows ", rows),
        Err(why) => print_named(&mut rt.stdout(), b"refused ", code(why)),
    };
    end_line(rt);
}

// The figure, then how the run ended.
pub fn print_ran(rt: &HostRuntime, ran: Ran) {
    let _ = print_named(&mut rt.stdout(), b"figure ", ran.figure);
    if let Err(stopped) = ran.ended {
        let _ = print_named(&mut rt.stdout(), b" refused ", code(stopped.why));
        let _ = print_named(&mut rt.stdout(), b" ", stopped.stage);
        let _ = print_named(&mut rt.stdout(), b" ", stopped.key);
    }
    end_line(rt);
}

// The numbers of a store by their bits, those that were there before the call too.
pub fn print_store(rt: &HostRuntime, store: &[f64]) {
    for (i, &x) in store.iter().enumerate() {
        if i != 0 {
            let _ = write_all(&mut rt.stdout(), b" ");
        }
        let _ = write_hex(&mut rt.stdout(), bits_of(x));
    }
    end_line(rt);
}
