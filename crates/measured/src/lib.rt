// What the comparison with the original and the benchmark call beside `firmware`: reading, runs, plans, roots and lookups alone, a direct elimination,
// and the run and the plan along a lent order.
#![tactic(auto)]

ghost use Rattle.std.specs.Prelude.{◌≡◌, ◌≤◌, length};
ghost use Rattle.workspace.specs.Frames.{work_numbers};
ghost use Rattle.root.specs.Root.{root_of};
ghost use Rattle.records.specs.Records.{read_all};
ghost use Rattle.lines.specs.Lines.{written, laid_in, length_of};
ghost use Rattle.job.specs.Job.{job_along_text};
ghost use Rattle.job.proofs.Refusals.{Keyed};
ghost use Rattle.plan_text.specs.Shown.{show_along_text};
ghost use Rattle.direct.specs.Direct.{direct_answer, direct_store};
ghost use Rattle.measured.specs.Measured as spec;

use factor::lists::lookup;
use graph::Graph;
use graph::refusal::{Refusal, code};
use job::{FACTOR_ROOM, READING};
use lines::length_of;
use solver::run::{Ran, run, run_along};
use workspace::WORK;

// The numbers of a job's factors, at the start of the lent store. The rest of the store is as it was.
pub fn strips_store(bytes: &[u8], store: &mut [f64])
    ensures { store.new ≡ (read_all bytes.now store.old).store }
{
    records::read(bytes, store);
}

// The run of a graph as often as is asked, over the same stores.
fn repeat(
    g: Graph,
    times: usize,
    factors: &[f64],
    messages: &mut [f64],
    work: &mut [f64],
    marginals: &mut [f64],
)
    requires { length work.old ≡ work_numbers }
    ensures { spec.stores messages.new marginals.new ≡
        spec.again g factors.now (spec.stores messages.old marginals.old) times }
{
    for _ in 0..times {
        run(g, factors, messages, work, marginals);
    }
}

// Reads a job once and runs its graph as often as is asked. Messages and marginals are the caller's, who compares them or times the runs.
pub fn strips_repeat(bytes: &[u8], times: usize, messages: &mut [f64], marginals: &mut [f64])
    ensures { spec.stores messages.new marginals.new ≡
        spec.repeated (spec.read_job bytes.now) (spec.stores messages.old marginals.old) times }
{
    let mut factors = [0.0; FACTOR_ROOM];
    let mut work = [0.0; WORK];
    let read = records::read(bytes, &mut factors);
    let g = read.graph;
    repeat(g, times, &factors, messages, &mut work, marginals);
}

// Marks a refusal in an answer of `strips_eliminate`. No message has as many rows.
const REFUSED: usize = 0x10000;

fn number_in(answer: Result<usize, Refusal>) -> usize
    ensures { result ≡ spec.number_in answer }
{
    match answer {
        Ok(rows) => rows,
        Err(why) => REFUSED + code(why),
    }
}

// Reads a job and eliminates the cleared keys from some of its factors. The answer is the rows of the message, which stands at the
// start of the lent store, or the refusal's number with the mark.
pub fn strips_eliminate(
    bytes: &[u8],
    slots: &[usize],
    kept: &[usize],
    cleared: &[usize],
    messages: &mut [f64],
) -> usize
    ensures value { result ≡ spec.number_in (direct_answer
        (spec.eliminated (spec.read_job bytes.now) slots.now kept.now cleared.now
        (length messages.old))) }
    ensures messages_after { messages.new ≡ direct_store messages.old
        (spec.eliminated (spec.read_job bytes.now) slots.now kept.now cleared.now
        (length messages.old)) }
{
    let mut factors = [0.0; FACTOR_ROOM];
    let mut work = [0.0; WORK];
    let read = records::read(bytes, &mut factors);
    let g = read.graph;
    let answer = direct::eliminate(g, slots, kept, cleared, &factors, messages, &mut work);
    number_in(answer)
}

// The plan of a graph is made as often as is asked; the answer is how many forward messages it has, 0 where none was made.
fn replan(g: Graph, times: usize) -> usize
    ensures { result ≡ spec.replanned g times }
{
    let mut count = 0;
    for _ in 0..times {
        count = match solver::arrange(g) {
            Ok(made) => made.plan.forward.count,
            Err(_) => 0,
        };
    }
    count
}

// Reads a job once and makes the plan of its graph as often as is asked.
pub fn strips_plan(bytes: &[u8], times: usize) -> usize
    ensures { result ≡ spec.replanned (spec.read_job bytes.now).answer.graph times }
{
    let mut factors = [0.0; FACTOR_ROOM];
    let read = records::read(bytes, &mut factors);
    let g = read.graph;
    replan(g, times)
}

// Reads a job and runs its graph along an order, each byte of which is a key; what `strips` would then print stands at the start of out, and the answer is its
// length. Where out is too short, answers the largest number and leaves out as it was.
pub fn strips_ordered(job: &[u8], order: &[u8], out: &mut [u8]) -> usize
    ensures value { result ≡ length_of (written out.old (job_along_text job.now order.now)) }
    ensures out_after { out.new ≡ laid_in out.old (job_along_text job.now order.now) }
{
    length_of(job::solve_along(job, order, out))
}

// The same with the text of the job's plan along the order.
pub fn strips_ordered_plan(job: &[u8], order: &[u8], out: &mut [u8]) -> usize
    ensures value { result ≡ length_of (written out.old (show_along_text job.now order.now)) }
    ensures out_after { out.new ≡ laid_in out.old (show_along_text job.now order.now) }
{
    length_of(plan_text::show_along(job, order, out))
}

// The number of a refusal with its stage and its place.
fn marked(why: Refusal, stage: usize, place: usize) -> usize
    requires { (stage ≤ 3) × (place ≤ 0x10000) }
    ensures { (result ≡ spec.marked why stage place) × (result ≤ 0x10000000) }
{
    0x1000000 + code(why) * 0x10000 + stage * 0x100 + place
}

// The number of a run's answer.
fn ran_number(ran: Ran) -> usize
    requires { (ran.figure ≤ 0x100000) × Keyed ran.ended }
    ensures { result ≡ spec.ran_number ran }
{
    let figure = ran.figure * 0x100000000;
    match ran.ended {
        Ok(()) => figure,
        Err(stopped) => figure + marked(stopped.why, stopped.stage, stopped.key),
    }
}

// Reads a job and runs its graph along an order over the lent stores. The answer is the figure, 2^32 times, and the number of the refusal, 0 where there is
// none. A job that is refused in reading isn't run.
pub fn strips_ordered_run(
    job: &[u8],
    order: &[u8],
    messages: &mut [f64],
    marginals: &mut [f64],
) -> usize
    ensures value { result ≡ spec.ordered_number (spec.read_job job.now).answer.ended
        (spec.run_of (spec.read_job job.now) order.now (spec.stores messages.old marginals.old)) }
    ensures marginals_after { spec.stores messages.new marginals.new ≡ spec.ordered_stores (spec.read_job job.now).answer.ended
        (spec.run_of (spec.read_job job.now) order.now (spec.stores messages.old marginals.old))
        (spec.stores messages.old marginals.old) }
{
    let mut factors = [0.0; FACTOR_ROOM];
    let mut work = [0.0; WORK];
    let read = records::read(job, &mut factors);
    let g = read.graph;
    match read.ended {
        Ok(()) => ran_number(run_along(g, order, &factors, messages, &mut work, marginals)),
        Err(rejected) => marked(rejected.why, READING, rejected.place),
    }
}

// The root of a pivot, and +0.0 for a refused one.
pub fn strips_root(pivot: f64) -> f64
    ensures { result ≡ spec.root_in (root_of pivot) }
{
    root::root(pivot).unwrap_or(0.0)
}

// No list of bytes that rises is longer.
const MOST_RISING: usize = 256;

// The lookup of a key in keys that rise: 256 times the count of keys read, and the key's place, or 255 where it isn't there. Keys past those that
// can rise are not looked at.
pub fn strips_lookup(keys: &[u8], key: usize) -> usize
    ensures { result ≡ spec.lookup_number keys.now key }
{
    let looked = lookup(&keys[0..keys.len().min(MOST_RISING)], key);
    256 * looked.read + looked.place.unwrap_or(255)
}
