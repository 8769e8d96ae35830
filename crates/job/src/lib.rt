// A whole job in one call: its bytes are read into a graph, the graph is run, and the answer is laid as text.
#![tactic(auto)]

ghost use Rattle.std.specs.Prelude.{◌≡◌, true, length};
ghost use Rattle.graph.specs.Record.{valid};
ghost use Rattle.lines.specs.Lines.{written, laid_in};
ghost use Rattle.job.specs.Job as spec;
ghost use Rattle.job.specs.Lent as lent;

use factor::limits::{FACTORS, SIZE, TOTAL, VARIABLES};
use graph::Graph;
use lines::{TooShort, lay_lines, lay_refusal};
use records::bytes::{FACTOR_FRAME, FLOAT_BYTES, LONGEST, VARIABLE_RECORD};
use solver::run::{Ran, Stopped, run, run_along};
use workspace::WORK;

// Past these first bytes of a job nothing changes its text: those of all records that there is room for, and of one record more.
pub const DECIDING: usize = VARIABLE_RECORD * VARIABLES
    + FACTOR_FRAME * FACTORS
    + FLOAT_BYTES * FACTOR_ROOM
    + LONGEST;

// Room for the bytes of a job that decide, and for more.
pub const INPUT_ROOM: usize = 32768;

// Room for the text: none is longer than 22,944 bytes (`job_most`).
pub const OUTPUT_ROOM: usize = 32768;

// The numbers of the factor, message and marginal stores. No graph has more marginals.
pub const FACTOR_ROOM: usize = 2048;

const MESSAGE_ROOM: usize = 3072;

const MARGINAL_ROOM: usize = TOTAL + SIZE * TOTAL;

// The stage of a refusal by reading.
pub const READING: usize = 0;

// How many bytes of a job decide its graph and its text. A program that reads a job has room for as many.
pub fn deciding() -> usize
    ensures { (result ≡ spec.deciding_bytes) × spec.Decide result }
{
    DECIDING
}

// The text of how a run ended, with the marginals that it left. Nothing is laid before the run has ended, so a refusal stands alone.
fn lay_ended(
    g: Graph,
    ended: Result<(), Stopped>,
    marginals: &[f64],
    out: &mut [u8],
) -> Result<usize, TooShort>
    requires { (valid g ≡ true) × (length marginals.now ≡ spec.marginal_room) }
    ensures value { result ≡ written out.old (spec.ended_text g ended marginals.now) }
    ensures out_after { out.new ≡ laid_in out.old (spec.ended_text g ended marginals.now) }
{
    match ended {
        Ok(()) => lay_lines(g, marginals, out),
        Err(stopped) => lay_refusal(stopped.why, stopped.stage, stopped.key, out),
    }
}

// The text of a job whose graph is run in the way that is lent, over stores of zeros.
fn answer<F: FnOnce(Graph, &[f64], &mut [f64], &mut [f64], &mut [f64]) -> Ran>(
    bytes: &[u8],
    out: &mut [u8],
    run: F,
) -> Result<usize, TooShort>
    requires { F.IsAlwaysCallable run }
    ensures { (verdict : lent.Runs) → lent.RunsAs (F.post run) verdict
        → (result ≡ written out.old (lent.answer_text verdict bytes.now)) × (out.new ≡ laid_in out.old (lent.answer_text verdict bytes.now)) }
{
    let mut factors = [0.0; FACTOR_ROOM];
    let read = records::read(bytes, &mut factors);
    match read.ended {
        Ok(()) => {
            let mut messages = [0.0; MESSAGE_ROOM];
            let mut work = [0.0; WORK];
            let mut marginals = [0.0; MARGINAL_ROOM];
            let ran = run(
                read.graph,
                &factors,
                &mut messages,
                &mut work,
                &mut marginals,
            );
            lay_ended(read.graph, ran.ended, &marginals, out)
        }
        Err(rejected) => lay_refusal(rejected.why, READING, rejected.place, out),
    }
}

// What a job prints, at the start of a lent buffer, and its length. A buffer that is too short for it is left as it was.
pub fn solve(bytes: &[u8], out: &mut [u8]) -> Result<usize, TooShort>
    ensures value { result ≡ written out.old (spec.job_text bytes.now) }
    ensures out_after { out.new ≡ laid_in out.old (spec.job_text bytes.now) }
{
    answer(bytes, out, run)
}

// The same along a lent order of the job's keys. An order that isn't each of them exactly once is refused, once the job has been read.
pub fn solve_along(bytes: &[u8], order: &[u8], out: &mut [u8]) -> Result<usize, TooShort>
    ensures value { result ≡ written out.old (spec.job_along_text bytes.now order.now) }
    ensures out_after { out.new ≡ laid_in out.old (spec.job_along_text bytes.now order.now) }
{
    answer(bytes, out, |g, factors, messages, work, marginals| {
        run_along(g, order, factors, messages, work, marginals)
    })
}
