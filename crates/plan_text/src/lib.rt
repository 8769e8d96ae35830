// A plan as plain text, in a lent buffer: a line for each message and a line for each key.
//     forward 0 step 1 content 0 3 2 1 kept 1 cleared 0
//     backward 0 step 1 content 3 kept 0 cleared 1
//     key 0 forward backward 0 originals 0 1 2 leaves 3 0 1 2 last
// A content names an original by its number and the message j as mj.
// The text goes twice through the same functions, first to find its length, then to lay it where it fits: see `text`.
#![tactic(auto)]

ghost use Rattle.std.specs.Prelude.{◌≡◌, [], map, ◌≤◌, ◌<◌, IfOk, length, take};
ghost use Rattle.factor.specs.Limits.{max_variables};
ghost use Rattle.text.specs.Decimals.{field_text};
ghost use Rattle.text.specs.Putting.{Puts};
ghost use Rattle.lines.specs.Lines.{written, laid_in};
ghost use Rattle.schedule.specs.Count.{joined, put_if};
ghost use Rattle.plan.specs.Mask.{has, keys_in};
ghost use Rattle.plan.specs.Pass.{PassReady, pass_slot, msg_at, messages_of};
ghost use Rattle.plan.specs.Gather.{Held, gathered_of};
ghost use Rattle.plan.specs.Plan.{Bounded, plan_in};
ghost use Rattle.solver.specs.Plan.{planned};
ghost use Rattle.solver.specs.Stages.{read};
ghost use Rattle.plan_text.specs.Lent as lent;
ghost use Rattle.plan_text.specs.Text as spec;
ghost use Rattle.plan_text.specs.Shown.{shown, shown_in, made_text, along_text, show_text, show_along_text, text_room};

use factor::limits::{FACTORS, VARIABLES};
use graph::Graph;
use graph::refusal::Refusal;
use job::{FACTOR_ROOM, READING};
use lines::{TooShort, lay_refusal};
use plan::gather::Gathered;
use plan::masks::single;
use plan::pass::Pass;
use plan::plan::Plan;
use solver::Arranged;
use text::{put, put_decimal, put_field, put_word};

// Room for the text of any job's plan.
pub const TEXT_ROOM: usize = 65536;

// Why a graph's plan is not shown: a buffer that is too short for its text, or a graph that has no plan.
#[derive(Clone, Copy)]
pub enum ShowError {
    TooShort,
    Refused(Refusal),
}

// A slot by its number in the pass: an original, or a message.
fn put_slot(out: &mut [u8], at: usize, s: usize) -> usize
    ensures { Puts out.old out.new at result (spec.slot_text (pass_slot s)) }
{
    if s < FACTORS {
        return put_field(out, at, s);
    }
    let digits = put_word(out, at, b" m");
    put_decimal(out, digits, s - FACTORS)
}

// A word and a number.
fn put_named(out: &mut [u8], at: usize, name: &[u8], x: usize) -> usize
    ensures { Puts out.old out.new at result (spec.named_text name.now x) }
{
    let to = put_word(out, at, name);
    put_field(out, to, x)
}

// A number if it is a member of a set, and nothing if not.
fn put_member(out: &mut [u8], at: usize, set: u32, k: usize) -> usize
    requires { k < max_variables }
    ensures { Puts out.old out.new at result (joined field_text (put_if (has k set) k [])) }
{
    if set & single(k) == 0 {
        return at;
    }
    put_field(out, at, k)
}

// A word and the members of a set, rising.
fn put_set(out: &mut [u8], at: usize, name: &[u8], set: u32) -> usize
    ensures { Puts out.old out.new at result (spec.list_text name.now (keys_in set)) }
{
    let mut to = put_word(out, at, name);
    for k in 0..VARIABLES {
        to = put_member(out, to, set, k);
    }
    to
}

// The numbers of a list, each put in the way that is lent.
fn put_each<F: Fn(&mut [u8], usize, usize) -> usize>(
    out: &mut [u8],
    at: usize,
    numbers: &[u8],
    put_one: F,
) -> usize
    requires { F.IsAlwaysCallable put_one }
    ensures { (text : lent.NumberText) → lent.PutsAs (F.post put_one) text → Puts out.old out.new at result (joined text numbers.now) }
{
    let mut to = at;
    for &x in numbers {
        to = put_one(out, to, usize::from(x));
    }
    to
}

// The line of the message j, led by the name of its pass.
fn put_message(out: &mut [u8], at: usize, name: &[u8], messages: Pass, j: usize) -> usize
    requires pass_ready { PassReady max_variables messages }
    requires j_lt_count { j < messages.count }
    ensures { Puts out.old out.new at result (spec.message_text name.now j (msg_at messages j)) }
{
    let b = messages.board;
    let content = b.content;
    let step = usize::from(messages.steps[j]);
    let from = usize::from(messages.starts[j]);
    let end = usize::from(messages.ends[j]);
    let kept = messages.masks[FACTORS + j];
    let cleared = messages.cleared[j];
    let mut to = put_named(out, at, name, j);
    to = put_named(out, to, b" step", step);
    to = put_word(out, to, b" content");
    to = put_each(out, to, &content[from..end], put_slot);
    to = put_set(out, to, b" kept", kept);
    to = put_set(out, to, b" cleared", cleared);
    put(out, to, b'\n')
}

// The lines of all messages of a pass.
fn put_pass(out: &mut [u8], at: usize, name: &[u8], messages: Pass) -> usize
    requires { PassReady max_variables messages }
    ensures { Puts out.old out.new at result (spec.numbered (spec.message_text name.now) 0 (messages_of messages)) }
{
    let mut to = at;
    for j in 0..messages.count {
        to = put_message(out, to, name, messages, j);
    }
    to
}

// The line of the key k.
fn put_key(out: &mut [u8], at: usize, k: usize, q: Gathered) -> usize
    requires { Held q }
    ensures { Puts out.old out.new at result (spec.key_text k (gathered_of q)) }
{
    let items = q.items;
    let covered = q.covered;
    let count = q.count;
    let mut to = put_named(out, at, b"key", k);
    to = put_set(out, to, b" forward", q.forward);
    to = put_set(out, to, b" backward", q.backward);
    to = put_word(out, to, b" originals");
    to = put_each(out, to, &items[covered..count], put_field);
    to = put_word(out, to, b" leaves");
    to = put_each(out, to, &items[0..count], put_field);
    to = put_set(out, to, b" last", q.last);
    put(out, to, b'\n')
}

// The lines of the first n keys.
fn put_keys(out: &mut [u8], at: usize, plan: Plan, n: usize) -> usize
    requires { (n ≤ max_variables) × Bounded n plan }
    ensures { Puts out.old out.new at result (spec.numbered spec.key_text 0 (map gathered_of (take n plan.at))) }
{
    let mut to = at;
    for k in 0..n {
        let q = plan.at[k];
        to = put_key(out, to, k, q);
    }
    to
}

// The whole plan of n keys, from the buffer's start.
fn put_plan(out: &mut [u8], plan: Plan, n: usize) -> usize
    requires { (n ≤ max_variables) × Bounded n plan }
    ensures { Puts out.old out.new 0 result (spec.plan_text (plan_in n plan)) }
{
    let fw = plan.forward;
    let bw = plan.backward;
    let one = put_pass(out, 0, b"forward", fw);
    let two = put_pass(out, one, b"backward", bw);
    put_keys(out, two, plan, n)
}

// The text of a plan at the buffer's start, where it fits. The first run is into one byte that nobody reads: it finds the length.
fn lay_arrays(plan: Plan, n: usize, out: &mut [u8]) -> Result<usize, TooShort>
    requires { (n ≤ max_variables) × Bounded n plan }
    ensures value { result ≡ written out.old (spec.plan_text (plan_in n plan)) }
    ensures out_after { out.new ≡ laid_in out.old (spec.plan_text (plan_in n plan)) }
{
    let mut nowhere = [0u8; 1];
    let length = put_plan(&mut nowhere, plan, n);
    if out.len() < length {
        return Err(TooShort);
    }
    put_plan(out, plan, n);
    Ok(length)
}

// The text of a graph's plan, at the start of a lent buffer, and its length. A buffer that is too short for it is left as it was, and so
// is that of a refused graph.
pub fn lay_plan(g: Graph, out: &mut [u8]) -> Result<usize, ShowError>
    ensures value { result ≡ shown g out.old }
    ensures out_after { out.new ≡ shown_in g out.old }
{
    match solver::arrange(g) {
        Ok(made) => match lay_arrays(made.plan, made.keys, out) {
            Ok(n) => Ok(n),
            Err(TooShort) => Err(ShowError::TooShort),
        },
        Err(why) => Err(ShowError::Refused(why)),
    }
}

// The text of a plan, or the line of its refusal, which has stage 1 and key 0 as in the run.
fn lay_made(made: Result<Arranged, Refusal>, out: &mut [u8]) -> Result<usize, TooShort>
    requires { IfOk made (λ a. (a.keys ≤ max_variables) × Bounded a.keys a.plan) }
    ensures value { result ≡ written out.old (made_text (read made)) }
    ensures out_after { out.new ≡ laid_in out.old (made_text (read made)) }
{
    match made {
        Ok(arranged) => lay_arrays(arranged.plan, arranged.keys, out),
        Err(why) => lay_refusal(why, 1, 0, out),
    }
}

// The text of a graph's plan along a lent order of its keys, or the line of the refusal, at the start of a lent buffer, and its length. A
// buffer that is too short for it is left as it was.
pub fn lay_along(g: Graph, order: &[u8], out: &mut [u8]) -> Result<usize, TooShort>
    ensures value { result ≡ written out.old (along_text g order.now) }
    ensures out_after { out.new ≡ laid_in out.old (along_text g order.now) }
    ensures order_len_bound { length (along_text g order.now) ≤ text_room }
{
    lay_made(solver::arrange_along(g, order), out)
}

// The same with keys rising.
fn lay_rising(g: Graph, out: &mut [u8]) -> Result<usize, TooShort>
    ensures { lent.Shows (made_text (planned g)) out.old out.new result }
{
    lay_made(solver::arrange(g), out)
}

// The text of a job whose graph's text is laid in the way that is lent.
fn show_by<F: FnOnce(Graph, &mut [u8]) -> Result<usize, TooShort>>(
    bytes: &[u8],
    out: &mut [u8],
    lay: F,
) -> Result<usize, TooShort>
    requires { F.IsAlwaysCallable lay }
    ensures { (text : lent.GraphText) → lent.ShowsAs (F.post lay) text → lent.Shows (lent.job_text text bytes.now) out.old out.new result }
{
    let mut factors = [0.0; FACTOR_ROOM];
    let read = records::read(bytes, &mut factors);
    match read.ended {
        Ok(()) => lay(read.graph, out),
        Err(rejected) => lay_refusal(rejected.why, READING, rejected.place, out),
    }
}

// The text of a job's plan, or the line of the refusal where reading the job is refused, at the start of a lent buffer, and its length. A
// buffer that is too short for it is left as it was. None of TEXT_ROOM bytes is.
pub fn show(bytes: &[u8], out: &mut [u8]) -> Result<usize, TooShort>
    ensures value { result ≡ written out.old (show_text bytes.now) }
    ensures out_after { out.new ≡ laid_in out.old (show_text bytes.now) }
    ensures bytes_len_bound { length (show_text bytes.now) ≤ text_room }
{
    show_by(bytes, out, lay_rising)
}

// `show` along a lent order of the job's keys.
pub fn show_along(bytes: &[u8], order: &[u8], out: &mut [u8]) -> Result<usize, TooShort>
    ensures value { result ≡ written out.old (show_along_text bytes.now order.now) }
    ensures out_after { out.new ≡ laid_in out.old (show_along_text bytes.now order.now) }
    ensures order_len_bound { length (show_along_text bytes.now order.now) ≤ text_room }
{
    show_by(bytes, out, |g, out| lay_along(g, order, out))
}
