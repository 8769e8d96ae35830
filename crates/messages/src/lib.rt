// The messages of a pass: their places in the tables and in the message store, told before any arithmetic, and their making.
#![tactic(auto)]

ghost use Rattle.std.specs.Prelude.{◌≡◌, false, ◌+◌, ◌*◌, ◌≤◌, length, Ok};
ghost use Rattle.factor.specs.Limits.{max_variables};
ghost use Rattle.factor.specs.Factor.{lay};
ghost use Rattle.plan.specs.Pass.{PassReady, messages_of};
ghost use Rattle.slots.specs.Layouts.{dim_of, Listed};
ghost use Rattle.slots.specs.Fitting.{Counted};
ghost use Rattle.workspace.specs.Frames.{work_numbers};
ghost use Rattle.graph.specs.Record.{offset};
ghost use Rattle.gaussian.specs.Elimination.{eliminate};
ghost use Rattle.gaussian.specs.Answers.{eliminated_as, message_stored, views_of};
ghost use Rattle.gaussian.specs.Asked.{Asked, Roomy};
ghost use Rattle.lists.specs.Lists.{backward_shift};
ghost use Rattle.messages.specs.Figure.{need};
ghost use Rattle.messages.specs.Tables as spec;
ghost use Rattle.messages.specs.Tables.{Carriable, PlacedTo, Before, AllStored};
ghost use Rattle.messages.specs.Values.{values, refusal_from, finished_numbers};
ghost use Rattle.messages.specs.Asked.{keys_from, message_rows_by, Placeable, most_start, refusal_of};
ghost use Rattle.messages.specs.Told.{carried_told, stop_told};
ghost use Rattle.slots.specs.Views.{factor_numbers};
ghost use Rattle.tables.specs.Heads.{with_head};

use cholesky::Fault;
use factor::limits::{FACTORS, KEYS, VARIABLES};
use gaussian::{Elimination, eliminate_slots};
use graph::Graph;
use graph::refusal::Refusal;
use lists::message_lists;
use plan::pass::Pass;
use slots::layout::{dim_of, layout_of};
use slots::{Tables, count_rows, head_at};
use tables::put_head;

// Where a walk over messages or keys was stopped, and why: the message's place in its pass, or the key.
#[derive(Clone, Copy)]
pub struct Undone {
    pub at: usize,
    pub why: Refusal,
}

// Why a message is refused.
fn refusal_of(fault: Fault) -> Refusal
    ensures { result ≡ refusal_of fault }
{
    match fault {
        Fault::Pivot => Refusal::ClearedPivot,
        Fault::NotFinite => Refusal::ResultNotFinite,
    }
}

// The rows of a message, by the heads of its slots.
fn message_rows<'a>(tables: Tables<'a>, a: Elimination<'a>) -> usize
    requires { Listed a.kept.now a.sizes × Listed a.cleared.now a.sizes × Counted tables.keys.now tables.heads.now a.slots.now }
    ensures { result ≡ message_rows_by a.entry.kept.now a.entry.cleared.now a.entry.slots.now a.entry.sizes
        tables.entry.keys.now tables.entry.heads.now }
{
    let layout = layout_of(a.kept, a.cleared, a.sizes);
    let y = count_rows(layout, tables, a.slots);
    let d = dim_of(a.kept, a.sizes);
    gaussian::message_rows(y, d)
}

// The head and the keys of a message go into the tables; the answer is where the next message's numbers begin.
fn place_message<'a>(
    a: Elimination<'a>,
    keys: &mut [usize],
    heads: &mut [usize],
    number: usize,
    start: usize,
) -> usize
    requires { Placeable a.kept.now a.cleared.now a.slots.now a.sizes keys.old heads.old number start }
    ensures value { result ≡ start + factor_numbers
        (message_rows_by a.entry.kept.now a.entry.cleared.now a.entry.slots.now a.entry.sizes keys.old heads.old)
        (dim_of a.entry.sizes a.entry.kept.now) }
    ensures keys_after { keys.new ≡ lay keys.old (keys_from number) a.entry.kept.now }
    ensures heads_after { heads.new ≡ with_head heads.old number false start
        (message_rows_by a.entry.kept.now a.entry.cleared.now a.entry.slots.now a.entry.sizes keys.old heads.old)
        (dim_of a.entry.sizes a.entry.kept.now) (keys_from number) (length a.entry.kept.now) }
{
    let tables = Tables {
        keys: &keys[..],
        heads: &heads[..],
    };
    let kept = a.kept;
    let r = message_rows(tables, a);
    let d = dim_of(kept, a.sizes);
    let first = KEYS * FACTORS + VARIABLES * (number - FACTORS);
    keys[first..first + kept.len()].copy_from_slice(kept);
    put_head(heads, number, false, start, r, d, first, kept.len());
    start + (r * d + r + r * r)
}

// All messages of a pass go into the tables, from a place of the message store on; the answer is the place after their numbers.
pub fn place_pass(
    g: Graph,
    p: Pass,
    shift: usize,
    start: usize,
    keys: &mut [usize],
    heads: &mut [usize],
) -> usize
    requires pass_ready { PassReady max_variables p × Carriable g (messages_of p) × (shift ≤ backward_shift) × (start ≤ most_start) }
    requires tables { spec.Tables g keys.old heads.old }
    ensures value { result ≡ start + need g (messages_of p) }
    ensures before { Before shift keys.old heads.old keys.new heads.new }
    ensures tables_2 { spec.Tables g keys.new heads.new
        × PlacedTo g (messages_of p) shift start keys.new heads.new (length (messages_of p)) }
{
    let n = p.count;
    let mut next = start;
    for j in 0..n {
        let l = message_lists(p, j, shift);
        let sizes = g.sizes;
        let a = Elimination {
            kept: &l.kept[..l.keeps],
            cleared: &l.cleared[..l.clears],
            sizes,
            slots: &l.slots[..l.count],
        };
        next = place_message(a, keys, heads, FACTORS + shift + j, next);
    }
    next
}

// All messages of a pass are made, one after the other from a place of the message store on; a refused one ends the pass, and those before it stay.
pub fn carry_pass<'a>(
    g: Graph,
    p: Pass,
    shift: usize,
    start: usize,
    factors: &'a [f64],
    messages: &mut [f64],
    work: &mut [f64],
    tables: Tables<'a>,
) -> Result<(), Undone>
    requires pass_ready { PassReady max_variables p × Carriable g (messages_of p) × (shift ≤ backward_shift) × (start ≤ most_start) }
    requires tables { spec.Tables g tables.keys.now tables.heads.now
        × PlacedTo g (messages_of p) shift start tables.keys.now tables.heads.now (length (messages_of p)) }
    requires count_in_bounds { (offset g g.count ≤ length factors.now) × (start + need g (messages_of p) ≤ length messages.old)
        × (work_numbers ≤ length work.old) }
    ensures result_value { result ≡ refusal_from 0 (values g factors.now (messages_of p)) }
    ensures messages_after { messages.new ≡ lay messages.old start (finished_numbers (values g factors.now (messages_of p))) }
    ensures all_stored { result ≡ Ok tt → AllStored g factors.now (messages_of p) start messages.new }
    ensures result_value_2 { carried_told result ≡ stop_told (refusal_from 0 (values g factors.now (messages_of p))) }
{
    let n = p.count;
    let mut to = start;
    for j in 0..n {
        let l = message_lists(p, j, shift);
        let h = head_at(tables.heads, FACTORS + shift + j);
        let r = h.rows;
        let d = h.width;
        let sizes = g.sizes;
        let a = Elimination {
            kept: &l.kept[..l.keeps],
            cleared: &l.cleared[..l.clears],
            sizes,
            slots: &l.slots[..l.count],
        };
        if let Err(fault) = eliminate_slots(factors, messages, to, work, tables, a) {
            return Err(Undone {
                at: j,
                why: refusal_of(fault),
            });
        }
        to += r * d + r + r * r;
    }
    Ok(())
}
