// The public direct elimination: originals of a graph, the kept and the cleared keys, and a message at the start of the lent store.
#![tactic(auto)]

ghost use Rattle.std.specs.Prelude.{◌≡◌, true, ◌||◌, ◌≤◌, length};
ghost use Rattle.factor.specs.Limits.{max_keys};
ghost use Rattle.factor.specs.Factor.{known};
ghost use Rattle.graph.specs.Record.{valid};
ghost use Rattle.slots.specs.Layouts as of;
ghost use Rattle.slots.specs.Layouts.{dim_of, layout_of, Listed};
ghost use Rattle.slots.specs.Tables.{rows_by_all};
ghost use Rattle.slots.specs.Fitting.{Counted};
ghost use Rattle.gaussian.specs.Elimination.{message_rows};
ghost use Rattle.direct.specs.Direct as spec;
ghost use Rattle.direct.specs.Between.{early, Admitted, refusal_of};
ghost use Rattle.direct.specs.Told.{direct_told, direct_verdict_told};
ghost use Rattle.slots.specs.Views.{factor_numbers};
ghost use Rattle.tables.specs.Heads.{Originals};

use cholesky::Fault;
use factor::Factor;
use factor::limits::{FACTORS, KEYS, VARIABLES};
use factor::lists::{known, rising};
use gaussian::{Elimination, eliminate_slots, message_rows};
use graph::Graph;
use graph::refusal::Refusal;
use slots::layout::{dim_of, layout_of, member};
use slots::limits::{HEAD, SLOTS};
use slots::{Tables, count_rows};
use tables::fill_originals;
use workspace::WORK;

// How long the tables of the originals are.
const ALL_KEYS: usize = KEYS * FACTORS;

const ALL_HEADS: usize = HEAD * FACTORS;

#[tactic(auto, unfolding(crate::specs::Direct::list_counts_fit, factor::specs::Counting::every))]
fn counts_fit(slots: &[usize], kept: &[usize], cleared: &[usize]) -> bool
    ensures { result ≡ spec.list_counts_fit slots.now kept.now cleared.now }
{
    slots.len() <= SLOTS && kept.len() <= VARIABLES && cleared.len() <= VARIABLES
}

// No key is in both lists.
fn disjoint(kept: &[usize], cleared: &[usize]) -> bool
    ensures { result ≡ spec.disjoint kept.now cleared.now }
{
    kept.iter().all(|&key| !member(cleared, key))
}

#[tactic(auto, unfolding(crate::specs::Direct::lists_fit, factor::specs::Counting::every))]
fn lists_fit(kept: &[usize], cleared: &[usize]) -> bool
    ensures { result ≡ spec.lists_fit kept.now cleared.now }
{
    rising(kept) && rising(cleared) && disjoint(kept, cleared)
}

#[tactic(auto, unfolding(crate::specs::Direct::all_known, factor::specs::Counting::every))]
fn all_known(g: Graph, slots: &[usize], kept: &[usize], cleared: &[usize]) -> bool
    ensures { result ≡ spec.all_known g slots.now kept.now cleared.now }
{
    known(g.variables, kept) && known(g.variables, cleared) && known(g.count, slots)
}

// A key is cleared or kept.
fn placed(kept: &[usize], cleared: &[usize], key: usize) -> bool
    ensures { result ≡ (of.member key cleared.now || of.member key kept.now) }
{
    member(cleared, key) || member(kept, key)
}

// Each key of a factor is cleared or kept.
fn factor_placed(kept: &[usize], cleared: &[usize], f: Factor) -> bool
    requires { f.touched ≤ max_keys }
    ensures { result ≡ spec.factor_placed kept.now cleared.now f }
{
    let touched = usize::from(f.touched);
    f.keys[..touched]
        .iter()
        .all(|&key| placed(kept, cleared, usize::from(key)))
}

// Each key of each listed factor is cleared or kept.
fn all_placed(g: Graph, slots: &[usize], kept: &[usize], cleared: &[usize]) -> bool
    requires { (valid g ≡ true) × (known g.count slots.now ≡ true) }
    ensures { result ≡ spec.all_placed g slots.now kept.now cleared.now }
{
    for &number in slots {
        if !factor_placed(kept, cleared, g.factors[number]) {
            return false;
        }
    }
    true
}

// The checks that need no tables, in their order.
#[tactic(auto, unfolding(crate::specs::Between::early))]
fn check(
    g: Graph,
    slots: &[usize],
    kept: &[usize],
    cleared: &[usize],
    factors: &[f64],
) -> Result<(), Refusal>
    ensures { result ≡ early g slots.now kept.now cleared.now factors.now }
{
    if !g.valid() {
        return Err(Refusal::NoSuchGraph);
    }
    if !counts_fit(slots, kept, cleared) {
        return Err(Refusal::CountOutside);
    }
    if !lists_fit(kept, cleared) {
        return Err(Refusal::KeptAndCleared);
    }
    if !all_known(g, slots, kept, cleared) {
        return Err(Refusal::NoSuchKey);
    }
    if !all_placed(g, slots, kept, cleared) {
        return Err(Refusal::NeitherKeptNorCleared);
    }
    let count = g.count;
    if factors.len() < g.offset(count) {
        return Err(Refusal::FactorStoreShort);
    }
    Ok(())
}

// How many numbers the message has.
fn message_numbers<'a>(tables: Tables<'a>, a: Elimination<'a>) -> usize
    requires listed { Listed a.kept.now a.sizes × Listed a.cleared.now a.sizes }
    requires counted { Counted tables.keys.now tables.heads.now a.slots.now }
    ensures { result ≡ factor_numbers
        (message_rows (rows_by_all (layout_of a.entry.kept.now a.entry.cleared.now a.entry.sizes)
        tables.entry.keys.now tables.entry.heads.now a.entry.slots.now (length a.entry.slots.now))
        (dim_of a.entry.sizes a.entry.kept.now))
        (dim_of a.entry.sizes a.entry.kept.now) }
{
    let layout = layout_of(a.kept, a.cleared, a.sizes);
    let d = dim_of(a.kept, a.sizes);
    let y = count_rows(layout, tables, a.slots);
    let r = message_rows(y, d);
    r * d + r + r * r
}

// The refusal of an elimination that ended without a message: 15 or 17.
fn refusal_of(fault: Fault) -> Refusal
    ensures { result ≡ refusal_of fault }
{
    match fault {
        Fault::Pivot => Refusal::ClearedPivot,
        Fault::NotFinite => Refusal::ResultNotFinite,
    }
}

// The elimination once its checks before 14 have passed and the tables are filled.
fn eliminate_from<'a>(
    g: Graph,
    slots: &'a [usize],
    kept: &'a [usize],
    cleared: &'a [usize],
    factors: &'a [f64],
    messages: &mut [f64],
    work: &mut [f64],
    tables: Tables<'a>,
) -> Result<usize, Refusal>
    requires admitted { Admitted g slots.now kept.now cleared.now factors.now }
    requires originals { Originals g tables.keys.now tables.heads.now }
    ensures value { result ≡ spec.direct_answer (spec.direct_verdict g slots.now kept.now cleared.now factors.now
        (length messages.old) (length work.old)) }
    ensures messages_after { messages.new ≡ spec.direct_store messages.old
        (spec.direct_verdict g slots.now kept.now cleared.now factors.now
        (length messages.old) (length work.old)) }
{
    let sizes = g.sizes;
    let a = Elimination {
        kept,
        cleared,
        sizes,
        slots,
    };
    if messages.len() < message_numbers(tables, a) {
        return Err(Refusal::StoreShort);
    }
    if work.len() < WORK {
        return Err(Refusal::StoreShort);
    }
    eliminate_slots(factors, messages, 0, work, tables, a).map_err(refusal_of)
}

// Eliminates the cleared keys from the listed factors of a graph, taken in the order of the list. The message over the kept keys is written at
// the start of the message store, and the answer is how many rows it has; a refused call leaves the message store as it was. The work
// store needs `WORK` numbers or more, and may hold anything afterwards.
pub fn eliminate(
    g: Graph,
    slots: &[usize],
    kept: &[usize],
    cleared: &[usize],
    factors: &[f64],
    messages: &mut [f64],
    work: &mut [f64],
) -> Result<usize, Refusal>
    ensures value { result ≡ spec.direct_answer (spec.direct_verdict g slots.now kept.now cleared.now factors.now
        (length messages.old) (length work.old)) }
    ensures messages_after { messages.new ≡ spec.direct_store messages.old
        (spec.direct_verdict g slots.now kept.now cleared.now factors.now
        (length messages.old) (length work.old)) }
    ensures result_value { direct_told result ≡ direct_verdict_told
        (spec.direct_verdict g slots.now kept.now cleared.now factors.now
        (length messages.old) (length work.old)) }
{
    check(g, slots, kept, cleared, factors)?;
    let mut keys = [0usize; ALL_KEYS];
    let mut heads = [0usize; ALL_HEADS];
    fill_originals(g, &mut keys, &mut heads);
    let tables = Tables {
        keys: &keys,
        heads: &heads,
    };
    eliminate_from(g, slots, kept, cleared, factors, messages, work, tables)
}
