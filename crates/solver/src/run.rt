// A run: the plan of a graph, carried out over lent stores.
ghost use Rattle.std.specs.Prelude.{◌≡◌, true, ℕ, ◌+◌, ◌*◌, ◌<◌, ◌≤◌, length};
ghost use Rattle.factor.specs.Limits.{max_variables};
ghost use Rattle.graph.specs.Record.{valid};
ghost use Rattle.plan.specs.Pass.{PassReady, messages_of};
ghost use Rattle.schedule.specs.Pass.{at};
ghost use Rattle.plan.specs.Plan.{plan_in};
ghost use Rattle.messages.specs.Tables.{keys_length, heads_length};
ghost use Rattle.marginals.specs.Asked.{Findable};
ghost use Rattle.marginals.specs.Marginals.{marginal_numbers};
ghost use Rattle.solver.specs.Run as spec;
ghost use Rattle.solver.specs.Stages as stages;
ghost use Rattle.solver.specs.Told.{ran_told};
ghost use Rattle.solver.specs.Run.{run_verdict};

use factor::limits::{FACTORS, KEYS, SIZE, TOTAL, VARIABLES};
use graph::Graph;
use graph::refusal::Refusal;
use lists::BACKWARD;
use marginals::find_marginals;
use messages::{carry_pass, place_pass};
use plan::gather::Gathered;
use plan::pass::Pass;
use plan::plan::{Plan, rise};
use slots::limits::HEAD;
use slots::{Sources, Tables};
use tables::fill_originals;
use workspace::WORK;

// Why a run was refused, in which stage and at which key.
#[derive(Clone, Copy)]
pub struct Stopped {
    pub why: Refusal,
    pub stage: usize,
    pub key: usize,
}

// How many numbers the messages take, and how the run ended: with a mean and a covariance for each key, or refused.
#[derive(Drop)]
pub struct Ran {
    pub figure: usize,
    pub ended: Result<(), Stopped>,
}

// How many numbers of the message store the forward messages need, after which the backward ones follow; and the figure, the need of both together.
#[derive(Drop)]
struct Places {
    forward: usize,
    figure: usize,
}

// The lengths of the tables: a head for each slot; the keys of an original and of a message.
const HEADS: usize = HEAD * (FACTORS + 2 * BACKWARD);

const LISTED: usize = KEYS * FACTORS + VARIABLES * (2 * BACKWARD);

// No graph has more numbers in its means and covariances.
const RESULTS: usize = TOTAL + SIZE * TOTAL;

// A refusal before any message is told in stage 1, with key 0.
impl From<Refusal> for Stopped {
    ghost from_gives = { λ why s. s ≡ record { why = why; stage = 1; key = 0 } };

    fn from(why: Refusal) -> Stopped {
        Stopped {
            why,
            stage: 1,
            key: 0,
        }
    }
}

// The numbers of all means and covariances.
fn marginal_numbers(g: Graph) -> usize
    requires { valid g ≡ true }
    ensures { (result ≡ marginal_numbers g) × (result ≤ 224) }
{
    let mut sum = 0;
    for &size in &g.sizes {
        let s = usize::from(size);
        sum += s + s * s;
    }
    sum
}

// The step of a message of a pass.
fn step_of(p: Pass, j: usize) -> usize
    requires { PassReady max_variables p × (j < p.count) }
    ensures { result ≡ (at (messages_of p) j).step }
{
    usize::from(p.steps[j])
}

// The messages of a plan get their places in the tables and in the message store.
fn place_plan(g: Graph, p: Plan, keys: &mut [usize], heads: &mut [usize]) -> Places
    requires planned { stages.Planned g p (plan_in g.variables p) }
    requires keys_len { (length keys.old ≡ keys_length) × (length heads.old ≡ heads_length) }
    ensures { stages.RunReady g (plan_in g.variables p) result keys.new heads.new }
{
    let fw = p.forward;
    let bw = p.backward;
    fill_originals(g, keys, heads);
    let forward_need = place_pass(g, fw, 0, 0, keys, heads);
    let figure = place_pass(g, bw, BACKWARD, forward_need, keys, heads);
    Places {
        forward: forward_need,
        figure,
    }
}

// The lengths of the stores are tested before any arithmetic, the factor store's first.
fn check_stores(
    g: Graph,
    figure: usize,
    factors: usize,
    messages: usize,
    work: usize,
    marginals: usize,
) -> Result<(), Refusal>
    requires { valid g ≡ true }
    ensures { result ≡ stages.stores_of g figure factors messages work marginals }
{
    let n = g.count;
    if factors < g.offset(n) {
        return Err(Refusal::FactorStoreShort);
    }
    if messages < figure {
        return Err(Refusal::StoreShort);
    }
    if work < WORK {
        return Err(Refusal::StoreShort);
    }
    if marginals < marginal_numbers(g) {
        return Err(Refusal::StoreShort);
    }
    Ok(())
}

// Stage 3: the marginals of all keys are found, and only then stored.
fn third_stage<'a>(
    g: Graph,
    at: [Gathered; VARIABLES],
    s: Sources<'a>,
    work: &mut [f64],
    marginals: &mut [f64],
) -> Result<(), Stopped>
    requires { Findable g at s.factors.now s.messages.now (length work.old) s.tables.keys.now s.tables.heads.now (length marginals.old) }
    ensures { (figure : ℕ) → stages.ThirdPlanned g at figure s.entry.factors.now s.entry.messages.now s.entry.tables.keys.now s.entry.tables.heads.now
        marginals.old result marginals.new }
{
    let mut results = [0.0; RESULTS];
    if let Err(u) = find_marginals(g, at, s, work, &mut results) {
        return Err(Stopped {
            why: u.why,
            stage: 3,
            key: u.at,
        });
    }
    let n = marginal_numbers(g);
    marginals[..n].copy_from_slice(&results[..n]);
    Ok(())
}

// The plan is carried out: the forward pass, the backward pass, the marginals. The forward pass follows the order, the backward pass reverses it: its step t
// is the key at the place n - 1 - t.
fn carry_out<'a>(
    g: Graph,
    order: &[u8],
    p: Plan,
    places: Places,
    factors: &'a [f64],
    messages: &mut [f64],
    work: &mut [f64],
    tables: Tables<'a>,
    marginals: &mut [f64],
) -> Result<(), Stopped>
    requires planned { stages.Planned g p (plan_in g.variables p) × stages.RunReady g (plan_in g.variables p) places tables.keys.now tables.heads.now }
    requires enough { stages.Enough g places.figure (length factors.now) (length messages.old) (length work.old) (length marginals.old) }
    requires order_len { length order.now ≡ g.variables }
    ensures { run_verdict (stages.ran places.figure result) messages.new marginals.new ≡
        spec.carried g (spec.key_at order.now) (plan_in g.variables p) places.figure factors.now messages.old
        marginals.old }
{
    let fw = p.forward;
    let bw = p.backward;
    if let Err(u) = carry_pass(g, fw, 0, 0, factors, messages, work, tables) {
        let key = usize::from(order[step_of(fw, u.at)]);
        return Err(Stopped {
            why: u.why,
            stage: 1,
            key,
        });
    }
    let start = places.forward;
    if let Err(u) = carry_pass(g, bw, BACKWARD, start, factors, messages, work, tables) {
        let key = usize::from(order[g.variables - 1 - step_of(bw, u.at)]);
        return Err(Stopped {
            why: u.why,
            stage: 2,
            key,
        });
    }
    let s = Sources {
        factors,
        messages: &messages[..],
        tables,
    };
    third_stage(g, p.at, s, work, marginals)
}

// The stages of a run: the plan is made and placed, which gives the figure; the stores are tested; then both passes and the marginals are
// carried out. The figure stays 0 where no plan is made.
fn all_stages(
    g: Graph,
    order: &[u8],
    figure: &mut usize,
    factors: &[f64],
    messages: &mut [f64],
    work: &mut [f64],
    marginals: &mut [f64],
) -> Result<(), Stopped>
    requires { figure.old ≡ 0 }
    ensures { run_verdict (stages.ran figure.new result) messages.new marginals.new ≡
        spec.run_along g order.now factors.now messages.old (length work.old) marginals.old }
{
    let p = crate::arrange_along(g, order)?.plan;
    let mut keys = [0; LISTED];
    let mut heads = [0; HEADS];
    let places = place_plan(g, p, &mut keys, &mut heads);
    *figure = places.figure;
    check_stores(
        g,
        places.figure,
        factors.len(),
        messages.len(),
        work.len(),
        marginals.len(),
    )?;
    let tables = Tables {
        keys: &keys,
        heads: &heads,
    };
    carry_out(
        g, order, p, places, factors, messages, work, tables, marginals,
    )
}

// The run of a graph along a lent order of its keys. Each refusal comes with the figure, the stage and the key.
pub fn run_along(
    g: Graph,
    order: &[u8],
    factors: &[f64],
    messages: &mut [f64],
    work: &mut [f64],
    marginals: &mut [f64],
) -> Ran
    ensures marginals_after { run_verdict result messages.new marginals.new ≡
        spec.run_along g order.now factors.now messages.old (length work.old) marginals.old }
    ensures result_value { ran_told result ≡ ran_told (spec.run_along g order.now factors.now messages.old
        (length work.old) marginals.old).answer }
{
    let mut figure = 0;
    let ended = all_stages(g, order, &mut figure, factors, messages, work, marginals);
    Ran { figure, ended }
}

// The same with keys rising.
pub fn run(
    g: Graph,
    factors: &[f64],
    messages: &mut [f64],
    work: &mut [f64],
    marginals: &mut [f64],
) -> Ran
    ensures marginals_after { run_verdict result messages.new marginals.new ≡
        spec.run g factors.now messages.old (length work.old) marginals.old }
    ensures result_value { ran_told result ≡
        ran_told (spec.run g factors.now messages.old (length work.old) marginals.old).answer }
{
    let mut order = [0u8; VARIABLES];
    rise(&mut order);
    run_along(
        g,
        &order[..g.variables.min(VARIABLES)],
        factors,
        messages,
        work,
        marginals,
    )
}
