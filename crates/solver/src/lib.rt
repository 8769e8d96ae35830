// The plan of a graph, made before any arithmetic.
#![tactic(auto)]

pub mod run;

ghost use Rattle.std.specs.Prelude.{◌≡◌, ◌≤◌, IfOk};
ghost use Rattle.factor.specs.Limits.{max_variables};
ghost use Rattle.plan.specs.Plan.{Bounded};
ghost use Rattle.solver.specs.Plan as spec;
ghost use Rattle.solver.specs.Told.{plan_outcome_told, plan_told, plan_along_told};
ghost use Rattle.solver.specs.Stages.{read};

use factor::limits::VARIABLES;
use graph::Graph;
use graph::refusal::Refusal;
use plan::factors::live_of;
use plan::order::{in_array, is_order};
use plan::plan::{plan_of, rise};
use plan_answer::Plan;

// The plan in the arrays in which it was made, as the run reads it, and how many keys it is for.
#[derive(Drop)]
pub struct Arranged {
    pub keys: usize,
    pub plan: plan::plan::Plan,
}

// The plan, and how many keys it is for.
#[derive(Drop)]
pub struct Planned {
    pub keys: usize,
    pub plan: Plan,
}

// The plan of a graph along a lent order of its keys, in arrays: over its live factors. What stands past their counts is read by nobody.
pub fn arrange_along(g: Graph, order: &[u8]) -> Result<Arranged, Refusal>
    ensures result_value { read result ≡ spec.planned_along g order.now }
    ensures keys_le_max_variables { IfOk result (λ a. (a.keys ≤ max_variables) × Bounded a.keys a.plan) }
{
    if !g.valid() {
        return Err(Refusal::NoSuchGraph);
    }
    let n = g.variables;
    if !is_order(order, n) {
        return Err(Refusal::OrderUnlike);
    }
    let live = live_of(g.factors, g.count);
    let keys = in_array(order);
    Ok(Arranged {
        keys: n,
        plan: plan_of(g.factors, g.count, live.numbers, live.count, keys, n),
    })
}

// The same with keys rising.
pub fn arrange(g: Graph) -> Result<Arranged, Refusal>
    ensures result_value { read result ≡ spec.planned g }
    ensures keys_le_max_variables { IfOk result (λ a. (a.keys ≤ max_variables) × Bounded a.keys a.plan) }
{
    let mut order = [0u8; VARIABLES];
    rise(&mut order);
    arrange_along(g, &order[..g.variables.min(VARIABLES)])
}

// The plan out of its arrays.
fn copied(made: Result<Arranged, Refusal>) -> Result<Planned, Refusal>
    requires { IfOk made (λ a. (a.keys ≤ max_variables) × Bounded a.keys a.plan) }
    ensures { result ≡ spec.struct_of (read made) }
{
    let a = made?;
    Ok(Planned {
        keys: a.keys,
        plan: plan_answer::copy_out(a.plan, a.keys),
    })
}

// The plan of a graph along a lent order of its keys: for each message its pass, step, content, kept and cleared keys; for each key the
// messages and originals gathered, the leaves, and the keys cleared last.
pub fn plan_along(g: Graph, order: &[u8]) -> Result<Planned, Refusal>
    ensures value { result ≡ spec.plan_along_answer g order.now }
    ensures outcome_value { plan_outcome_told result ≡ plan_along_told g order.now }
{
    copied(arrange_along(g, order))
}

// The same with keys rising.
pub fn plan(g: Graph) -> Result<Planned, Refusal>
    ensures value { result ≡ spec.plan_answer g }
    ensures outcome_value { plan_outcome_told result ≡ plan_told g }
{
    copied(arrange(g))
}
