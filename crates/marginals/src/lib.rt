// The marginals of a run: for each key, rising, the last elimination of what it gathers, and the mean and the covariance from its message.
#![tactic(auto)]

ghost use Rattle.std.specs.Prelude.{◌≡◌, [], ◌∷◌, ◌++◌, ◌+◌, ◌*◌, ◌≤◌, length, get_or, take};
ghost use Rattle.factor.specs.Limits.{max_size, max_variables};
ghost use Rattle.factor.specs.Factor.{lay};
ghost use Rattle.plan.specs.Gather.{Held, gathered_of};
ghost use Rattle.slots.specs.Limits.{max_slots};
ghost use Rattle.gaussian.specs.Elimination.{eliminate};
ghost use Rattle.gaussian.specs.Answers.{views_of, marginal_from};
ghost use Rattle.gaussian.specs.Asked.{Asked};
ghost use Rattle.messages.specs.Asked.{cleared_of, listed_slots};
ghost use Rattle.marginals.specs.Marginals.{missing_from, marginals_in};
ghost use Rattle.marginals.specs.Asked.{last_by, found_at, AskedAt, Findable, FindsPlanned, refusal_of};

use factor::limits::VARIABLES;
use factor::lists::copy_in;
use factor::size_of;
use gaussian::marginal::{Marginal, MarginalFault, marginalize};
use graph::Graph;
use graph::refusal::Refusal;
use lists::gathered_lists;
use messages::Undone;
use plan::gather::Gathered;
use slots::Sources;

// Why a key has no marginal: 15, 16 and 17.
fn refusal_of(fault: MarginalFault) -> Refusal
    ensures { result ≡ refusal_of fault }
{
    match fault {
        MarginalFault::ClearedPivot => Refusal::ClearedPivot,
        MarginalFault::Pivot => Refusal::MarginalPivot,
        MarginalFault::NotFinite => Refusal::ResultNotFinite,
    }
}

// The mean and after it the covariance stand in the results from a place on.
fn put_marginal(results: &mut [f64], at: usize, m: Marginal)
    requires { (m.size ≤ max_size) × (at + (m.size + m.size * m.size) ≤ length results.old) }
    ensures { results.new ≡ lay results.old at (take m.size m.mean ++ take (m.size * m.size) m.covariance) }
{
    let s = m.size;
    copy_in(results, at, &m.mean[..s]);
    copy_in(results, at + s, &m.covariance[..s * s]);
}

// The marginal of one key into the results, from a place on. Refused, the results stay.
fn find_marginal<'a>(
    q: Gathered,
    key: usize,
    sizes: [u8; VARIABLES],
    s: Sources<'a>,
    work: &mut [f64],
    results: &mut [f64],
    to: usize,
) -> Result<(), Undone>
    requires held { Held q × AskedAt sizes s.factors.now s.messages.now (length work.old) s.tables.keys.now s.tables.heads.now key (gathered_of q)
        × (get_or sizes key 0 ≤ max_size) }
    requires key_in_bounds { to + (get_or sizes key 0 + get_or sizes key 0 * get_or sizes key 0) ≤ length results.old }
    ensures result_value { result ≡ missing_from key
        (found_at sizes s.entry.factors.now s.entry.messages.now s.entry.tables.keys.now s.entry.tables.heads.now key (gathered_of q) ∷ []) }
    ensures results_after { results.new ≡ lay results.old to
        (marginals_in (found_at sizes s.entry.factors.now s.entry.messages.now s.entry.tables.keys.now s.entry.tables.heads.now key (gathered_of q) ∷ [])) }
{
    let l = gathered_lists(q, key);
    let found = marginalize(
        s,
        work,
        key,
        &l.cleared[..l.clears],
        sizes,
        &l.slots[..l.count],
    );
    match found {
        Ok(m) => {
            put_marginal(results, to, m);
            Ok(())
        }
        Err(fault) => Err(Undone {
            at: key,
            why: refusal_of(fault),
        }),
    }
}

// The marginals of all keys, rising, into the results; the first key that has none ends it.
pub fn find_marginals<'a>(
    g: Graph,
    at: [Gathered; VARIABLES],
    s: Sources<'a>,
    work: &mut [f64],
    results: &mut [f64],
) -> Result<(), Undone>
    requires { Findable g at s.factors.now s.messages.now (length work.old) s.tables.keys.now s.tables.heads.now (length results.old) }
    ensures { FindsPlanned g at s.entry.factors.now s.entry.messages.now s.entry.tables.keys.now s.entry.tables.heads.now result
        results.old results.new }
{
    let mut to = 0;
    for key in 0..g.variables {
        find_marginal(at[key], key, g.sizes, s, work, results, to)?;
        let size = size_of(g.sizes, key);
        to += size + size * size;
    }
    Ok(())
}
