// A job file read into a graph, record by record.
#![tactic(auto)]

pub mod answer;
pub mod bytes;
mod input;
mod kinds;

ghost use Rattle.std.specs.Prelude.{◌≡◌, true, ◌+◌, ◌*◌, ◌≤◌, length};
ghost use Rattle.factor.specs.Limits.{max_size, max_total, max_rows};
ghost use Rattle.graph.specs.Record.{valid};
ghost use Rattle.graph.specs.Registration.{counts_fit};
ghost use Rattle.records.specs.Bytes.{float_bytes};
ghost use Rattle.records.specs.Records as spec;
ghost use Rattle.records.specs.Told.{read_told};

use answer::{Read, Rejected};
use bytes::{FLOAT_BYTES, HEADER_BYTES, MARK_BYTES, NUMBER_BYTES, VARIABLE_BYTES};
use factor::limits::{KEYS, ROWS, SIZE, SQUARE, TOTAL};
use graph::refusal::Refusal;
use graph::{Graph, Symbol};
use input::Reader;
use kinds::{Flag, Mark};
use matrix::View;

// A variable, from its letter on. Each of these calls answers where the next record begins.
#[tactic(auto, unfolding(crate::specs::Records::variable_at))]
fn read_variable(g: &mut Graph, r: Reader) -> Result<usize, Refusal>
    requires { valid g.old ≡ true }
    ensures { let asked = spec.variable_at r.entry.bytes.now r.entry.at in
        (result ≡ (spec.step_of g.old asked).next) × (g.new ≡ (spec.step_of g.old asked).graph) }
{
    if r.cut(VARIABLE_BYTES) {
        return Err(Refusal::BadRecord);
    }
    let letter = r.word();
    let index = r.past(4).word();
    let size = r.past(8).byte();
    g.enter_variable(Symbol(letter, index), size)?;
    Ok(r.at + VARIABLE_BYTES)
}

// A prior on a key of size s, from its means on.
#[tactic(auto, unfolding(crate::specs::Records::prior_numbers))]
fn read_prior_numbers(
    g: &mut Graph,
    r: Reader,
    key: usize,
    s: usize,
    store: &mut [f64],
) -> Result<usize, Refusal>
    requires valid_graph { valid g.old ≡ true }
    requires size { s ≤ max_size }
    ensures { let asked = spec.prior_numbers store.old r.entry.bytes.now key s r.entry.at in
        (result ≡ (spec.step_of g.old asked).next) × (g.new ≡ (spec.step_of g.old asked).graph)
        × (store.new ≡ spec.request_store g.old store.old asked) }
{
    let square = s * s;
    let all = FLOAT_BYTES * (s + square);
    if r.cut(all) {
        return Err(Refusal::BadRecord);
    }
    let mean = &mut [0.0; SIZE][..s];
    let variance = &mut [0.0; SIZE * SIZE][..square];
    r.numbers(mean);
    r.past(FLOAT_BYTES * s).numbers(variance);
    g.enter_prior(key, mean, variance, store)?;
    Ok(r.at + all)
}

// A prior, from its key on.
#[tactic(auto, unfolding(crate::specs::Records::prior_at))]
fn read_prior(g: &mut Graph, r: Reader, store: &mut [f64]) -> Result<usize, Refusal>
    requires { valid g.old ≡ true }
    ensures { let asked = spec.prior_at g.old store.old r.entry.bytes.now r.entry.at in
        (result ≡ (spec.step_of g.old asked).next) × (g.new ≡ (spec.step_of g.old asked).graph)
        × (store.new ≡ spec.request_store g.old store.old asked) }
{
    let key = usize::from(*r.rest().first().ok_or(Refusal::BadRecord)?);
    if g.variables <= key {
        return Err(Refusal::NoSuchKey);
    }
    let s = factor::size_of(g.sizes, key);
    read_prior_numbers(g, r.past(1), key, s, store)
}

// Out becomes the variance of so many rows that the flag says.
fn read_variance(r: Reader, flag: Flag, rows: usize, out: &mut [f64])
    requires in_bounds { r.at + float_bytes * spec.given_numbers flag rows ≤ length r.bytes.now }
    requires square { (1 ≤ rows) × (length out.old ≡ rows * rows) }
    ensures { out.new ≡ spec.variance_read flag r.entry.bytes.now r.entry.at rows }
{
    match flag {
        Flag::Diagonal(x) => {
            out.fill(0.0);
            let columns = View {
                at: 0,
                down: 1,
                across: rows,
            };
            matrix::fill_diagonal(out, columns, rows, x);
        }
        Flag::Given => r.numbers(out),
    }
}

// An observation of known keys, from its numbers on, of which A takes n.
#[tactic(auto, unfolding(crate::specs::Records::observed_numbers))]
fn read_observed_numbers(
    g: &mut Graph,
    r: Reader,
    keys: &[usize],
    rows: usize,
    flag: Flag,
    n: usize,
    store: &mut [f64],
) -> Result<usize, Refusal>
    requires valid_graph { valid g.old ≡ true }
    requires counts { (1 ≤ rows) × (rows ≤ max_rows) × (n ≤ max_rows * max_total) }
    ensures { let asked = spec.observed_numbers store.old r.entry.bytes.now keys.now rows flag n r.entry.at in
        (result ≡ (spec.step_of g.old asked).next) × (g.new ≡ (spec.step_of g.old asked).graph)
        × (store.new ≡ spec.request_store g.old store.old asked) }
{
    let square = rows * rows;
    let all = FLOAT_BYTES * (n + rows + kinds::given(flag, rows));
    if r.cut(all) {
        return Err(Refusal::BadRecord);
    }
    let a = &mut [0.0; ROWS * TOTAL][..n];
    let mean = &mut [0.0; ROWS][..rows];
    let variance = &mut [0.0; SQUARE][..square];
    r.numbers(a);
    r.past(FLOAT_BYTES * n).numbers(mean);
    read_variance(r.past(FLOAT_BYTES * (n + rows)), flag, rows, variance);
    g.enter_observation(keys, rows, a, mean, variance, store)?;
    Ok(r.at + all)
}

// An observation, from the judging of its keys on.
#[tactic(auto, unfolding(crate::specs::Records::observed))]
fn read_observed(
    g: &mut Graph,
    r: Reader,
    keys: &[usize],
    rows: usize,
    flag: Flag,
    store: &mut [f64],
) -> Result<usize, Refusal>
    requires valid_graph { valid g.old ≡ true }
    requires counts { counts_fit (length keys.now) rows ≡ true }
    ensures { let asked = spec.observed g.old store.old r.entry.bytes.now keys.now rows flag r.entry.at in
        (result ≡ (spec.step_of g.old asked).next) × (g.new ≡ (spec.step_of g.old asked).graph)
        × (store.new ≡ spec.request_store g.old store.old asked) }
{
    if !factor::lists::rising(keys) {
        return Err(Refusal::KeysNotRising);
    }
    if !factor::lists::known(g.variables, keys) {
        return Err(Refusal::NoSuchKey);
    }
    let n = factor::observation_of(keys, rows).a_numbers(g.sizes);
    read_observed_numbers(g, r, keys, rows, flag, n, store)
}

// An observation, from its counts on.
#[tactic(auto, unfolding(crate::specs::Records::observation_at))]
fn read_observation(g: &mut Graph, r: Reader, store: &mut [f64]) -> Result<usize, Refusal>
    requires { valid g.old ≡ true }
    ensures { let asked = spec.observation_at g.old store.old r.entry.bytes.now r.entry.at in
        (result ≡ (spec.step_of g.old asked).next) × (g.new ≡ (spec.step_of g.old asked).graph)
        × (store.new ≡ spec.request_store g.old store.old asked) }
{
    let header = r.rest().first_chunk::<HEADER_BYTES>();
    let [count, rows, flag] = *header.ok_or(Refusal::BadRecord)?;
    let count = usize::from(count);
    let rows = usize::from(rows);
    let flag = kinds::meaning(flag).ok_or(Refusal::BadRecord)?;
    if !graph::checks::counts_fit(count, rows) {
        return Err(Refusal::CountOutside);
    }
    let r = r.past(HEADER_BYTES);
    if r.cut(count) {
        return Err(Refusal::BadRecord);
    }
    let keys = &mut [0; KEYS][..count];
    r.keys(keys);
    read_observed(g, r.past(count), keys, rows, flag, store)
}

// A prior or an observation, from its mark on: the record of a factor, or what is within one that supersedes.
#[tactic(auto, unfolding(crate::specs::Records::within_at))]
fn read_within(g: &mut Graph, r: Reader, store: &mut [f64]) -> Result<usize, Refusal>
    requires { valid g.old ≡ true }
    ensures { let asked = spec.within_at g.old store.old r.entry.bytes.now r.entry.at in
        (result ≡ (spec.step_of g.old asked).next) × (g.new ≡ (spec.step_of g.old asked).graph)
        × (store.new ≡ spec.request_store g.old store.old asked) }
{
    match kinds::mark_at(r) {
        Some(Mark::Prior) => read_prior(g, r.past(MARK_BYTES), store),
        Some(Mark::Observation) => read_observation(g, r.past(MARK_BYTES), store),
        _ => Err(Refusal::BadRecord),
    }
}

// A factor that supersedes another, from the number of that one on. The old factor is retired once the new one is registered.
#[tactic(auto, unfolding(crate::specs::Records::superseding_at))]
fn read_superseding(g: &mut Graph, r: Reader, store: &mut [f64]) -> Result<usize, Refusal>
    requires { valid g.old ≡ true }
    ensures { let asked = spec.superseding_at g.old store.old r.entry.bytes.now r.entry.at in
        (result ≡ (spec.step_of g.old asked).next) × (g.new ≡ (spec.step_of g.old asked).graph)
        × (store.new ≡ spec.request_store g.old store.old asked) }
{
    let number = usize::from(*r.rest().first().ok_or(Refusal::BadRecord)?);
    if !g.is_live(number) {
        return Err(Refusal::NotLive);
    }
    let next = read_within(g, r.past(NUMBER_BYTES), store)?;
    g.retire(number);
    Ok(next)
}

// A record, from its mark on.
#[tactic(auto, using(crate::proofs::Requests::as_it_was), unfolding(crate::specs::Records::record_at, crate::specs::Records::within_at))]
fn read_record(g: &mut Graph, r: Reader, store: &mut [f64]) -> Result<usize, Refusal>
    requires { valid g.old ≡ true }
    ensures { let asked = spec.record_at g.old store.old r.entry.bytes.now r.entry.at in
        (result ≡ (spec.step_of g.old asked).next) × (g.new ≡ (spec.step_of g.old asked).graph)
        × (store.new ≡ spec.request_store g.old store.old asked) }
{
    match kinds::mark_at(r) {
        Some(Mark::Variable) => read_variable(g, r.past(MARK_BYTES)),
        Some(Mark::Superseding) => read_superseding(g, r.past(MARK_BYTES), store),
        Some(Mark::Prior | Mark::Observation) | None => read_within(g, r, store),
    }
}

// All records, to the end or to the first that is turned back.
pub fn read(bytes: &[u8], store: &mut [f64]) -> Read
    ensures value { (result ≡ (spec.read_all bytes.now store.old).answer) × (valid result.graph ≡ true) }
    ensures store_after { store.new ≡ (spec.read_all bytes.now store.old).store }
    ensures ended_value { read_told result.ended ≡ read_told (spec.read_all bytes.now store.old).answer.ended }
{
    let mut graph = Graph::new();
    let mut at = 0;
    let mut place = 0;
    while at < bytes.len() {
        match read_record(&mut graph, Reader { bytes, at }, store) {
            Ok(next) => at = next,
            Err(why) => {
                return Read {
                    graph,
                    ended: Err(Rejected { why, place }),
                };
            }
        }
        place += 1;
    }
    Read {
        graph,
        ended: Ok(()),
    }
}
