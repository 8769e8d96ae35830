// Calls with good and bad input, and a line for each: what it answered, and whether it changed the graph and the store.
#![tactic(auto)]

mod report;
mod superseding;

use factor::limits::FACTORS;
use graph::{Graph, Symbol};
use report::{changed, forged, observation, prior, variable};
use std::array;

fn main(rt: HostRuntime) {
    variables(&rt);
    let g = three();
    priors(&rt, g);
    prior_numbers(&rt, g);
    shapes(&rt, g);
    observations(&rt, g);
    observation_numbers(&rt, g);
    limits(&rt, g);
    widest(&rt, g);
    factor_limit(&rt);
    forged_variables(&rt, g);
    forged_factors(&rt, g);
    forged_widest(&rt, g);
    superseding::cases(&rt, g);
}

fn variables(rt: &HostRuntime) {
    let g = variable(rt, b"first variable", Graph::new(), 97, 0, 1);
    let g = variable(rt, b"a surrogate as letter", g, 0xD800, 0, 1);
    let g = variable(rt, b"a letter past Unicode", g, 0x110000, 0, 1);
    let g = variable(rt, b"the last letter", g, 0x10FFFF, 0, 6);
    let g = variable(rt, b"size 0", g, 97, 1, 0);
    let g = variable(rt, b"size 7", g, 97, 1, 7);
    let g = variable(rt, b"size 7 with a name taken", g, 97, 0, 7);
    let g = variable(rt, b"name taken", g, 97, 0, 1);
    variable(rt, b"the same letter, another index", g, 97, 1, 2);
}

// Keys 0, 1 and 2 of sizes 1, 2 and 1.
fn three() -> Graph {
    let mut g = Graph::new();
    let _ = g.add_variable(Symbol(97, 0), 1);
    let _ = g.add_variable(Symbol(97, 1), 2);
    let _ = g.add_variable(Symbol(98, 0), 1);
    g
}

fn priors(rt: &HostRuntime, g: Graph) {
    let one = [1.0];
    let two = [1.0, 1.0];
    let four = [2.0, 1.0, 1.0, 2.0];
    let nan = [0.0 / 0.0];
    prior(rt, b"prior on a key not there", g, 3, &one, &one, 8);
    prior(rt, b"mean too long", g, 0, &two, &one, 8);
    prior(rt, b"variance too long", g, 0, &one, &two, 8);
    prior(rt, b"store one short", g, 1, &two, &four, 5);
    prior(rt, b"store short and not a number", g, 0, &nan, &one, 1);
    let g = prior(rt, b"prior", g, 1, &two, &four, 6);
    prior(rt, b"the next prior, store one short", g, 0, &one, &one, 7);
    prior(rt, b"the next prior", g, 0, &one, &one, 8);
}

fn prior_numbers(rt: &HostRuntime, g: Graph) {
    let nan = 0.0 / 0.0;
    let inf = 1.0 / 0.0;
    let one = [1.0];
    let two = [1.0, 1.0];
    prior(rt, b"mean not a number", g, 0, &[nan], &one, 8);
    prior(rt, b"mean infinite", g, 0, &[inf], &one, 8);
    prior(rt, b"variance not a number", g, 0, &one, &[nan], 8);
    prior(
        rt,
        b"lower triangle infinite",
        g,
        1,
        &two,
        &[1.0, inf, 0.0, 1.0],
        8,
    );
    prior(
        rt,
        b"upper triangle not a number",
        g,
        1,
        &two,
        &[1.0, 0.0, nan, 1.0],
        8,
    );
    prior(
        rt,
        b"upper triangle infinite",
        g,
        1,
        &two,
        &[1.0, 0.0, 0.0 - inf, 1.0],
        8,
    );
    prior(rt, b"variance zero", g, 0, &one, &[0.0], 8);
    prior(rt, b"variance negative", g, 0, &one, &[0.0 - 1.0], 8);
    prior(
        rt,
        b"variance singular",
        g,
        1,
        &two,
        &[1.0, 1.0, 1.0, 1.0],
        8,
    );
    prior(
        rt,
        b"variance indefinite",
        g,
        1,
        &two,
        &[1.0, 2.0, 2.0, 1.0],
        8,
    );
    prior(rt, b"an inverse that overflows", g, 0, &one, &[1.0e-320], 8);
    prior(
        rt,
        b"a variance that isn't symmetric",
        g,
        1,
        &two,
        &[2.0, 1.0, 5.0, 2.0],
        8,
    );
    prior(
        rt,
        b"mean too short, variance not symmetric",
        g,
        1,
        &one,
        &[2.0, 1.0, 5.0, 2.0],
        8,
    );
    prior(
        rt,
        b"a variance neither symmetric nor definite",
        g,
        1,
        &two,
        &[1.0, 2.0, 3.0, 1.0],
        8,
    );
    prior(
        rt,
        b"zeros of either sign across the diagonal",
        g,
        1,
        &two,
        &[2.0, 0.0, 0.0 * (0.0 - 1.0), 2.0],
        8,
    );
}

fn shapes(rt: &HostRuntime, g: Graph) {
    let one = [1.0];
    let two = [1.0, 1.0];
    observation(rt, b"no rows", g, &[0], 0, &one, &one, &one, 8);
    observation(
        rt,
        b"a variance of 2 rows that isn't symmetric",
        g,
        &[0],
        2,
        &two,
        &two,
        &[2.0, 1.0, 5.0, 2.0],
        8,
    );
    observation(rt, b"equal keys", g, &[1, 1], 1, &one, &one, &one, 8);
    observation(rt, b"falling keys", g, &[1, 0], 1, &one, &one, &one, 8);
    observation(
        rt,
        b"equal keys not there",
        g,
        &[9, 9],
        1,
        &one,
        &one,
        &one,
        8,
    );
    observation(rt, b"a key not there", g, &[0, 3], 1, &one, &one, &one, 8);
    observation(rt, b"A too short", g, &[0, 2], 1, &one, &one, &one, 8);
    observation(rt, b"means too many", g, &[0], 1, &one, &two, &one, 8);
    observation(rt, b"variance too short", g, &[0], 2, &two, &two, &two, 8);
}

fn observations(rt: &HostRuntime, g: Graph) {
    let one = [1.0];
    let a = [1.0, 2.0, 3.0];
    observation(rt, b"store one short", g, &[0, 1], 1, &a, &one, &one, 4);
    let g = observation(rt, b"observation", g, &[0, 1], 1, &a, &one, &[4.0], 5);
    let g = observation(
        rt,
        b"observation without keys",
        g,
        &[],
        1,
        &[],
        &one,
        &one,
        12,
    );
    let g = prior(rt, b"prior after observations", g, 2, &one, &one, 12);
    observation(
        rt,
        b"the next one, store short",
        g,
        &[2],
        1,
        &one,
        &one,
        &one,
        11,
    );
    observation(rt, b"the next one", g, &[2], 1, &one, &one, &one, 12);
}

fn observation_numbers(rt: &HostRuntime, g: Graph) {
    let nan = 0.0 / 0.0;
    let inf = 1.0 / 0.0;
    let one = [1.0];
    observation(rt, b"A not a number", g, &[0], 1, &[nan], &one, &one, 8);
    observation(rt, b"A infinite", g, &[0], 1, &[inf], &one, &one, 8);
    observation(
        rt,
        b"observed mean infinite",
        g,
        &[0],
        1,
        &one,
        &[0.0 - inf],
        &one,
        8,
    );
    observation(
        rt,
        b"observed variance infinite",
        g,
        &[0],
        1,
        &one,
        &one,
        &[inf],
        8,
    );
    observation(
        rt,
        b"observed variance zero",
        g,
        &[0],
        1,
        &one,
        &one,
        &[0.0],
        8,
    );
    observation(
        rt,
        b"A that would overflow",
        g,
        &[0],
        1,
        &[1.7e308],
        &one,
        &one,
        8,
    );
    observation(rt, b"xi overflows", g, &[0], 1, &one, &[1.7e308], &[0.5], 8);
}

// Sizes that add up to the limit, and past it; as many variables as there is room for, and one more.
fn limits(rt: &HostRuntime, g: Graph) {
    let g = variable(rt, b"sizes to 10", g, 99, 0, 6);
    let g = variable(rt, b"sizes to 16", g, 99, 1, 6);
    let g = variable(rt, b"sizes to 22", g, 99, 2, 6);
    let g = variable(rt, b"sizes to 28", g, 99, 3, 6);
    variable(rt, b"sizes to 33", g, 99, 4, 5);
    variable(rt, b"sizes to 32", g, 99, 4, 4);
    let mut full = Graph::new();
    for i in 0..32 {
        let _ = full.add_variable(Symbol(97, i), 1);
    }
    variable(rt, b"a 33rd variable", full, 98, 0, 1);
    variable(rt, b"a 33rd variable, name taken", full, 97, 31, 1);
}

// The identity of dimension 6.
fn identity() -> [f64; 36] {
    array::from_fn(|i| if i % 7 == 0 { 1.0 } else { 0.0 })
}

// As many keys and rows as an observation may have, and one more.
fn widest(rt: &HostRuntime, g: Graph) {
    let one = [1.0];
    let six = [1.0; 6];
    let seven = [1.0; 7];
    let mut four = g;
    let _ = four.add_variable(Symbol(98, 1), 1);
    let mut five = four;
    let _ = five.add_variable(Symbol(98, 2), 1);
    observation(
        rt,
        b"4 keys",
        four,
        &[0, 1, 2, 3],
        1,
        &[1.0; 5],
        &one,
        &one,
        7,
    );
    observation(
        rt,
        b"5 keys",
        five,
        &[0, 1, 2, 3, 4],
        1,
        &six,
        &one,
        &one,
        8,
    );
    observation(rt, b"5 keys not there", g, &[9; 5], 1, &one, &one, &one, 8);
    observation(rt, b"6 rows", g, &[0], 6, &six, &six, &identity(), 48);
    observation(rt, b"7 rows", g, &[0], 7, &seven, &seven, &[1.0; 49], 63);
}

// So many factors, or as many as there is room for: observations without keys, of 2 numbers each.
pub fn filled(n: usize) -> Graph {
    let one = [1.0];
    let mut full = Graph::new();
    for _ in 0..n {
        let mut store = [9.0; 130];
        let _ = full.add_observation(&[], 1, &[], &one, &one, &mut store);
    }
    full
}

// As many factors as there is room for, and one more.
fn factor_limit(rt: &HostRuntime) {
    let one = [1.0];
    let full = filled(FACTORS);
    observation(rt, b"a 65th factor", full, &[], 1, &[], &one, &one, 130);
    observation(
        rt,
        b"a 65th factor, not a number",
        full,
        &[],
        1,
        &[],
        &[0.0 / 0.0],
        &one,
        130,
    );
}

fn forged_variables(rt: &HostRuntime, g: Graph) {
    changed(rt, b"33 variables", g, |g| g.variables = 33);
    changed(rt, b"a variable more than counted", g, |g| g.variables = 2);
    changed(rt, b"a variable less than counted", g, |g| g.variables = 4);
    changed(rt, b"a name twice", g, |g| g.symbols[1] = Symbol(97, 0));
    changed(rt, b"a surrogate", g, |g| g.symbols[2] = Symbol(0xDFFF, 0));
    changed(rt, b"a size of 0", g, |g| g.sizes[2] = 0);
    changed(rt, b"a size of 7", g, |g| g.sizes[2] = 7);
    changed(rt, b"a name in an unused place", g, |g| {
        g.symbols[31] = Symbol(0, 1);
    });
    changed(rt, b"a factor less than counted", g, |g| g.count = 1);
    changed(rt, b"65 factors", g, |g| g.count = 65);
}

fn forged_factors(rt: &HostRuntime, g: Graph) {
    let one = [1.0];
    let unit = [1.0, 0.0, 0.0, 1.0];
    let mut store = [9.0; 16];
    let mut right = g;
    let _ = right.add_observation(&[0, 2], 2, &[1.0; 4], &[1.0; 2], &unit, &mut store);
    changed(rt, b"keys that don't rise", right, |g| {
        g.factors[0].keys[0] = 2;
    });
    changed(rt, b"a key not there", right, |g| g.factors[0].keys[1] = 3);
    changed(rt, b"a spare key", right, |g| g.factors[0].keys[2] = 1);
    changed(rt, b"7 rows", right, |g| g.factors[0].rows = 7);
    changed(rt, b"5 keys", right, |g| g.factors[0].touched = 5);
    let mut bad = right;
    bad.factors[0].prior = true;
    forged(rt, b"a prior with two keys", bad);
    bad.factors[0].touched = 1;
    bad.factors[0].keys[1] = 0;
    forged(rt, b"a prior with rows unlike its size", bad);
    bad.factors[0].rows = 1;
    forged(rt, b"a prior as it should be", bad);
    changed(rt, b"a factor more than counted", right, |g| g.count = 0);
    prior(
        rt,
        b"the graph that was not forged",
        right,
        0,
        &one,
        &one,
        16,
    );
}

// A first factor with as many keys and rows as there may be, and one row more.
fn forged_widest(rt: &HostRuntime, g: Graph) {
    let one = [1.0];
    let mut store = [9.0; 16];
    let mut right = g;
    let _ = right.add_variable(Symbol(98, 1), 1);
    let _ = right.add_observation(&[0, 1, 2, 3], 1, &[1.0; 5], &one, &one, &mut store);
    changed(rt, b"4 keys and 6 rows", right, |g| g.factors[0].rows = 6);
    changed(rt, b"4 keys and 7 rows", right, |g| g.factors[0].rows = 7);
}
