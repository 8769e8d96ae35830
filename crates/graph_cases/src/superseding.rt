// Factors in place of others: which number may be named, the checks in their order, what is live afterwards, and records of live states.
ghost use Rattle.std.specs.Prelude.{◌<◌};
ghost use Rattle.factor.specs.Limits.{max_factors};

use crate::filled;
use crate::report::{
    forged, live, observation, over_each, over_observation, over_prior, prior, variable,
};
use factor::limits::FACTORS;
use graph::Graph;

// All cases, on a graph with keys 0, 1 and 2 of sizes 1, 2 and 1.
pub fn cases(rt: &HostRuntime, g: Graph) {
    over_each(rt, b"no factor to supersede", g, 0);
    let right = with_factors(rt, g);
    live(rt, b"three factors", right);
    named(rt, right);
    not_live_first(rt, right);
    prior_checks(rt, right);
    observation_checks(rt, right);
    accepted(rt, right);
    again(rt, right);
    chain(rt, right);
    last(rt, g);
    limit(rt);
    forged_states(rt, g, right);
    reached_states(rt, right);
}

// Factor 0 is a prior on key 0, 1 an observation of keys 0 and 1 and 2 a prior on key 2: 2, 5 and 2 numbers.
fn with_factors(rt: &HostRuntime, g: Graph) -> Graph {
    let one = [1.0];
    let g = prior(rt, b"a factor 0", g, 0, &one, &one, 16);
    let g = observation(rt, b"a factor 1", g, &[0, 1], 1, &[1.0; 3], &one, &one, 16);
    prior(rt, b"a factor 2", g, 2, &one, &one, 16)
}

fn named(rt: &HostRuntime, g: Graph) {
    over_each(rt, b"superseding the new factor itself", g, 3);
    over_each(rt, b"superseding number 4 of three", g, 4);
    over_each(rt, b"superseding number 63 of three", g, 63);
    over_each(rt, b"superseding number 64", g, 64);
    over_each(rt, b"superseding number 255", g, 255);
    over_each(rt, b"superseding the largest number", g, 0xFFFFFFFFFFFFFFFF);
}

// 19 comes before all checks of the new factor.
fn not_live_first(rt: &HostRuntime, g: Graph) {
    let one = [1.0];
    let two = [1.0, 1.0];
    let nan = [0.0 / 0.0];
    over_prior(rt, b"19 before 11", g, 3, 9, &one, &one, 32);
    over_prior(rt, b"19 before 5", g, 3, 0, &two, &one, 32);
    over_prior(rt, b"19 before 13", g, 3, 0, &one, &one, 0);
    over_prior(rt, b"19 before 6", g, 3, 0, &nan, &one, 32);
    over_prior(
        rt,
        b"19 before 20",
        g,
        3,
        1,
        &two,
        &[2.0, 1.0, 5.0, 2.0],
        32,
    );
    over_prior(rt, b"19 before 7", g, 3, 0, &one, &[0.0], 32);
    over_observation(rt, b"19 before 4", g, 3, &[], 7, &[], &one, &one, 32);
    over_observation(rt, b"19 before 3", g, 3, &[1, 1], 1, &one, &one, &one, 32);
    over_observation(
        rt,
        b"19 before 11 and 5",
        g,
        3,
        &[9],
        1,
        &[],
        &one,
        &one,
        32,
    );
}

// The checks of a prior once the number was found live. Most calls would be refused by a later check too.
fn prior_checks(rt: &HostRuntime, g: Graph) {
    let one = [1.0];
    let two = [1.0, 1.0];
    let nan = [0.0 / 0.0];
    let odd = [1.0, 2.0, 3.0, 1.0];
    over_prior(rt, b"over 0, a key not there", g, 0, 3, &two, &one, 0);
    over_prior(rt, b"over 0, mean too long", g, 0, 0, &two, &one, 0);
    over_prior(rt, b"over 0, variance too long", g, 0, 0, &one, &two, 0);
    over_prior(rt, b"over 0, store one short", g, 0, 0, &nan, &one, 10);
    over_prior(rt, b"over 0, mean not a number", g, 0, 0, &nan, &[0.0], 11);
    over_prior(rt, b"over 1, not symmetric", g, 1, 1, &two, &odd, 15);
    over_prior(rt, b"over 1, no second pivot", g, 1, 1, &two, &[1.0; 4], 15);
    over_prior(rt, b"over 2, no pivot", g, 2, 2, &one, &[0.0], 11);
    let g = over_prior(rt, b"over 2, overflows", g, 2, 2, &one, &[1.0e-320], 11);
    live(rt, b"over 2, overflows", g);
}

// As `prior_checks`, of an observation.
fn observation_checks(rt: &HostRuntime, g: Graph) {
    let one = [1.0];
    let two = [1.0, 1.0];
    let nan = [0.0 / 0.0];
    let odd = [1.0, 2.0, 3.0, 1.0];
    let big = [1.7e308];
    let half = [0.5];
    over_observation(rt, b"over 0, no rows", g, 0, &[1, 1], 0, &[], &[], &[], 0);
    over_observation(rt, b"over 0, 7 rows", g, 0, &[1, 1], 7, &[], &[], &[], 0);
    over_observation(rt, b"over 0, 5 keys", g, 0, &[9; 5], 1, &[], &one, &one, 0);
    over_observation(
        rt,
        b"over 1, equal keys",
        g,
        1,
        &[9, 9],
        1,
        &[],
        &one,
        &one,
        0,
    );
    over_observation(
        rt,
        b"over 1, key not there",
        g,
        1,
        &[3],
        1,
        &[],
        &one,
        &one,
        0,
    );
    over_observation(
        rt,
        b"over 1, A too short",
        g,
        1,
        &[0],
        1,
        &[],
        &one,
        &one,
        0,
    );
    over_observation(
        rt,
        b"over 1, one short",
        g,
        1,
        &[0],
        1,
        &nan,
        &one,
        &one,
        11,
    );
    over_observation(
        rt,
        b"over 1, A is NaN",
        g,
        1,
        &[0],
        1,
        &nan,
        &one,
        &[0.0],
        12,
    );
    over_observation(rt, b"over 2, lopsided", g, 2, &[0], 2, &two, &two, &odd, 17);
    over_observation(
        rt,
        b"over 2, no pivot",
        g,
        2,
        &[0],
        1,
        &one,
        &one,
        &[0.0],
        12,
    );
    let g = over_observation(
        rt,
        b"over 2, xi infinite",
        g,
        2,
        &[0],
        1,
        &one,
        &big,
        &half,
        12,
    );
    live(rt, b"over 2, xi infinite", g);
}

// Kind and keys may differ from those of the old factor, and a store is just long enough with the old one's numbers.
fn accepted(rt: &HostRuntime, g: Graph) {
    let one = [1.0];
    let two = [1.0, 1.0];
    let unit = [1.0, 0.0, 0.0, 1.0];
    let a = over_prior(rt, b"prior by prior", g, 0, 0, &one, &one, 11);
    live(rt, b"prior by prior", a);
    let b = over_prior(rt, b"prior on another key", g, 0, 1, &two, &unit, 15);
    live(rt, b"prior on another key", b);
    let c = over_observation(
        rt,
        b"prior by observation",
        g,
        0,
        &[0],
        1,
        &one,
        &one,
        &one,
        12,
    );
    live(rt, b"prior by observation", c);
    let d = over_prior(rt, b"observation by prior", g, 1, 0, &one, &one, 11);
    live(rt, b"observation by prior", d);
    let e = over_observation(
        rt,
        b"observation by another",
        g,
        1,
        &[],
        1,
        &[],
        &one,
        &one,
        11,
    );
    live(rt, b"observation by another", e);
    let f = over_prior(rt, b"the last factor", g, 2, 2, &one, &one, 11);
    live(rt, b"the last factor", f);
}

// A superseded factor can't be superseded again, before and after the new one was superseded too.
fn again(rt: &HostRuntime, g: Graph) {
    let one = [1.0];
    let g = over_prior(rt, b"factor 0 by 3", g, 0, 0, &one, &one, 32);
    over_each(rt, b"factor 0 again", g, 0);
    over_prior(rt, b"factor 0 again, 19 before 11", g, 0, 9, &one, &one, 32);
    over_prior(rt, b"factor 0 again, 19 before 13", g, 0, 0, &one, &one, 12);
    let g = over_prior(rt, b"factor 3 by 4", g, 3, 0, &one, &one, 32);
    over_each(rt, b"factor 0 once more", g, 0);
    over_each(rt, b"factor 3 again", g, 3);
    over_each(rt, b"factor 4, which is live", g, 4);
}

// The latest of a chain is live, the numbers of those before it stay in the store, and the other factors are as they were.
fn chain(rt: &HostRuntime, g: Graph) {
    let one = [1.0];
    let g = over_prior(rt, b"a chain, 3 over 1", g, 1, 0, &one, &one, 11);
    let g = over_observation(
        rt,
        b"a chain, 4 over 3",
        g,
        3,
        &[2],
        1,
        &one,
        &one,
        &one,
        14,
    );
    over_prior(rt, b"a chain, 5 over 4, one short", g, 4, 2, &one, &one, 15);
    let g = over_prior(rt, b"a chain, 5 over 4", g, 4, 2, &one, &one, 16);
    live(rt, b"a chain", g);
    prior(
        rt,
        b"a chain, then a plain one, short",
        g,
        0,
        &one,
        &one,
        17,
    );
    let g = prior(rt, b"a chain, then a plain one", g, 0, &one, &one, 18);
    live(rt, b"a chain, then a plain one", g);
    let g = over_prior(rt, b"then 7 over 0", g, 0, 0, &one, &one, 20);
    let g = over_prior(rt, b"then 8 over 2", g, 2, 2, &one, &one, 22);
    live(rt, b"then 8 over 2", g);
}

// The only factor, and what a variable or a plain factor after it leaves of the live states.
fn last(rt: &HostRuntime, g: Graph) {
    let one = [1.0];
    let g = prior(rt, b"an only factor", g, 0, &one, &one, 2);
    let g = over_prior(rt, b"an only factor superseded", g, 0, 0, &one, &one, 4);
    live(rt, b"an only factor superseded", g);
    let g = variable(rt, b"with a variable more", g, 120, 0, 1);
    live(rt, b"with a variable more", g);
    let g = prior(rt, b"and a plain factor", g, 2, &one, &one, 6);
    live(rt, b"and a plain factor", g);
}

// A superseding factor counts toward the limit, and so does the superseded one: the 64th in place of the 63rd.
fn limit(rt: &HostRuntime) {
    let one = [1.0];
    let g = filled(63);
    over_observation(rt, b"the 64th over 63", g, 63, &[], 1, &[], &one, &one, 130);
    over_observation(rt, b"127 numbers", g, 62, &[], 1, &[], &one, &one, 127);
    let g = over_observation(rt, b"the 64th over 62", g, 62, &[], 1, &[], &one, &one, 128);
    live(rt, b"the 64th over 62", g);
    past_limit(rt, g);
    forged(
        rt,
        b"64 factors, the last not live",
        with_state(g, 63, false),
    );
}

// With 64 factors, of which number 62 isn't live.
fn past_limit(rt: &HostRuntime, g: Graph) {
    let one = [1.0];
    observation(rt, b"a 65th", g, &[], 1, &[], &one, &one, 130);
    over_observation(rt, b"a 65th over 63", g, 63, &[], 1, &[], &one, &one, 130);
    over_observation(rt, b"a 65th over 0", g, 0, &[], 1, &[], &one, &one, 0);
    over_observation(rt, b"a 65th over 62", g, 62, &[], 1, &[], &one, &one, 130);
    over_observation(rt, b"a 65th over 64", g, 64, &[], 1, &[], &one, &one, 130);
    over_observation(rt, b"a 65th, A too long", g, 0, &[], 1, &one, &one, &one, 0);
    over_prior(rt, b"a 65th over 0, key not there", g, 0, 0, &one, &one, 0);
    over_prior(
        rt,
        b"a 65th over 62, key not there",
        g,
        62,
        0,
        &one,
        &one,
        0,
    );
}

// The record with another live state at a place.
fn with_state(g: Graph, number: usize, live: bool) -> Graph
    requires { number < max_factors }
{
    let mut other = g;
    other.factors[number].live = live;
    other
}

// As `forged`, and the superseding calls: of a factor, and of a number that is never one.
fn forged_state(rt: &HostRuntime, label: &[u8], g: Graph) {
    forged(rt, label, g);
    over_each(rt, label, g, 0);
    over_each(rt, label, g, FACTORS);
}

// The last factor is live, and an unused place isn't.
fn forged_states(rt: &HostRuntime, g: Graph, right: Graph) {
    let one = [1.0];
    let bad = with_state(right, 2, false);
    forged_state(rt, b"the last factor not live", bad);
    let none = with_state(with_state(bad, 0, false), 1, false);
    forged_state(rt, b"no factor live", none);
    forged_state(rt, b"the next place live", with_state(right, 3, true));
    forged_state(rt, b"the last place live", with_state(right, 63, true));
    forged_state(rt, b"no factors, a place live", with_state(g, 0, true));
    let only = prior(rt, b"an only factor again", g, 0, &one, &one, 2);
    forged_state(rt, b"an only factor not live", with_state(only, 0, false));
    let next = over_prior(rt, b"factor 1 by 3", right, 1, 0, &one, &one, 32);
    forged_state(rt, b"factor 3 not live either", with_state(next, 3, false));
}

// The plain calls, and those in place of factors 0, 1 and 2, of which the live ones can be superseded.
fn reached_state(rt: &HostRuntime, label: &[u8], g: Graph) {
    live(rt, label, g);
    forged(rt, label, g);
    over_each(rt, label, g, 0);
    over_each(rt, label, g, 1);
    over_each(rt, label, g, 2);
}

// All other live states are those that some calls yield, whether these calls did or not.
fn reached_states(rt: &HostRuntime, g: Graph) {
    let one = [1.0];
    let first = with_state(g, 0, false);
    reached_state(rt, b"factor 0 made not live", first);
    reached_state(rt, b"factor 1 made not live", with_state(g, 1, false));
    reached_state(rt, b"both made not live", with_state(first, 1, false));
    let next = over_prior(rt, b"factor 0 by 3 anew", g, 0, 0, &one, &one, 32);
    reached_state(rt, b"factor 0 made live", with_state(next, 0, true));
}
