// The heads and the keys of a graph's factors in lent tables, as an elimination of slots reads them.
#![tactic(auto)]

ghost use Rattle.std.specs.Prelude.{◌≡◌, true, ◌+◌, ◌*◌, ◌<◌, ◌≤◌, length};
ghost use Rattle.factor.specs.Limits.{max_factors, max_keys};
ghost use Rattle.factor.specs.Factor.{lay};
ghost use Rattle.graph.specs.Record.{valid};
ghost use Rattle.slots.specs.Limits.{numbers_per_head};
ghost use Rattle.tables.specs.Originals.{width_of};
ghost use Rattle.tables.specs.Heads.{Originals, with_head};

use factor::Factor;
use factor::limits::{KEYS, VARIABLES};
use graph::Graph;
use slots::limits::HEAD;

// The head of the slot of a number.
pub fn put_head(
    heads: &mut [usize],
    number: usize,
    prior: bool,
    at: usize,
    rows: usize,
    width: usize,
    first: usize,
    count: usize,
)
    requires { numbers_per_head * number + 5 < length heads.old }
    ensures { heads.new ≡ with_head heads.old number prior at rows width first count }
{
    let p = HEAD * number;
    heads[p] = usize::from(prior);
    heads[p + 1] = at;
    heads[p + 2] = rows;
    heads[p + 3] = width;
    heads[p + 4] = first;
    heads[p + 5] = count;
}

// All places of a factor's keys, from a place of the table on.
fn put_keys(keys: &mut [usize], first: usize, f: Factor)
    requires { first + max_keys ≤ length keys.old }
    ensures { (keys.new ≡ lay keys.old first f.keys) × (length f.keys ≡ max_keys) }
{
    for (place, &key) in f.keys.iter().enumerate() {
        keys[first + place] = usize::from(key);
    }
}

// A prior has no A, so its width is 0.
fn width_of(f: Factor, sizes: [u8; VARIABLES]) -> usize
    requires { f.touched ≤ max_keys }
    ensures { result ≡ width_of sizes f }
{
    if f.prior {
        return 0;
    }
    f.width(sizes)
}

// The head and the keys of the factor of a number, whose numbers begin at a place of the factor store.
fn put_original(
    f: Factor,
    sizes: [u8; VARIABLES],
    number: usize,
    at: usize,
    keys: &mut [usize],
    heads: &mut [usize],
)
    requires number_lt_max_factors { (number < max_factors) × (f.touched ≤ max_keys) }
    requires max_factors_in_bounds { (max_keys * max_factors ≤ length keys.old) × (numbers_per_head * max_factors ≤ length heads.old) }
    ensures keys_after { (keys.new ≡ lay keys.old (max_keys * number) f.keys) × (length f.keys ≡ max_keys) }
    ensures heads_after { heads.new ≡
        with_head heads.old number f.prior at f.rows (width_of sizes f) (max_keys * number) f.touched }
{
    let first = KEYS * number;
    put_keys(keys, first, f);
    put_head(
        heads,
        number,
        f.prior,
        at,
        usize::from(f.rows),
        width_of(f, sizes),
        first,
        usize::from(f.touched),
    );
}

// The heads and the keys of all factors of a graph. Each factor's numbers begin where those of the one before it end.
pub fn fill_originals(g: Graph, keys: &mut [usize], heads: &mut [usize])
    requires g_value { valid g ≡ true }
    requires max_factors_in_bounds { (max_keys * max_factors ≤ length keys.old) × (numbers_per_head * max_factors ≤ length heads.old) }
    ensures { Originals g keys.new heads.new }
{
    let sizes = g.sizes;
    let count = g.count;
    let mut at = 0;
    for number in 0..count {
        let f = g.factors[number];
        put_original(f, sizes, number, at, keys, heads);
        at += f.numbers(sizes);
    }
}
