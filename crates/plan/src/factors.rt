// From the factors of a graph to key sets, and to the numbers of the live ones.
ghost use Rattle.std.specs.Prelude.{◌≤◌};
ghost use Rattle.factor.specs.Limits.{max_factors};
ghost use Rattle.plan.specs.Mask.{Set};
ghost use Rattle.plan.specs.Factors as spec;

use crate::masks::single;
use factor::Factor;
use factor::limits::FACTORS;

// The numbers of live factors, in the first `count` places.
#[derive(Drop)]
pub struct Lives {
    pub numbers: [u8; FACTORS],
    pub count: usize,
}

// The keys of one factor as a set.
pub fn mask_of(f: Factor) -> u32
    requires { spec.Fits f }
    ensures { Set (spec.touched_keys f) result }
{
    let n = usize::from(f.touched);
    let mut r = 0u32;
    for &k in &f.keys[..n] {
        r |= single(usize::from(k));
    }
    r
}

// The sets of all factors: of the first `count` their keys, of the others none.
pub fn masks_of(factors: [Factor; FACTORS], count: usize) -> [u32; FACTORS]
    requires count_le_max_factors { count ≤ max_factors }
    requires all_fit { spec.AllFit factors count }
    ensures { spec.Masked factors count result }
{
    let mut r = [0u32; FACTORS];
    for i in 0..count {
        r[i] = mask_of(factors[i]);
    }
    r
}

// The numbers of the live factors among the first `count`, rising: a pass starts with these.
pub fn live_of(factors: [Factor; FACTORS], count: usize) -> Lives
    requires { count ≤ max_factors }
    ensures { spec.Lists factors count result }
{
    let mut numbers = [0u8; FACTORS];
    let mut lives = 0;
    for i in 0..count {
        let f = factors[i];
        if f.live {
            numbers[lives] = i as u8;
            lives += 1;
        }
    }
    Lives {
        numbers: numbers,
        count: lives,
    }
}
