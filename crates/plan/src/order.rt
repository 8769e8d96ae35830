// A lent order of keys: whether it is one, and the array that holds it.
ghost use Rattle.std.specs.Prelude.{◌≡◌, ◌≤◌, length, take};
ghost use Rattle.factor.specs.Limits.{max_variables};
ghost use Rattle.schedule.specs.Count.{each_once};

use crate::masks::single;
use factor::limits::VARIABLES;

// Whether the order is each of the keys below n exactly once: as many keys as there are, each below n, and none met before.
pub fn is_order(order: &[u8], n: usize) -> bool
    requires { n ≤ max_variables }
    ensures { result ≡ each_once n order.now }
{
    if order.len() != n {
        return false;
    }
    let mut met = 0u32;
    for &k in order {
        let k = usize::from(k);
        if n <= k {
            return false;
        }
        let key = single(k);
        if met & key != 0 {
            return false;
        }
        met |= key;
    }
    true
}

// The order at the start of an array.
pub fn in_array(order: &[u8]) -> [u8; VARIABLES]
    requires { length order.now ≤ max_variables }
    ensures { take (length order.now) result ≡ order.now }
{
    let mut r = [0u8; VARIABLES];
    r[..order.len()].copy_from_slice(order);
    r
}
