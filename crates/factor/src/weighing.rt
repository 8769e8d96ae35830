// The numbers of a factor: whether those given are finite and the variance is symmetric, and A, xi and W into the store.
ghost use Rattle.std.specs.Prelude.{◌≡◌, true, ◌*◌, ◌<◌, length};
ghost use Rattle.matrix.specs.Finite.{all_finite};
ghost use Rattle.factor.specs.Counting.{all};
ghost use Rattle.factor.specs.Factor as spec;
ghost use Rattle.cholesky.specs.Forms.{exchanged};
ghost use Rattle.factor.specs.Storing.{FactorRoom, form_laid};
ghost use Rattle.factor.specs.Told.{weighed_told, weight_told};
ghost use Rattle.cholesky.specs.Answers.{FormLent, end_of};

use crate::limits::{ROWS, SQUARE};
use crate::lists::copy_in;
use cholesky::Fault;
use cholesky::exchange::exchange;
use matrix::{View, get};

// All numbers given for a factor are finite.
#[tactic(auto, unfolding(crate::specs::Factor::given_finite, crate::specs::Counting::every))]
pub fn given_finite(a: &[f64], mean: &[f64], variance: &[f64]) -> bool
    ensures { result ≡ spec.given_finite a.now mean.now variance.now }
{
    matrix::finite(a) && matrix::finite(mean) && matrix::finite(variance)
}

// Column j of S(n × n) above the diagonal compares equal to row j left of it, entry by entry.
fn column_mirrored(s: &[f64], n: usize, j: usize) -> bool
    requires { (length s.now ≡ n * n) × (j < n) }
    ensures { result ≡ all (λ i. spec.mirrored n s.now i j) j }
{
    let v = View {
        at: 0,
        down: 1,
        across: n,
    };
    (0..j).all(|i| get(s, v, i, j) == get(s, v, j, i))
}

// S(n × n) is symmetric. Each pair off the diagonal is looked at once: a finite number equals itself.
pub fn symmetric(s: &[f64], n: usize) -> bool
    requires { (length s.now ≡ n * n) × (all_finite s.now ≡ true) }
    ensures { result ≡ spec.symmetric n s.now }
{
    (0..n).all(|j| column_mirrored(s, n, j))
}

// Stores A, xi and W of a mean and a variance of n rows from a place on, by way of the working slices. The store is touched only when all numbers are there.
fn store_by(
    store: &mut [f64],
    at: usize,
    a: &[f64],
    mean: &[f64],
    variance: &[f64],
    n: usize,
    l: &mut [f64],
    xi: &mut [f64],
    w: &mut [f64],
) -> Result<(), Fault>
    requires factor_room { FactorRoom n at a.now mean.now variance.now store.old }
    requires form_lent { FormLent n l.old xi.old w.old }
    ensures value { result ≡ end_of (exchanged n mean.now variance.now) }
    ensures store_after { store.new ≡ form_laid (exchanged n mean.now variance.now) a.now store.old at }
{
    l.copy_from_slice(variance);
    xi.copy_from_slice(mean);
    exchange(l, n, xi, w)?;
    let second = at + a.len();
    let third = second + n;
    copy_in(store, at, a);
    copy_in(store, second, &xi[..]);
    copy_in(store, third, &w[..]);
    Ok(())
}

// `store_by` with working arrays of its own (docs/PROOFS.md, 'Adapters').
pub fn store_factor(
    store: &mut [f64],
    at: usize,
    a: &[f64],
    mean: &[f64],
    variance: &[f64],
    n: usize,
) -> Result<(), Fault>
    requires { FactorRoom n at a.now mean.now variance.now store.old }
    ensures value { result ≡ end_of (exchanged n mean.now variance.now) }
    ensures store_after { store.new ≡ form_laid (exchanged n mean.now variance.now) a.now store.old at }
    ensures result_value { weighed_told result ≡ weight_told (exchanged n mean.now variance.now) }
{
    let square = n * n;
    let mut l = [0.0; SQUARE];
    let mut xi = [0.0; ROWS];
    let mut w = [0.0; SQUARE];
    store_by(
        store,
        at,
        a,
        mean,
        variance,
        n,
        &mut l[0..square],
        &mut xi[0..n],
        &mut w[0..square],
    )
}
