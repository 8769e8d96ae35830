// A Gaussian has two forms, mean and covariance, and xi and W. Each is made from the other by the same steps.
ghost use Rattle.std.specs.Prelude.{◌≡◌};
ghost use Rattle.cholesky.specs.Forms.{exchanged};
ghost use Rattle.cholesky.specs.Answers.{FormLent, told};

use crate::{Fault, cholesky, inverse, solve};
use matrix::{Matrix, View};

// The vector in x becomes the solve of it, the zeros in y become the inverse of the matrix in l, and l its Cholesky factor.
pub fn exchange(l: &mut [f64], n: usize, x: &mut [f64], y: &mut [f64]) -> Result<(), Fault>
    requires { FormLent n l.old x.old y.old }
    ensures { exchanged n x.old l.old ≡ told result x.new y.new }
{
    let v = View {
        at: 0,
        down: 1,
        across: n,
    };
    cholesky(l, v, n)?;
    let factor = Matrix {
        s: &l[..],
        v,
        rows: n,
        columns: n,
    };
    solve(factor, x, v, 0);
    inverse(factor, y, v);
    if !matrix::finite(&x[..]) {
        return Err(Fault::NotFinite);
    }
    if !matrix::finite(&y[..]) {
        return Err(Fault::NotFinite);
    }
    Ok(())
}
