// Cholesky's factor of a symmetric matrix, and the solves with it, in place on lent slices.
#![tactic(auto)]

pub mod exchange;

ghost use Rattle.std.specs.Prelude.{◌≡◌, ℕ, ◌+◌, ◌<◌, ◌≤◌, ◌^◌, length};
ghost use Rattle.matrix.specs.Views.{place, Inside};
ghost use Rattle.cholesky.specs.Factor.{pivot_of, reduced, factor};
ghost use Rattle.cholesky.specs.Solve.{solved_row, solve_lower, solve_upper, solved, unit_column, inverted};
ghost use Rattle.cholesky.specs.Answers.{factored_as, list_of};

use matrix::{Matrix, View};

// Why numbers are refused: a pivot without a root, or a result that is not finite.
#[derive(Clone, Copy, Debug, PartialEq, Eq)]
pub enum Fault {
    Pivot,
    NotFinite,
}

// 2^-40: how small a pivot may be beside its diagonal entry.
const TOLERANCE: f64 = 0.0000000000009094947017729282379150390625;

// The root of a pivot, by what is left of the diagonal entry and by that entry as it was given. A pivot that is of rounding size
// beside the entry is refused too.
fn pivot(left: f64, given: f64) -> Option<f64>
    ensures { result ≡ pivot_of left given }
{
    if TOLERANCE * given < left {
        root::root(left)
    } else {
        None
    }
}

// Entry (i, j) less l(i, k) times l(j, k) for rising k below j.
fn reduced(s: &[f64], v: View, i: usize, j: usize) -> f64
    requires by_index { (k : ℕ) → k ≤ j → place v i k < length s.now }
    requires by_index_2 { (k : ℕ) → k ≤ j → place v j k < length s.now }
    ensures { result ≡ reduced s.now v i j }
{
    matrix::deduct(
        matrix::get(s, v, i, j),
        s,
        v,
        i,
        s,
        matrix::flip(v),
        j,
        0,
        j,
    )
}

// The lower triangle of S(n × n) becomes its Cholesky factor; the upper one is neither read nor written.
pub fn cholesky(s: &mut [f64], v: View, n: usize) -> Result<(), Fault>
    requires { Inside v n n (length s.old) }
    ensures value { result ≡ factored_as (factor v n s.old n) }
    ensures s_after { s.new ≡ list_of (factor v n s.old n) }
{
    for j in 0..n {
        for i in j..n {
            let x = reduced(&s[..], v, i, j);
            let d = matrix::get(&s[..], v, j, j);
            let y = if i == j {
                pivot(x, d).ok_or(Fault::Pivot)?
            } else {
                x / d
            };
            matrix::put(s, v, i, j, y);
        }
    }
    Ok(())
}

// Row i of a triangular solve of column c of x: n terms from column lo on are taken off, and the rest is divided by the pivot.
fn solved_row<'a>(
    l: Matrix<'a>,
    i: usize,
    x: &[f64],
    xv: View,
    c: usize,
    lo: usize,
    n: usize,
) -> f64
    requires shape { (i < l.rows) × (i < l.columns) × (lo + n ≤ l.columns) }
    requires pivot { place xv i c < length x.now }
    requires by_index { (k : ℕ) → k < n → place xv (lo + k) c < length x.now }
    ensures { result ≡ solved_row l.entry.s.now l.entry.v i x.now xv c lo n }
{
    matrix::deduct(matrix::get(x, xv, i, c), l.s, l.v, i, x, xv, c, lo, n)
        / matrix::get(l.s, l.v, i, i)
}

// The lower solve of column c of x, rows rising.
pub fn solve_lower<'a>(l: Matrix<'a>, x: &mut [f64], xv: View, c: usize)
    requires square { l.columns ≡ l.rows }
    requires by_index { (i : ℕ) → i < l.rows → place xv i c < length x.old }
    ensures { x.new ≡ solve_lower l.entry.s.now l.entry.v xv c x.old l.entry.rows }
{
    for i in 0..l.rows {
        let t = solved_row(l, i, &x[..], xv, c, 0, i);
        matrix::put(x, xv, i, c, t);
    }
}

// The solve of column c of x with an upper triangle, rows falling. With L transposed this is the transposed solve.
pub fn solve_upper<'a>(u: Matrix<'a>, x: &mut [f64], xv: View, c: usize)
    requires square { u.columns ≡ u.rows }
    requires by_index { (i : ℕ) → i < u.rows → place xv i c < length x.old }
    ensures { x.new ≡ solve_upper u.entry.s.now u.entry.v u.entry.rows xv c x.old u.entry.rows }
{
    for d in 0..u.rows {
        let i = u.rows - (d + 1);
        let t = solved_row(u, i, &x[..], xv, c, i + 1, d);
        matrix::put(x, xv, i, c, t);
    }
}

// Column c of x becomes the solution of L L' times it: L first, then L transposed.
pub fn solve<'a>(l: Matrix<'a>, x: &mut [f64], xv: View, c: usize)
    requires square { l.columns ≡ l.rows }
    requires by_index { (i : ℕ) → i < l.rows → place xv i c < length x.old }
    ensures { x.new ≡ solved l.entry.s.now l.entry.v l.entry.rows xv c x.old }
{
    solve_lower(l, x, xv, c);
    solve_upper(l.flip(), x, xv, c);
}

// Column c of x becomes the unit vector c.
fn unit_column(x: &mut [f64], xv: View, n: usize, c: usize)
    requires { (i : ℕ) → i < n → place xv i c < length x.old }
    ensures { x.new ≡ unit_column xv c x.old n }
{
    for i in 0..n {
        if i == c {
            matrix::put(x, xv, i, c, 1.0);
        } else {
            matrix::put(x, xv, i, c, 0.0);
        }
    }
}

// X becomes the inverse of L L': each column solves for a unit vector.
pub fn inverse<'a>(l: Matrix<'a>, x: &mut [f64], xv: View)
    requires square { l.columns ≡ l.rows }
    requires inside { Inside xv l.rows l.rows (length x.old) }
    ensures { x.new ≡ inverted l.entry.s.now l.entry.v l.entry.rows xv x.old l.entry.rows }
{
    let n = l.rows;
    for c in 0..n {
        unit_column(x, xv, n, c);
        solve(l, x, xv, c);
    }
}
