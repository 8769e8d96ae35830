// The work store of an elimination: one lent slice holds its six matrices one after the other, and each function changes one of them.
#![tactic(auto)]

ghost use Rattle.std.specs.Prelude.{◌≡◌, ℕ, ◌+◌, ◌-◌, ◌*◌, ◌<◌, ◌≤◌, length};
ghost use Rattle.matrix.specs.Views.{place, Inside, flip, columns};
ghost use Rattle.matrix.specs.Stores.{block_column};
ghost use Rattle.matrix.specs.Sums.{one};
ghost use Rattle.matrix.specs.Products.{product};
ghost use Rattle.matrix.specs.Triangles.{filled_diagonal, filled_upper};
ghost use Rattle.cholesky.specs.Factor.{factor};
ghost use Rattle.workspace.specs.Blocks.{corner, stamp_entry, stamp, solved_columns, solved_in};
ghost use Rattle.workspace.specs.Sums.{pick, change};
ghost use Rattle.workspace.specs.Frames.{frame_of};
ghost use Rattle.cholesky.specs.Answers.{factored_as, list_of};
ghost use Rattle.workspace.specs.Parts.{FrameLaid, matrices_in, part_from, part_to};

use cholesky::Fault;
use matrix::{Matrix, Update, View};

// How many numbers a work store has at least: enough for every frame within the limits.
pub const WORK: usize = 2304;

// The matrices of an elimination, in the order in which they stand in the work store: the cleared block, the cleared xi, B'W or B'WA, and the message's A, xi
// and W.
#[derive(Clone, Copy)]
pub enum Part {
    S,
    H,
    G,
    A,
    Xi,
    W,
}

// How large the matrices are, by the cleared dimension, the message's rows and the kept dimension; and where each one after S begins.
#[derive(Clone, Copy)]
pub struct Frame {
    pub cleared: usize,
    pub rows: usize,
    pub kept: usize,
    pub h: usize,
    pub g: usize,
    pub a: usize,
    pub xi: usize,
    pub w: usize,
    pub end: usize,
}

// The frame of so many cleared columns, rows and kept columns.
pub fn frame_of(cleared: usize, rows: usize, kept: usize) -> Frame
    requires { (cleared ≤ 32) × (rows ≤ 32) × (kept ≤ 32) }
    ensures { result ≡ frame_of cleared rows kept }
{
    let h = cleared * cleared;
    let g = h + cleared;
    let a = g + cleared * rows;
    let xi = a + rows * kept;
    let w = xi + rows;
    Frame {
        cleared,
        rows,
        kept,
        h,
        g,
        a,
        xi,
        w,
        end: w + rows * rows,
    }
}

// Where a matrix begins.
pub fn begin(f: Frame, which: Part) -> usize
    ensures { result ≡ part_from f which }
{
    match which {
        Part::S => 0,
        Part::H => f.h,
        Part::G => f.g,
        Part::A => f.a,
        Part::Xi => f.xi,
        Part::W => f.w,
    }
}

// Where it ends.
pub fn end(f: Frame, which: Part) -> usize
    ensures { result ≡ part_to f which }
{
    match which {
        Part::S => f.h,
        Part::H => f.g,
        Part::G => f.a,
        Part::A => f.xi,
        Part::Xi => f.w,
        Part::W => f.end,
    }
}

// The block of an n-row matrix that begins at entry (i, j).
pub fn corner(n: usize, i: usize, j: usize) -> View
    requires { (n ≤ 32) × (i ≤ 32) × (j ≤ 32) }
    ensures { result ≡ corner n i j }
{
    View {
        at: i + j * n,
        down: 1,
        across: n,
    }
}

// Column j of a block of c: the entries of A are added or stored.
fn stamp_column<'a>(c: &mut [f64], cv: View, j: usize, how: Update, a: Matrix<'a>)
    requires shape { j < a.columns }
    requires by_index { (i : ℕ) → i < a.rows → place cv i j < length c.old }
    ensures { c.new ≡ block_column cv (stamp_entry how a.entry.s.now a.entry.v) j c.old a.entry.rows }
{
    for i in 0..a.rows {
        let x = matrix::get(a.s, a.v, i, j);
        let old = matrix::get(&c[..], cv, i, j);
        matrix::put(c, cv, i, j, matrix::updated(how, old, x));
    }
}

// A is added to a block of c, or stored there.
fn stamp<'a>(c: &mut [f64], cv: View, how: Update, a: Matrix<'a>)
    requires { Inside cv a.rows a.columns (length c.old) }
    ensures { c.new ≡ stamp how cv a.entry.rows a.entry.s.now a.entry.v c.old a.entry.columns }
{
    for j in 0..a.columns {
        stamp_column(c, cv, j, how, a);
    }
}

// m columns of X, each of u rows, solved with the lower triangle L(u × u).
fn solve_columns(l: &[f64], u: usize, x: &mut [f64], m: usize)
    requires l_fits { u * u ≤ length l.now }
    requires x_fits { u * m ≤ length x.old }
    ensures { x.new ≡ solved_columns l.now u x.old m }
{
    let v = View {
        at: 0,
        down: 1,
        across: u,
    };
    let triangle = Matrix {
        s: l,
        v,
        rows: u,
        columns: u,
    };
    for j in 0..m {
        cholesky::solve_lower(triangle, x, v, j);
    }
}

// A product goes into a block of one of the matrices.
#[inline(always)]
pub fn gemm_at<'a>(
    work: &mut [f64],
    f: Frame,
    which: Part,
    cv: View,
    how: Update,
    a: Matrix<'a>,
    b: Matrix<'a>,
)
    requires frame_laid { FrameLaid f (length work.old) }
    requires shape { a.columns ≡ b.rows }
    requires inside { Inside cv a.rows b.columns (part_to f which - part_from f which) }
    ensures { matrices_in f work.new
        ≡ change which (λ c. product how cv a.entry.rows a.entry.s.now a.entry.v b.entry.s.now b.entry.v a.entry.columns c b.entry.columns)
        (matrices_in f work.old) }
{
    let p = begin(f, which);
    let q = end(f, which);
    matrix::gemm(&mut work[p..q], cv, how, a, b);
}

// Numbers are added to a block of one of the matrices, or stored there.
pub fn stamp_at<'a>(work: &mut [f64], f: Frame, which: Part, cv: View, how: Update, a: Matrix<'a>)
    requires frame_laid { FrameLaid f (length work.old) }
    requires inside { Inside cv a.rows a.columns (part_to f which - part_from f which) }
    ensures { matrices_in f work.new
        ≡ change which (λ c. stamp how cv a.entry.rows a.entry.s.now a.entry.v c a.entry.columns) (matrices_in f work.old) }
{
    let p = begin(f, which);
    let q = end(f, which);
    stamp(&mut work[p..q], cv, how, a);
}

// Ones go on the diagonal of a block of A.
pub fn fill_diagonal_at(work: &mut [f64], f: Frame, v: View, n: usize)
    requires frame_laid { FrameLaid f (length work.old) }
    requires inside { Inside v n n (f.xi - f.a) }
    ensures { matrices_in f work.new ≡ change Part.A (λ c. filled_diagonal v one c n) (matrices_in f work.old) }
{
    let p = f.a;
    let q = f.xi;
    matrix::fill_diagonal(&mut work[p..q], v, n, 1.0);
}

// The upper triangle of W is filled from the lower.
pub fn fill_upper_at(work: &mut [f64], f: Frame)
    requires { FrameLaid f (length work.old) }
    ensures { matrices_in f work.new ≡ change Part.W (λ c. filled_upper (columns f.rows) c f.rows) (matrices_in f work.old) }
{
    let p = f.w;
    let q = f.end;
    let v = View {
        at: 0,
        down: 1,
        across: f.rows,
    };
    matrix::fill_upper_triangle_with_lower_triangle(&mut work[p..q], v, f.rows);
}

// S becomes its Cholesky factor L.
pub fn cholesky_at(work: &mut [f64], f: Frame) -> Result<(), Fault>
    requires { FrameLaid f (length work.old) }
    ensures value { result ≡ factored_as (factor (columns f.cleared) f.cleared (matrices_in f work.old).s f.cleared) }
    ensures work_after { matrices_in f work.new
        ≡ change Part.S (λ c. list_of (factor (columns f.cleared) f.cleared c f.cleared)) (matrices_in f work.old) }
{
    let p = 0;
    let q = f.h;
    let v = View {
        at: 0,
        down: 1,
        across: f.cleared,
    };
    cholesky::cholesky(&mut work[p..q], v, f.cleared)
}

// m columns of h or G are solved with the L that stands in S.
pub fn solve_at(work: &mut [f64], f: Frame, which: Part, m: usize)
    requires frame_laid { FrameLaid f (length work.old) }
    requires h_bound { (f.h ≤ part_from f which) × (f.cleared * m ≤ part_to f which - part_from f which) }
    ensures matrices_after { matrices_in f work.new
        ≡ change which (λ c. solved_columns (matrices_in f work.old).s f.cleared c m) (matrices_in f work.old) }
    ensures in_one_list { work.new
        ≡ solved_in (columns f.cleared) f.cleared (record { at = part_from f which; down = 1; across = f.cleared }) work.old m }
{
    let (s, rest) = work.split_at_mut(f.h);
    let p = begin(f, which) - f.h;
    let q = end(f, which) - f.h;
    solve_columns(&s[..], f.cleared, &mut rest[p..q], m);
}

// w columns of xi or W lose G transposed times h or G.
pub fn subtract_at(work: &mut [f64], f: Frame, which: Part, right: Part, w: usize)
    requires frame_laid { FrameLaid f (length work.old) }
    requires a_bound { (f.a ≤ part_from f which) × (f.rows * w ≤ part_to f which - part_from f which) }
    requires right_bound { (part_to f right ≤ f.a) × (f.cleared * w ≤ part_to f right - part_from f right) }
    ensures { matrices_in f work.new
        ≡ change which
        (λ c. product Update.Subtract (columns f.rows) f.rows (matrices_in f work.old).g (flip (columns f.cleared))
        (pick right (matrices_in f work.old)) (columns f.cleared) f.cleared c w)
        (matrices_in f work.old) }
{
    let (low, high) = work.split_at_mut(f.a);
    let p = begin(f, which) - f.a;
    let q = end(f, which) - f.a;
    let c = View {
        at: 0,
        down: 1,
        across: f.rows,
    };
    let v = View {
        at: 0,
        down: 1,
        across: f.cleared,
    };
    let g = Matrix {
        s: &low[f.g..f.a],
        v,
        rows: f.cleared,
        columns: f.rows,
    };
    let b = Matrix {
        s: &low[begin(f, right)..end(f, right)],
        v,
        rows: f.cleared,
        columns: w,
    };
    matrix::gemm_tr(&mut high[p..q], c, Update::Subtract, g, b);
}
