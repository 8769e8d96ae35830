// Dense matrices of f64 in lent slices, column by column: every operation is rounded once, in the order that specs/ lays down.
// Two loops do all multiplying: `dot` adds the terms of a product sum up, and `deduct` takes them off a number one at a time.
#![tactic(auto)]

ghost use Rattle.std.specs.Prelude.{◌≡◌, ℕ, ◌+◌, ◌*◌, ◌<◌, ◌≤◌, ◌^◌, length, set};
ghost use Rattle.matrix.specs.Views.{place, entry, Inside, flip, columns};
ghost use Rattle.matrix.specs.Sums.{dot_of, deduct_of};
ghost use Rattle.matrix.specs.Stores.{block_column, Continued};
ghost use Rattle.matrix.specs.Products.{updated, product_entry, product, quadform_of};
ghost use Rattle.matrix.specs.Triangles.{filled_diagonal, filled_column, filled_upper};
ghost use Rattle.matrix.specs.Finite.{all_finite};

// Where a matrix lies in a slice: entry (i, j) stands at + i * down + j * across. Blocks, columns and transposes are views too.
#[derive(Clone, Copy)]
pub struct View {
    pub at: usize,
    pub down: usize,
    pub across: usize,
}

impl View {
    // A matrix of n rows from the start of its slice, column by column.
    pub fn columns(n: usize) -> View
        ensures { result ≡ columns n }
    {
        View {
            at: 0,
            down: 1,
            across: n,
        }
    }
}

// Entry (i, j).
pub fn get(s: &[f64], v: View, i: usize, j: usize) -> f64
    requires { place v i j < length s.now }
    ensures { result ≡ entry s.now v i j }
{
    let p = v.at + i * v.down + j * v.across;
    s[p]
}

// Entry (i, j) becomes x.
pub fn put(s: &mut [f64], v: View, i: usize, j: usize, x: f64)
    requires { place v i j < length s.old }
    ensures { s.new ≡ set s.old (place v i j) x }
{
    let p = v.at + i * v.down + j * v.across;
    s[p] = x;
}

// The view of the transposed matrix.
pub fn flip(v: View) -> View
    ensures { result ≡ flip v }
{
    View {
        at: v.at,
        down: v.across,
        across: v.down,
    }
}

// The product sum of row i of A and column j of B: from +0.0, n terms at rising index.
#[inline(always)]
pub fn dot(a: &[f64], av: View, i: usize, b: &[f64], bv: View, j: usize, n: usize) -> f64
    requires by_index { (k : ℕ) → k < n → place av i k < length a.now }
    requires by_index_2 { (k : ℕ) → k < n → place bv k j < length b.now }
    ensures { result ≡ dot_of a.now av i b.now bv j n }
{
    let mut sum = 0.0;
    for k in 0..n {
        sum = sum + get(a, av, i, k) * get(b, bv, k, j);
    }
    sum
}

// v less the terms of row i of A and column j of B, one at a time at rising index: n of them, from term lo on.
pub fn deduct(
    v: f64,
    a: &[f64],
    av: View,
    i: usize,
    b: &[f64],
    bv: View,
    j: usize,
    lo: usize,
    n: usize,
) -> f64
    requires n_bound { lo + n < 2 ^ 64 }
    requires by_index { (k : ℕ) → k < n → place av i (lo + k) < length a.now }
    requires by_index_2 { (k : ℕ) → k < n → place bv (lo + k) j < length b.now }
    ensures { result ≡ deduct_of v a.now av i b.now bv j lo n }
{
    let mut left = v;
    for k in 0..n {
        left = left - get(a, av, i, lo + k) * get(b, bv, lo + k, j);
    }
    left
}

// What becomes of an entry when its product sum is finished.
#[derive(Clone, Copy)]
pub enum Update {
    Add,
    Subtract,
    Store,
}

// What the entry `old` becomes: with the finished sum x added, with it subtracted, or x itself.
pub fn updated(how: Update, old: f64, x: f64) -> f64
    ensures { result ≡ updated how old x }
{
    match how {
        Update::Add => old + x,
        Update::Subtract => old - x,
        Update::Store => x,
    }
}

// A matrix in a lent slice: where its entries stand, and how many rows and columns it has. Every entry is in the slice.
#[derive(Clone, Copy)]
pub struct Matrix<'a> {
    pub s: &'a [f64],
    pub v: View,
    pub rows: usize,
    pub columns: usize,
    pub ghost inside: { Inside v rows columns (length s.now) },
}

impl<'a> Matrix<'a> {
    // The matrix of m rows and n columns at the start of a slice, column by column.
    pub fn new(s: &'a [f64], m: usize, n: usize) -> Matrix<'a>
        requires { m * n ≤ length s.now }
        ensures { (result.s.now ≡ s.now) × (result.v ≡ columns m) × (result.rows ≡ m) × (result.columns ≡ n) }
    {
        Matrix {
            s,
            v: View::columns(m),
            rows: m,
            columns: n,
        }
    }

    // The matrix transposed.
    pub fn flip(self) -> Matrix<'a>
        ensures { (result.s.now ≡ self.entry.s.now) × (result.v ≡ flip self.entry.v) × (result.rows ≡ self.entry.columns)
            × (result.columns ≡ self.entry.rows) }
    {
        Matrix {
            s: self.s,
            v: flip(self.v),
            rows: self.columns,
            columns: self.rows,
        }
    }

    // Entry (i, j).
    fn get(self, i: usize, j: usize) -> f64
        requires { (i < self.rows) × (j < self.columns) }
        ensures { result ≡ entry self.entry.s.now self.entry.v i j }
    {
        get(self.s, self.v, i, j)
    }
}

// Four product sums side by side.
#[derive(Drop)]
pub struct Four {
    pub s0: f64,
    pub s1: f64,
    pub s2: f64,
    pub s3: f64,
}

// The product sums of rows i to i + 3 of A with column j of B. None waits for another, so a processor makes them at once.
#[inline(always)]
fn dots<'a>(a: Matrix<'a>, i: usize, b: Matrix<'a>, j: usize) -> Four
    requires { (i + 3 < a.rows) × (j < b.columns) × (a.columns ≡ b.rows) }
    ensures { (result.s0 ≡ dot_of a.entry.s.now a.entry.v i b.entry.s.now b.entry.v j a.entry.columns)
        × (result.s1 ≡ dot_of a.entry.s.now a.entry.v (i + 1) b.entry.s.now b.entry.v j a.entry.columns)
        × (result.s2 ≡ dot_of a.entry.s.now a.entry.v (i + 2) b.entry.s.now b.entry.v j a.entry.columns)
        × (result.s3 ≡ dot_of a.entry.s.now a.entry.v (i + 3) b.entry.s.now b.entry.v j a.entry.columns) }
{
    let mut s0 = 0.0;
    let mut s1 = 0.0;
    let mut s2 = 0.0;
    let mut s3 = 0.0;
    for k in 0..a.columns {
        let x = b.get(k, j);
        s0 = s0 + a.get(i, k) * x;
        s1 = s1 + a.get(i + 1, k) * x;
        s2 = s2 + a.get(i + 2, k) * x;
        s3 = s3 + a.get(i + 3, k) * x;
    }
    Four { s0, s1, s2, s3 }
}

// A finished product sum meets entry (i, j) of C.
#[inline(always)]
fn meet(c: &mut [f64], cv: View, i: usize, j: usize, how: Update, x: f64)
    requires { place cv i j < length c.old }
    ensures { c.new ≡ set c.old (place cv i j) (updated how (entry c.old cv i j) x) }
{
    let old = get(&c[..], cv, i, j);
    put(c, cv, i, j, updated(how, old, x));
}

// Rows i to i + 3 of column j of C: A times B.
#[inline(always)]
fn gemm_four<'a>(
    c: &mut [f64],
    cv: View,
    i: usize,
    j: usize,
    how: Update,
    a: Matrix<'a>,
    b: Matrix<'a>,
)
    requires shape { (i + 3 < a.rows) × (j < b.columns) × (a.columns ≡ b.rows) }
    requires by_index { (r : ℕ) → r < a.rows → place cv r j < length c.old }
    ensures { Continued cv (product_entry how a.entry.s.now a.entry.v b.entry.s.now b.entry.v a.entry.columns) j c.old i c.new (i + 4) }
{
    let s = dots(a, i, b, j);
    meet(c, cv, i, j, how, s.s0);
    meet(c, cv, i + 1, j, how, s.s1);
    meet(c, cv, i + 2, j, how, s.s2);
    meet(c, cv, i + 3, j, how, s.s3);
}

// Rows of column j of C from one row on: A times B.
#[inline(always)]
fn gemm_rows<'a>(
    c: &mut [f64],
    cv: View,
    from: usize,
    j: usize,
    how: Update,
    a: Matrix<'a>,
    b: Matrix<'a>,
)
    requires shape { (from ≤ a.rows) × (j < b.columns) × (a.columns ≡ b.rows) }
    requires by_index { (i : ℕ) → i < a.rows → place cv i j < length c.old }
    ensures { Continued cv (product_entry how a.entry.s.now a.entry.v b.entry.s.now b.entry.v a.entry.columns) j c.old from c.new a.entry.rows }
{
    for i in from..a.rows {
        let x = dot(a.s, a.v, i, b.s, b.v, j, a.columns);
        meet(c, cv, i, j, how, x);
    }
}

// Column j of C: A times B. Four rows at a time as long as there are four.
#[inline(always)]
fn gemm_column<'a>(c: &mut [f64], cv: View, j: usize, how: Update, a: Matrix<'a>, b: Matrix<'a>)
    requires shape { (j < b.columns) × (a.columns ≡ b.rows) }
    requires by_index { (i : ℕ) → i < a.rows → place cv i j < length c.old }
    ensures { c.new ≡ block_column cv (product_entry how a.entry.s.now a.entry.v b.entry.s.now b.entry.v a.entry.columns) j c.old a.entry.rows }
{
    let fours = a.rows / 4;
    for q in 0..fours {
        gemm_four(c, cv, q * 4, j, how, a, b);
    }
    gemm_rows(c, cv, fours * 4, j, how, a, b);
}

// A times B is added to C, subtracted from it or stored there.
#[inline(always)]
pub fn gemm<'a>(c: &mut [f64], cv: View, how: Update, a: Matrix<'a>, b: Matrix<'a>)
    requires shape { a.columns ≡ b.rows }
    requires inside { Inside cv a.rows b.columns (length c.old) }
    ensures { c.new ≡ product how cv a.entry.rows a.entry.s.now a.entry.v b.entry.s.now b.entry.v a.entry.columns c.old b.entry.columns }
{
    for j in 0..b.columns {
        gemm_column(c, cv, j, how, a, b);
    }
}

// `gemm` with A transposed.
#[inline(always)]
pub fn gemm_tr<'a>(c: &mut [f64], cv: View, how: Update, a: Matrix<'a>, b: Matrix<'a>)
    requires shape { a.rows ≡ b.rows }
    requires inside { Inside cv a.columns b.columns (length c.old) }
    ensures { c.new ≡ product how cv a.entry.columns a.entry.s.now (flip a.entry.v) b.entry.s.now b.entry.v a.entry.rows c.old b.entry.columns }
{
    gemm(c, cv, how, a.flip(), b);
}

// `gemm_tr` with a vector, a matrix of one column.
pub fn gemv_tr<'a>(c: &mut [f64], cv: View, how: Update, a: Matrix<'a>, b: Matrix<'a>)
    requires shape { (a.rows ≡ b.rows) × (b.columns ≡ 1) }
    requires inside { Inside cv a.columns 1 (length c.old) }
    ensures { c.new ≡ product how cv a.entry.columns a.entry.s.now (flip a.entry.v) b.entry.s.now b.entry.v a.entry.rows c.old 1 }
{
    gemm_tr(c, cv, how, a, b);
}

// A transposed times a square W times A, added to C. The work slice takes W times A.
pub fn quadform<'a>(c: &mut [f64], cv: View, w: Matrix<'a>, a: Matrix<'a>, work: &mut [f64])
    requires shape { (w.rows ≡ a.rows) × (w.columns ≡ a.rows) }
    requires inside { Inside cv a.columns a.columns (length c.old) }
    requires in_bounds { a.rows * a.columns ≤ length work.old }
    ensures { c.new ≡ quadform_of cv a.entry.columns w.entry.s.now w.entry.v a.entry.s.now a.entry.v a.entry.rows c.old }
{
    let y = a.rows;
    let d = a.columns;
    gemm(work, View::columns(y), Update::Store, w, a);
    gemm_tr(c, cv, Update::Add, a, Matrix::new(&work[..], y, d));
}

// The diagonal of C(n × n) becomes x.
pub fn fill_diagonal(c: &mut [f64], v: View, n: usize, x: f64)
    requires { (i : ℕ) → i < n → place v i i < length c.old }
    ensures { c.new ≡ filled_diagonal v x c.old n }
{
    for d in 0..n {
        put(c, v, d, d, x);
    }
}

// Column j of C above the diagonal becomes row j left of it.
fn fill_upper_column(c: &mut [f64], v: View, j: usize)
    requires by_index { (i : ℕ) → i < j → place v i j < length c.old }
    requires by_index_2 { (i : ℕ) → i < j → place v j i < length c.old }
    ensures { c.new ≡ filled_column v j c.old j }
{
    for i in 0..j {
        let x = get(&c[..], v, j, i);
        put(c, v, i, j, x);
    }
}

// The upper triangle of C(n × n) becomes the lower one, mirrored.
pub fn fill_upper_triangle_with_lower_triangle(c: &mut [f64], v: View, n: usize)
    requires { Inside v n n (length c.old) }
    ensures { c.new ≡ filled_upper v c.old n }
{
    for j in 0..n {
        fill_upper_column(c, v, j);
    }
}

// All numbers of a part are finite.
pub fn finite(s: &[f64]) -> bool
    ensures { result ≡ all_finite s.now }
{
    s.iter().all(|x| x.is_finite())
}
