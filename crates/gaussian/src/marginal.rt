// The marginal of a key, from the message over that key alone.
ghost use Rattle.std.specs.Prelude.{◌≡◌, [], ◌∷◌, ◌+◌, ◌*◌, ◌≤◌, length, get_or, replicate};
ghost use Rattle.matrix.specs.Sums.{plus_zero};
ghost use Rattle.factor.specs.Limits.{max_size, max_total};
ghost use Rattle.gaussian.specs.Elimination.{eliminate};
ghost use Rattle.gaussian.specs.Answers.{views_of, marginal_from, marginal_of, moments_in};
ghost use Rattle.gaussian.specs.Asked.{Asked};
ghost use Rattle.gaussian.specs.Marginals.{moments_of};
ghost use Rattle.gaussian.specs.Told.{solved_told, marginal_told, moments_told, last_told};
ghost use Rattle.slots.specs.Views.{factor_numbers};
ghost use Rattle.cholesky.specs.Answers.{told};

use crate::{Elimination, eliminate_in};
use cholesky::Fault;
use cholesky::exchange::exchange;
use factor::limits::{SIZE, VARIABLES};
use matrix::{Matrix, Update, View};
use slots::Sources;
use slots::layout::dim_of;
use slots::limits::SCRATCH;
use workspace::frame_of;

// The numbers of a matrix of as many rows and columns as the largest variable has.
const SQUARE: usize = SIZE * SIZE;

// A key with its size s, its mean, which has s numbers, and its covariance, which has s times s numbers, column by column. The places after those hold zeros.
#[derive(Drop)]
pub struct Marginal {
    pub key: usize,
    pub size: usize,
    pub mean: [f64; SIZE],
    pub covariance: [f64; SQUARE],
}

// Why a key has no marginal: a refused pivot of the cleared block or of the message's own W, or a number that is not finite.
#[derive(Clone, Copy, Debug, PartialEq, Eq)]
pub enum MarginalFault {
    ClearedPivot,
    Pivot,
    NotFinite,
}

// The mean and the covariance of a message of y rows over s columns. The slices lent hold zeros; t takes W times A.
fn moments(
    a: &[f64],
    xi: &[f64],
    w: &[f64],
    y: usize,
    s: usize,
    mean: &mut [f64],
    l: &mut [f64],
    covariance: &mut [f64],
    t: &mut [f64],
) -> Result<(), Fault>
    requires s_in_bounds { (y * s ≤ length a.now) × (y ≤ length xi.now) × (y * y ≤ length w.now) × (y * s ≤ length t.old) × (s ≤ max_size) }
    requires mean_value { (mean.old ≡ replicate s plus_zero) × (l.old ≡ replicate (s * s) plus_zero) × (covariance.old ≡ replicate (s * s) plus_zero) }
    ensures w_value { moments_of y s a.now xi.now w.now ≡ told result mean.new covariance.new }
    ensures result_value { solved_told result ≡ moments_told (moments_of y s a.now xi.now w.now) }
{
    let square = View {
        at: 0,
        down: 1,
        across: s,
    };
    let tall = Matrix::new(a, y, s);
    let vector = Matrix::new(xi, y, 1);
    let weight = Matrix::new(w, y, y);
    matrix::gemv_tr(mean, square, Update::Add, tall, vector);
    matrix::quadform(l, square, weight, tall, t);
    exchange(l, s, mean, covariance)
}

impl Marginal {
    // The marginal of a key of size s from the message of so many rows that keeps it alone: A, xi and W stand at the start of the part lent.
    pub fn from(
        key: usize,
        size: usize,
        rows: usize,
        message: &[f64],
    ) -> Result<Marginal, MarginalFault>
        requires { (size ≤ max_size) × (rows ≤ max_total) × (factor_numbers rows size ≤ length message.now) }
        ensures value { result ≡ marginal_of key size rows message.now }
        ensures told_value { marginal_told result ≡ moments_told (moments_in rows size message.now) }
    {
        let p = rows * size;
        let q = p + rows;
        let e = q + rows * rows;
        let square = size * size;
        let mut mean = [0.0; SIZE];
        let mut covariance = [0.0; SQUARE];
        let mut l = [0.0; SQUARE];
        let mut t = [0.0; SCRATCH];
        match moments(
            &message[..p],
            &message[p..q],
            &message[q..e],
            rows,
            size,
            &mut mean[..size],
            &mut l[..square],
            &mut covariance[..square],
            &mut t,
        ) {
            Ok(()) => Ok(Marginal {
                key,
                size,
                mean,
                covariance,
            }),
            Err(Fault::Pivot) => Err(MarginalFault::Pivot),
            Err(Fault::NotFinite) => Err(MarginalFault::NotFinite),
        }
    }
}

// The marginal of a key. The last elimination keeps that key alone, and its message stays in the work store.
pub fn marginalize<'a>(
    s: Sources<'a>,
    work: &mut [f64],
    key: usize,
    cleared: &'a [usize],
    sizes: [u8; VARIABLES],
    slots: &'a [usize],
) -> Result<Marginal, MarginalFault>
    requires asked { Asked (key ∷ []) cleared.now sizes s.factors.now s.messages.now (length work.old) s.tables.keys.now s.tables.heads.now slots.now }
    requires key_bound { get_or sizes key 0 ≤ max_size }
    ensures value { result
        ≡ marginal_from key (get_or sizes key 0)
        (eliminate (views_of s.entry.factors.now s.entry.messages.now s.entry.tables.keys.now s.entry.tables.heads.now slots.now)
        (key ∷ []) cleared.now sizes) }
    ensures told_value { marginal_told result
        ≡ last_told (get_or sizes key 0)
        (eliminate (views_of s.entry.factors.now s.entry.messages.now s.entry.tables.keys.now s.entry.tables.heads.now slots.now)
        (key ∷ []) cleared.now sizes) }
{
    let kept = [key];
    let size = dim_of(&kept, sizes);
    let a = Elimination {
        kept: &kept,
        cleared,
        sizes,
        slots,
    };
    match eliminate_in(s, work, a) {
        Ok(rows) => {
            let f = frame_of(dim_of(cleared, sizes), rows, size);
            Marginal::from(key, size, rows, &work[f.a..f.end])
        }
        Err(Fault::Pivot) => Err(MarginalFault::ClearedPivot),
        Err(Fault::NotFinite) => Err(MarginalFault::NotFinite),
    }
}
