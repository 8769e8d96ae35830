// One factor is added to the matrices of an elimination: block columns times W times block columns, each where it belongs.
ghost use Rattle.std.specs.Prelude.{◌≡◌, cond, ◌-◌, ◌*◌, ◌≤◌, length};
ghost use Rattle.matrix.specs.Views.{Inside, flip, columns};
ghost use Rattle.matrix.specs.Products.{product};
ghost use Rattle.workspace.specs.Sums.{change};
ghost use Rattle.slots.specs.Views.{target, with_product, with_products, with_own, with_key, with_keys, with_rows, with_prior, with_view, view_of};
ghost use Rattle.slots.specs.Fitting.{Sits, BranchFits, Known, Wide, Fitted};
ghost use Rattle.workspace.specs.Parts.{FrameLaid, matrices_in, part_from, part_to};

use crate::Branch;
use crate::layout::{Layout, Spot};
use blocks::block_at;
use matrix::{Matrix, Update, View};
use std::cmp::Ordering;
use workspace::{Frame, Part, corner, fill_diagonal_at, gemm_at, stamp_at};

// Where the product of the block columns of k and o goes, if anywhere: in z into S for o from k on, in x into S or W for o up to k, and into G for a
// cleared k and a kept o.
#[tactic(auto, unfolding(crate::specs::Views::target_of))]
fn target_of(branch: Branch, f: Frame, k: Spot, o: Spot) -> Option<(Part, View)>
    requires { (f.cleared ≤ 32) × (f.rows ≤ 32) × (k.at ≤ 32) × (o.at ≤ 32) }
    ensures { result ≡ target branch f k o }
{
    match (branch, k.cleared, o.cleared) {
        (Branch::Z, true, true) => match o.key.cmp(&k.key) {
            Ordering::Less => None,
            Ordering::Equal => Some((Part::S, corner(f.cleared, k.at, o.at))),
            Ordering::Greater => Some((Part::S, matrix::flip(corner(f.cleared, o.at, k.at)))),
        },
        (Branch::X, true, true) => match o.key.cmp(&k.key) {
            Ordering::Less | Ordering::Equal => Some((Part::S, corner(f.cleared, k.at, o.at))),
            Ordering::Greater => None,
        },
        (Branch::X, true, false) => Some((Part::G, corner(f.cleared, k.at, o.at))),
        (Branch::X, false, false) => match o.key.cmp(&k.key) {
            Ordering::Less | Ordering::Equal => Some((Part::W, corner(f.rows, k.at, o.at))),
            Ordering::Greater => None,
        },
        _ => None,
    }
}

// T(s × y), which is B'W of k, times the block column of o is added where it goes.
fn add_product(
    work: &mut [f64],
    f: Frame,
    branch: Branch,
    t: &[f64],
    y: usize,
    k: Spot,
    o: Spot,
    b: &[f64],
)
    requires frame_laid { FrameLaid f (length work.old) }
    requires rows_value { (branch ≡ Branch.X → f.rows ≡ f.kept) × Sits f k × Sits f o }
    requires y_in_bounds { (k.size * y ≤ length t.now) × (y * o.size ≤ length b.now) }
    ensures { matrices_in f work.new
        ≡ with_product (target branch f k o) k.size t.now y b.now o.size (matrices_in f work.old) }
{
    let Some((p, v)) = target_of(branch, f, k, o) else {
        return;
    };
    let left = Matrix::new(t, k.size, y);
    let right = Matrix::new(b, y, o.size);
    gemm_at(work, f, p, v, Update::Add, left, right);
}

// The products of the block column of k with every block column of the factor.
fn add_products(
    work: &mut [f64],
    f: Frame,
    branch: Branch,
    layout: Layout,
    keys: &[usize],
    y: usize,
    a: &[f64],
    k: Spot,
    t: &[f64],
)
    requires frame_laid { FrameLaid f (length work.old) }
    requires rows_value { (branch ≡ Branch.X → f.rows ≡ f.kept) × Sits f k × (k.size * y ≤ length t.now) }
    requires known { Known f layout keys.now }
    requires wide { Wide layout.size keys.now y (length a.now) }
    ensures { matrices_in f work.new
        ≡ with_products branch f layout keys.now y a.now k t.now
        (matrices_in f work.old) (length keys.now) }
{
    let mut column = 0;
    for &key in keys {
        let o = layout.find(key);
        let b = block_at(a, y, column, o.size);
        add_product(work, f, branch, t, y, k, o, b);
        column += o.size;
    }
}

// B(y × s) transposed times C(y × w) goes into a block of one of the matrices.
#[inline(always)]
fn times_at(
    work: &mut [f64],
    f: Frame,
    which: Part,
    v: View,
    s: usize,
    w: usize,
    how: Update,
    b: &[f64],
    c: &[f64],
    y: usize,
)
    requires frame_laid { FrameLaid f (length work.old) }
    requires inside { Inside v s w (part_to f which - part_from f which) }
    requires s_in_bounds { (y * s ≤ length b.now) × (y * w ≤ length c.now) }
    ensures { matrices_in f work.new
        ≡ change which (λ x. product how v s b.now (flip (columns y)) c.now (columns y) y x w) (matrices_in f work.old) }
{
    let left = Matrix::new(b, y, s);
    let right = Matrix::new(c, y, w);
    gemm_at(work, f, which, v, how, left.flip(), right);
}

// What B, the block column of k, adds without another key. k cleared: B'xi into h and, in z, B'W into G. k kept: in z B into A, in x B'xi into xi.
fn add_own(
    work: &mut [f64],
    f: Frame,
    branch: Branch,
    row: usize,
    k: Spot,
    b: &[f64],
    xi: &[f64],
    w: &[f64],
    y: usize,
)
    requires frame_laid { FrameLaid f (length work.old) }
    requires branch_fits { BranchFits branch f row y × Sits f k }
    requires size_in_bounds { (y * k.size ≤ length b.now) × (y ≤ length xi.now) × (y * y ≤ length w.now) }
    ensures { matrices_in f work.new
        ≡ with_own branch k.cleared f row k b.now xi.now w.now y (matrices_in f work.old) }
{
    if k.cleared {
        let v = corner(f.cleared, k.at, 0);
        times_at(work, f, Part::H, v, k.size, 1, Update::Add, b, xi, y);
        match branch {
            Branch::Z => {
                let g = corner(f.cleared, k.at, row);
                times_at(work, f, Part::G, g, k.size, y, Update::Store, b, w, y);
            }
            Branch::X => {}
        }
        return;
    }
    match branch {
        Branch::Z => {
            let v = corner(f.rows, row, k.at);
            let block = Matrix::new(b, y, k.size);
            stamp_at(work, f, Part::A, v, Update::Store, block);
        }
        Branch::X => {
            let v = corner(f.rows, k.at, 0);
            times_at(work, f, Part::Xi, v, k.size, 1, Update::Add, b, xi, y);
        }
    }
}

// The block column B of one key. The slice t takes B'W.
fn add_key(
    work: &mut [f64],
    t: &mut [f64],
    f: Frame,
    branch: Branch,
    row: usize,
    layout: Layout,
    keys: &[usize],
    y: usize,
    a: &[f64],
    xi: &[f64],
    w: &[f64],
    k: Spot,
    b: &[f64],
)
    requires frame_laid { FrameLaid f (length work.old) }
    requires branch_fits { BranchFits branch f row y × Sits f k × (k.size * y ≤ length t.old) }
    requires size_in_bounds { (y * k.size ≤ length b.now) × (y ≤ length xi.now) × (y * y ≤ length w.now) }
    requires known { Known f layout keys.now }
    requires wide { Wide layout.size keys.now y (length a.now) }
    ensures { matrices_in f work.new
        ≡ with_key branch f layout row keys.now y a.now xi.now w.now k b.now
        (matrices_in f work.old) }
{
    add_own(work, f, branch, row, k, b, xi, w, y);
    let left = View {
        at: 0,
        down: 1,
        across: k.size,
    };
    let block = Matrix::new(b, y, k.size);
    let weight = Matrix::new(w, y, y);
    matrix::gemm_tr(t, left, Update::Store, block, weight);
    add_products(work, f, branch, layout, keys, y, a, k, &t[..]);
}

// The keys of a likelihood, rising: each has the block column that begins where the last one ended.
fn add_keys(
    work: &mut [f64],
    t: &mut [f64],
    f: Frame,
    branch: Branch,
    row: usize,
    layout: Layout,
    keys: &[usize],
    y: usize,
    a: &[f64],
    xi: &[f64],
    w: &[f64],
)
    requires frame_laid { FrameLaid f (length work.old) }
    requires branch_fits { BranchFits branch f row y × (6 * y ≤ length t.old) }
    requires y_in_bounds { (y ≤ length xi.now) × (y * y ≤ length w.now) }
    requires known { Known f layout keys.now }
    requires wide { Wide layout.size keys.now y (length a.now) }
    ensures { matrices_in f work.new
        ≡ with_keys branch f layout row keys.now y a.now xi.now w.now (matrices_in f work.old)
        (length keys.now) }
{
    let mut column = 0;
    for &key in keys {
        let k = layout.find(key);
        let b = block_at(a, y, column, k.size);
        add_key(work, t, f, branch, row, layout, keys, y, a, xi, w, k, b);
        column += k.size;
    }
}

// In z, xi and W are copied into the rows of their slot.
fn copy_rows(
    work: &mut [f64],
    f: Frame,
    branch: Branch,
    row: usize,
    y: usize,
    xi: &[f64],
    w: &[f64],
)
    requires frame_laid { FrameLaid f (length work.old) }
    requires branch_fits { BranchFits branch f row y × (y ≤ length xi.now) × (y * y ≤ length w.now) }
    ensures { matrices_in f work.new ≡ with_rows branch f row y xi.now w.now (matrices_in f work.old) }
{
    match branch {
        Branch::Z => {
            let u = corner(f.rows, row, 0);
            stamp_at(work, f, Part::Xi, u, Update::Store, Matrix::new(xi, y, 1));
            let v = corner(f.rows, row, row);
            stamp_at(work, f, Part::W, v, Update::Store, Matrix::new(w, y, y));
        }
        Branch::X => {}
    }
}

// A prior: added to the cleared block; or, on a kept key, added in x, and in z copied into rows of its own.
fn add_prior(work: &mut [f64], f: Frame, branch: Branch, row: usize, k: Spot, xi: &[f64], w: &[f64])
    requires frame_laid { FrameLaid f (length work.old) }
    requires branch_fits { BranchFits branch f row (cond k.cleared 0 k.size) × Sits f k }
    requires size_in_bounds { (k.size ≤ length xi.now) × (k.size * k.size ≤ length w.now) }
    ensures { matrices_in f work.new
        ≡ with_prior branch k.cleared f row k xi.now w.now (matrices_in f work.old) }
{
    let vector = Matrix::new(xi, k.size, 1);
    let weight = Matrix::new(w, k.size, k.size);
    if k.cleared {
        let u = corner(f.cleared, k.at, 0);
        stamp_at(work, f, Part::H, u, Update::Add, vector);
        let v = corner(f.cleared, k.at, k.at);
        stamp_at(work, f, Part::S, v, Update::Add, weight);
        return;
    }
    match branch {
        Branch::Z => {
            copy_rows(work, f, branch, row, k.size, xi, w);
            let v = corner(f.rows, row, k.at);
            fill_diagonal_at(work, f, v, k.size);
        }
        Branch::X => {
            let u = corner(f.rows, k.at, 0);
            stamp_at(work, f, Part::Xi, u, Update::Add, vector);
            let v = corner(f.rows, k.at, k.at);
            stamp_at(work, f, Part::W, v, Update::Add, weight);
        }
    }
}

// A factor from its numbers: xi and W of a prior, or A, xi and W of a likelihood of width d.
pub fn add_view(
    work: &mut [f64],
    t: &mut [f64],
    f: Frame,
    branch: Branch,
    row: usize,
    layout: Layout,
    prior: bool,
    keys: &[usize],
    y: usize,
    d: usize,
    nums: &[f64],
)
    requires frame_laid { FrameLaid f (length work.old) }
    requires fitted { Fitted f layout branch row prior keys.now y d (length t.old) (length nums.now) }
    ensures { matrices_in f work.new
        ≡ with_view branch f layout row (view_of prior keys.now y d nums.now) (matrices_in f work.old) }
{
    let p = y * d;
    let q = p + y;
    let e = q + y * y;
    if prior {
        let k = layout.find(keys[0]);
        add_prior(work, f, branch, row, k, &nums[p..q], &nums[q..e]);
        return;
    }
    copy_rows(work, f, branch, row, y, &nums[p..q], &nums[q..e]);
    let o = 0;
    add_keys(
        work,
        t,
        f,
        branch,
        row,
        layout,
        keys,
        y,
        &nums[o..p],
        &nums[p..q],
        &nums[q..e],
    );
}
