// One elimination: the cleared keys go out of the factors of its slots, and a message over the kept keys stays.
#![tactic(auto)]

pub mod marginal;

ghost use Rattle.std.specs.Prelude.{◌≡◌, ℕ, ◌+◌, ◌-◌, ◌<◌, ◌≤◌, length, get_or};
ghost use Rattle.matrix.specs.Views.{part, splice};
ghost use Rattle.workspace.specs.Sums.{change};
ghost use Rattle.workspace.specs.Frames.{frame_of, work_numbers};
ghost use Rattle.factor.specs.Limits.{max_total};
ghost use Rattle.slots.specs.Limits.{scratch_numbers};
ghost use Rattle.slots.specs.Layouts.{dim_of};
ghost use Rattle.slots.specs.Views.{rows_of_all, with_views, factor_numbers};
ghost use Rattle.slots.specs.Tables.{head_of, view_at};
ghost use Rattle.slots.specs.Fitting.{SlotReady, Counted};
ghost use Rattle.gaussian.specs.Elimination.{branch_of, message_rows, begun, filled_w, lost, factorised, in_branch, eliminate, numbers_in};
ghost use Rattle.gaussian.specs.Answers.{ended_as, finished_as, eliminated_as, message_stored, left_in, views_of, branched_at};
ghost use Rattle.gaussian.specs.Asked.{Asked, Roomy, SlotsAsked};
ghost use Rattle.gaussian.specs.Told.{eliminated_told, message_told};
ghost use Rattle.workspace.specs.Parts.{FrameLaid, matrices_in};

use cholesky::Fault;
use factor::limits::VARIABLES;
use matrix::View;
use slots::layout::{Layout, dim_of, layout_of};
use slots::limits::SCRATCH;
use slots::{Branch, Sources, Tables, add_slots, count_rows};
use workspace::{
    Frame, Part, cholesky_at, fill_diagonal_at, fill_upper_at, frame_of, solve_at, subtract_at,
};

// What is asked of an elimination: the kept and the cleared keys, the size of each key, and the slots, in order.
#[derive(Clone, Copy)]
pub struct Elimination<'a> {
    pub kept: &'a [usize],
    pub cleared: &'a [usize],
    pub sizes: [u8; VARIABLES],
    pub slots: &'a [usize],
}

// The branch of y rows over d kept columns: z where y is at most d, and x otherwise.
fn branch_of(y: usize, d: usize) -> Branch
    ensures { result ≡ branch_of y d }
{
    if y <= d { Branch::Z } else { Branch::X }
}

// How many rows its message has: in z all y, and in x as many as kept columns.
pub fn message_rows(y: usize, d: usize) -> usize
    ensures { result ≡ message_rows y d }
{
    match branch_of(y, d) {
        Branch::Z => y,
        Branch::X => d,
    }
}

// All sums are zero; in x A is the identity. What the frame doesn't reach stays as it is.
fn begin_sums(work: &mut [f64], f: Frame, branch: Branch)
    requires { FrameLaid f (length work.old) × (branch ≡ Branch.X → f.rows ≡ f.kept) }
    ensures { matrices_in f work.new ≡ begun branch f }
{
    work[..f.end].fill(0.0);
    match branch {
        Branch::Z => {}
        Branch::X => {
            let v = View {
                at: 0,
                down: 1,
                across: f.rows,
            };
            fill_diagonal_at(work, f, v, f.rows);
        }
    }
}

// The sums over all slots.
fn sum_up<'a>(
    work: &mut [f64],
    f: Frame,
    branch: Branch,
    layout: Layout,
    s: Sources<'a>,
    slots: &[usize],
)
    requires frame_laid { FrameLaid f (length work.old) × (branch ≡ Branch.X → f.rows ≡ f.kept) }
    requires counted { Counted s.tables.keys.now s.tables.heads.now slots.now }
    requires by_index { (i : ℕ) → i < length slots.now
        → SlotReady f layout branch (rows_of_all layout (view_at s.factors.now s.messages.now s.tables.keys.now s.tables.heads.now slots.now) i)
        s.factors.now s.messages.now s.tables.keys.now scratch_numbers (head_of s.tables.heads.now (get_or slots.now i 0)) }
    ensures { matrices_in f work.new
        ≡ with_views branch f layout (view_at s.entry.factors.now s.entry.messages.now s.entry.tables.keys.now s.entry.tables.heads.now slots.now)
        (begun branch f) (length slots.now) }
{
    let mut t = [0.0; SCRATCH];
    begin_sums(work, f, branch);
    add_slots(work, &mut t, f, branch, layout, s, slots);
}

// In x only the lower triangle of W has been summed: the upper one is filled from it.
fn fill_upper_in_x(work: &mut [f64], f: Frame, branch: Branch)
    requires { FrameLaid f (length work.old) }
    ensures { matrices_in f work.new ≡ change Part.W (λ c. filled_w branch f.rows c) (matrices_in f work.old) }
{
    match branch {
        Branch::Z => {}
        Branch::X => fill_upper_at(work, f),
    }
}

// With L in S: h and G are solved, and xi and W lose G'h and G'G.
fn lose(work: &mut [f64], f: Frame, branch: Branch)
    requires { FrameLaid f (length work.old) }
    ensures { matrices_in f work.new ≡ lost branch f (matrices_in f work.old) }
{
    solve_at(work, f, Part::H, 1);
    solve_at(work, f, Part::G, f.rows);
    fill_upper_in_x(work, f, branch);
    subtract_at(work, f, Part::Xi, Part::H, 1);
    subtract_at(work, f, Part::W, Part::G, f.rows);
}

// The cleared block is factored, and the cleared keys go.
fn finish(work: &mut [f64], f: Frame, branch: Branch) -> Result<(), Fault>
    requires { FrameLaid f (length work.old) }
    ensures value { result ≡ finished_as (factorised branch f (matrices_in f work.old)) }
    ensures work_after { factorised branch f (matrices_in f work.old) ≡ ended_as result (matrices_in f work.new) }
{
    cholesky_at(work, f)?;
    lose(work, f, branch);
    Ok(())
}

// The elimination in one branch. The message stays in the work store, and is one once its pivots and its numbers have passed.
fn eliminate_to<'a>(
    s: Sources<'a>,
    work: &mut [f64],
    f: Frame,
    branch: Branch,
    layout: Layout,
    slots: &[usize],
) -> Result<usize, Fault>
    requires frame_laid { FrameLaid f (length work.old) × (branch ≡ Branch.X → f.rows ≡ f.kept) }
    requires counted { Counted s.tables.keys.now s.tables.heads.now slots.now }
    requires by_index { (i : ℕ) → i < length slots.now
        → SlotReady f layout branch (rows_of_all layout (view_at s.factors.now s.messages.now s.tables.keys.now s.tables.heads.now slots.now) i)
        s.factors.now s.messages.now s.tables.keys.now scratch_numbers (head_of s.tables.heads.now (get_or slots.now i 0)) }
    ensures value { result
        ≡ eliminated_as
        (in_branch branch f layout (view_at s.entry.factors.now s.entry.messages.now s.entry.tables.keys.now s.entry.tables.heads.now slots.now)
        (length slots.now)) }
    ensures slots_after { left_in f.cleared f.kept work.new
        (in_branch branch f layout (view_at s.entry.factors.now s.entry.messages.now s.entry.tables.keys.now s.entry.tables.heads.now slots.now)
        (length slots.now))
        ≡ numbers_in
        (in_branch branch f layout (view_at s.entry.factors.now s.entry.messages.now s.entry.tables.keys.now s.entry.tables.heads.now slots.now)
        (length slots.now)) }
{
    sum_up(work, f, branch, layout, s, slots);
    finish(work, f, branch)?;
    if !matrix::finite(&work[f.a..f.end]) {
        return Err(Fault::NotFinite);
    }
    Ok(f.rows)
}

// With the layout at hand: the rows of all slots choose the branch.
fn eliminate_by<'a>(
    s: Sources<'a>,
    work: &mut [f64],
    u: usize,
    d: usize,
    layout: Layout,
    slots: &[usize],
) -> Result<usize, Fault>
    requires { SlotsAsked u d layout s.factors.now s.messages.now (length work.old) s.tables.keys.now s.tables.heads.now slots.now }
    ensures value { result
        ≡ eliminated_as (branched_at u d layout s.entry.factors.now s.entry.messages.now s.entry.tables.keys.now s.entry.tables.heads.now slots.now) }
    ensures slots_after { left_in u d work.new
        (branched_at u d layout s.entry.factors.now s.entry.messages.now s.entry.tables.keys.now s.entry.tables.heads.now slots.now)
        ≡ numbers_in (branched_at u d layout s.entry.factors.now s.entry.messages.now s.entry.tables.keys.now s.entry.tables.heads.now slots.now) }
{
    let y = count_rows(layout, s.tables, slots);
    let branch = branch_of(y, d);
    let f = frame_of(u, message_rows(y, d), d);
    eliminate_to(s, work, f, branch, layout, slots)
}

// The elimination of the slots of a list, in order: how many rows its message has, which stays in the work store. Each slot is a number with a
// head in the table of heads.
pub fn eliminate_in<'a>(
    s: Sources<'a>,
    work: &mut [f64],
    a: Elimination<'a>,
) -> Result<usize, Fault>
    requires { Asked a.kept.now a.cleared.now a.sizes s.factors.now s.messages.now (length work.old) s.tables.keys.now s.tables.heads.now a.slots.now }
    ensures value { result
        ≡ eliminated_as (eliminate (views_of s.entry.factors.now s.entry.messages.now s.entry.tables.keys.now s.entry.tables.heads.now a.entry.slots.now)
        a.entry.kept.now a.entry.cleared.now a.entry.sizes) }
    ensures sizes_after { left_in (dim_of a.entry.sizes a.entry.cleared.now) (dim_of a.entry.sizes a.entry.kept.now) work.new
        (eliminate (views_of s.entry.factors.now s.entry.messages.now s.entry.tables.keys.now s.entry.tables.heads.now a.entry.slots.now)
        a.entry.kept.now a.entry.cleared.now a.entry.sizes)
        ≡ numbers_in (eliminate (views_of s.entry.factors.now s.entry.messages.now s.entry.tables.keys.now s.entry.tables.heads.now a.entry.slots.now)
        a.entry.kept.now a.entry.cleared.now a.entry.sizes) }
{
    let sizes = a.sizes;
    let layout = layout_of(a.kept, a.cleared, sizes);
    let u = dim_of(a.cleared, sizes);
    let d = dim_of(a.kept, sizes);
    eliminate_by(s, work, u, d, layout, a.slots)
}

// The message of so many rows that stands in the work store goes into the message store from a place on.
fn send(messages: &mut [f64], to: usize, work: &[f64], u: usize, rows: usize, d: usize)
    requires d_bound { (u + d ≤ max_total) × (rows ≤ d) × (work_numbers ≤ length work.now) }
    requires d_in_bounds { to + factor_numbers rows d ≤ length messages.old }
    ensures { messages.new
        ≡ splice messages.old to (to + factor_numbers rows d) (part work.now (frame_of u rows d).a (frame_of u rows d).end) }
{
    let f = frame_of(u, rows, d);
    let message = &work[f.a..f.end];
    messages[to..to + message.len()].copy_from_slice(message);
}

// `eliminate_in`, with the message copied into the message store from a place on.
pub fn eliminate_slots<'a>(
    factors: &'a [f64],
    messages: &mut [f64],
    to: usize,
    work: &mut [f64],
    tables: Tables<'a>,
    a: Elimination<'a>,
) -> Result<usize, Fault>
    requires asked { Asked a.kept.now a.cleared.now a.sizes factors.now messages.old (length work.old) tables.keys.now tables.heads.now a.slots.now }
    requires roomy { Roomy a.kept.now a.cleared.now a.sizes tables.keys.now tables.heads.now a.slots.now to (length messages.old) }
    ensures value { result
        ≡ eliminated_as (eliminate (views_of factors.now messages.old tables.entry.keys.now tables.entry.heads.now a.entry.slots.now)
        a.entry.kept.now a.entry.cleared.now a.entry.sizes) }
    ensures messages_after { messages.new
        ≡ message_stored messages.old to
        (eliminate (views_of factors.now messages.old tables.entry.keys.now tables.entry.heads.now a.entry.slots.now)
        a.entry.kept.now a.entry.cleared.now a.entry.sizes) }
    ensures result_value { eliminated_told result
        ≡ message_told (eliminate (views_of factors.now messages.old tables.entry.keys.now tables.entry.heads.now a.entry.slots.now)
        a.entry.kept.now a.entry.cleared.now a.entry.sizes) }
{
    let s = Sources {
        factors,
        messages: &messages[..],
        tables,
    };
    let rows = eliminate_in(s, work, a)?;
    let u = dim_of(a.cleared, a.sizes);
    let d = dim_of(a.kept, a.sizes);
    send(messages, to, &work[..], u, rows, d);
    Ok(rows)
}
