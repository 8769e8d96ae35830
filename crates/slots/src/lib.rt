// What each slot of an elimination adds to its matrices, from the numbers in the lent stores.
#![tactic(auto)]

pub mod layout;
pub mod limits;
mod sums;

ghost use Rattle.std.specs.Prelude.{◌≡◌, true, ℕ, ◌+◌, ◌*◌, ◌<◌, ◌≤◌, length, get_or};
ghost use Rattle.matrix.specs.Views.{part};
ghost use Rattle.factor.specs.Limits.{max_variables};
ghost use Rattle.slots.specs.Limits.{numbers_per_head};
ghost use Rattle.slots.specs.Views.{rows_of, rows_of_all, with_view, with_views};
ghost use Rattle.slots.specs.Tables.{numbered_slot, head_of, slot_store, read_view, view_at, rows_by, rows_by_all};
ghost use Rattle.slots.specs.Fitting.{SlotReady, Counted};
ghost use Rattle.workspace.specs.Parts.{FrameLaid, matrices_in};

use factor::limits::FACTORS;
use layout::Layout;
use limits::HEAD;
use sums::add_view;
use workspace::Frame;

// The two branches of an elimination: in z the message has the factors' own rows, in x as many rows as kept columns.
#[derive(Clone, Copy)]
pub enum Branch {
    Z,
    X,
}

// What a slot of an elimination is: an original factor, by its number, or a closed message, by its place among the messages.
#[derive(Clone, Copy)]
pub enum Slot {
    Original(usize),
    Closed(usize),
}

// The tables that an elimination reads: the heads of its slots, and the keys of all heads.
#[derive(Clone, Copy)]
pub struct Tables<'a> {
    pub keys: &'a [usize],
    pub heads: &'a [usize],
}

// What an elimination reads: the numbers of the originals and of the messages, and the tables.
#[derive(Clone, Copy)]
pub struct Sources<'a> {
    pub factors: &'a [f64],
    pub messages: &'a [f64],
    pub tables: Tables<'a>,
}

// What is known of a slot: whether it is a prior, where its numbers begin, its rows and its width, where its keys begin and how many they are.
// A prior has no A, so its width is 0.
#[derive(Drop)]
pub struct Head {
    pub slot: Slot,
    pub prior: bool,
    pub at: usize,
    pub rows: usize,
    pub width: usize,
    pub first: usize,
    pub count: usize,
}

// The slot of a number: originals have their own, and messages follow.
pub fn slot_of(number: usize) -> Slot
    ensures { result ≡ numbered_slot number }
{
    if number < FACTORS {
        return Slot::Original(number);
    }
    Slot::Closed(number - FACTORS)
}

// What the table of heads has for the slot of a number.
pub fn head_at(heads: &[usize], number: usize) -> Head
    requires { numbers_per_head * number + 5 < length heads.now }
    ensures { result ≡ head_of heads.now number }
{
    let p = HEAD * number;
    Head {
        slot: slot_of(number),
        prior: heads[p] == 1,
        at: heads[p + 1],
        rows: heads[p + 2],
        width: heads[p + 3],
        first: heads[p + 4],
        count: heads[p + 5],
    }
}

// The numbers of a slot: a part of whichever store holds them.
pub fn numbers<'a>(
    factors: &'a [f64],
    messages: &'a [f64],
    slot: Slot,
    at: usize,
    n: usize,
) -> &'a [f64]
    requires { at + n ≤ length (slot_store slot factors.now messages.now) }
    ensures { result.now ≡ part (slot_store slot factors.now messages.now) at (at + n) }
{
    match slot {
        Slot::Original(_) => &factors[at..at + n],
        Slot::Closed(_) => &messages[at..at + n],
    }
}

// The rows that a slot adds: those of its head, but none for a prior on a cleared key.
#[tactic(auto, unfolding(crate::specs::Tables::rows_by))]
pub fn rows_of(layout: Layout, keys: &[usize], h: Head) -> usize
    requires { h.prior ≡ true → (h.first < length keys.now) × (get_or keys.now h.first 0 < max_variables) }
    ensures { result ≡ rows_by layout keys.now h }
{
    if h.prior && layout.cleared[keys[h.first]] {
        return 0;
    }
    h.rows
}

// The rows of all slots of a list of numbers.
pub fn count_rows<'a>(layout: Layout, tables: Tables<'a>, slots: &[usize]) -> usize
    requires { Counted tables.keys.now tables.heads.now slots.now }
    ensures { result ≡ rows_by_all layout tables.entry.keys.now tables.entry.heads.now slots.now (length slots.now) }
{
    let mut rows = 0;
    for &number in slots {
        let h = head_at(tables.heads, number);
        rows += rows_of(layout, tables.keys, h);
    }
    rows
}

// Adds the factor of one slot, read where its head says that its keys and numbers stand. Answers the first free row.
fn add_slot<'a>(
    work: &mut [f64],
    t: &mut [f64],
    f: Frame,
    branch: Branch,
    row: usize,
    layout: Layout,
    s: Sources<'a>,
    h: Head,
) -> usize
    requires frame_laid { FrameLaid f (length work.old) }
    requires slot_ready { SlotReady f layout branch row s.factors.now s.messages.now s.tables.keys.now (length t.old) h }
    ensures value { result ≡ row + rows_of layout (read_view s.entry.factors.now s.entry.messages.now s.entry.tables.keys.now h) }
    ensures work_after { matrices_in f work.new
        ≡ with_view branch f layout row (read_view s.entry.factors.now s.entry.messages.now s.entry.tables.keys.now h)
        (matrices_in f work.old) }
{
    let keys = s.tables.keys;
    let p = h.first;
    let q = p + h.count;
    let ks = &keys[p..q];
    let n = h.rows * h.width + h.rows + h.rows * h.rows;
    let slot = h.slot;
    let nums = numbers(s.factors, s.messages, slot, h.at, n);
    add_view(
        work, t, f, branch, row, layout, h.prior, ks, h.rows, h.width, nums,
    );
    row + rows_of(layout, keys, h)
}

// All slots of a list, in order. The slice t takes a product of a block column with its W.
pub fn add_slots<'a>(
    work: &mut [f64],
    t: &mut [f64],
    f: Frame,
    branch: Branch,
    layout: Layout,
    s: Sources<'a>,
    slots: &[usize],
)
    requires frame_laid { FrameLaid f (length work.old) }
    requires counted { Counted s.tables.keys.now s.tables.heads.now slots.now }
    requires by_index { (i : ℕ) → i < length slots.now
        → SlotReady f layout branch
        (rows_of_all layout (view_at s.factors.now s.messages.now s.tables.keys.now s.tables.heads.now slots.now) i)
        s.factors.now s.messages.now s.tables.keys.now (length t.old) (head_of s.tables.heads.now (get_or slots.now i 0)) }
    ensures { matrices_in f work.new
        ≡ with_views branch f layout
        (view_at s.entry.factors.now s.entry.messages.now s.entry.tables.keys.now s.entry.tables.heads.now slots.now)
        (matrices_in f work.old) (length slots.now) }
{
    let mut row = 0;
    for &number in slots {
        let h = head_at(s.tables.heads, number);
        row = add_slot(work, t, f, branch, row, layout, s, h);
    }
}
