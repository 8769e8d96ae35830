// A reader over the matrix A of one factor: each key with its block column in turn. Callers that want one block column use `block_at`, whose
// parameters are plain.
#![tactic(auto)]

ghost use Rattle.std.specs.Prelude.{◌≡◌, ◌+◌, ◌*◌, ◌≤◌, ◌<◌, ◌^◌, length};
ghost use Rattle.blocks.specs.Blocks.{block_column_of};
ghost use Rattle.blocks.specs.Reader.{next_key_at, passed, started};

// A, the place of the next key, and the column at which its block begins.
#[derive(Clone, Copy)]
pub struct Blocks<'a> {
    pub a: &'a [f64],
    pub place: usize,
    pub column: usize,
}

// The block of `size` columns from a column on, in a matrix of so many rows. It begins where the numbers of the columns before it end.
fn columns_at<'a>(a: &'a [f64], rows: usize, column: usize, size: usize) -> &'a [f64]
    requires { (column + size) * rows ≤ length a.now }
    ensures { result.now ≡ block_column_of a.now rows column size }
{
    let start = column * rows;
    let end = start + size * rows;
    &a[start..end]
}

// The reader at the first key.
pub fn blocks_of<'a>(a: &'a [f64]) -> Blocks<'a>
    ensures { result ≡ started a.entry }
{
    Blocks {
        a,
        place: 0,
        column: 0,
    }
}

// The key that the reader stands at, or none at the end.
pub fn key<'a>(b: Blocks<'a>, keys: &[usize]) -> Option<usize>
    ensures { result ≡ next_key_at keys.now b.entry.place }
{
    keys.get(b.place).copied()
}

// The block column of that key, whose size is given.
pub fn block<'a>(b: Blocks<'a>, rows: usize, size: usize) -> &'a [f64]
    requires { (b.column + size) * rows ≤ length b.a.now }
    ensures { result.now ≡ block_column_of b.entry.a.now rows b.entry.column size }
{
    columns_at(b.a, rows, b.column, size)
}

// The reader past a block of that size.
pub fn next<'a>(b: Blocks<'a>, size: usize) -> Blocks<'a>
    requires { (b.place + 1 < 2 ^ 64) × (b.column + size < 2 ^ 64) }
    ensures { result ≡ passed b.entry size }
{
    Blocks {
        a: b.a,
        place: b.place + 1,
        column: b.column + size,
    }
}

// The block column that begins at a given column: read past all columns before it.
pub fn block_at<'a>(a: &'a [f64], rows: usize, column: usize, size: usize) -> &'a [f64]
    requires { (column + size) * rows ≤ length a.now }
    ensures { result.now ≡ block_column_of a.now rows column size }
{
    block(next(blocks_of(a), column), rows, size)
}
