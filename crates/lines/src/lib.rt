// What a job prints, in a lent buffer: a line for each key, or a line for a refusal.
#![tactic(auto)]

ghost use Rattle.std.specs.Prelude.{◌≡◌, true, ◌+◌, ◌<◌, ◌≤◌, length};
ghost use Rattle.std.specs.Float.{binary64};
ghost use Rattle.std.specs.Float.Ieee.{to_bits};
ghost use Rattle.graph.specs.Record.{valid};
ghost use Rattle.graph.specs.Moments.{start_of};
ghost use Rattle.graph.specs.Refusals.{refusal_number};
ghost use Rattle.text.specs.Putting.{Puts};
ghost use Rattle.lines.specs.Lines as spec;

use graph::Graph;
use graph::refusal::Refusal;
use text::{decimal_length, put, put_decimal, put_field, put_word};

// The bytes of a space and a float.
const NUMBER_BYTES: usize = 17;

// The buffer is too short for the text.
#[derive(Clone, Copy, Debug, PartialEq, Eq)]
pub struct TooShort;

// The answer in C where the buffer is too short. No text has that length.
const SHORT: usize = 0xFFFFFFFFFFFFFFFF;

// The number that stands for it in C.
pub fn length_of(answer: Result<usize, TooShort>) -> usize
    ensures { result ≡ spec.length_of answer }
{
    match answer {
        Ok(n) => n,
        Err(TooShort) => SHORT,
    }
}

// A hexadecimal digit in upper case.
fn hex_digit(d: u8) -> u8
    requires { d < 16 }
    ensures { result ≡ spec.hex_digit d }
{
    if d < 10 { 48 + d } else { 55 + d }
}

// The 16 digits of a pattern, the highest first.
fn put_hex(out: &mut [u8], at: usize, bits: u64) -> usize
    ensures { Puts out.old out.new at result (spec.hex_by 16 bits) }
{
    let mut to = at;
    for i in 0..16usize {
        let d = (bits >> (60 - 4 * i)) % 16;
        to = put(out, to, hex_digit(d as u8));
    }
    to
}

// The bits of a float, and for a NaN the ones that the definition takes.
pub fn bits_of(x: f64) -> u64
    ensures { result ≡ to_bits binary64 x }
{
    if x != x {
        return 0x7FF8000000000000;
    }
    f64::to_bits(x)
}

// A space and a float.
fn put_number(out: &mut [u8], at: usize, x: f64) -> usize
    ensures { Puts out.old out.new at result (spec.number_text x) }
{
    let next = put(out, at, b' ');
    put_hex(out, next, bits_of(x))
}

// So many floats from a place of the values on.
fn put_numbers(out: &mut [u8], at: usize, values: &[f64], from: usize, n: usize) -> usize
    requires { from + n ≤ length values.now }
    ensures { Puts out.old out.new at result (spec.numbers_text values.now from n) }
{
    let mut to = at;
    for &x in &values[from..from + n] {
        to = put_number(out, to, x);
    }
    to
}

// The line of a key, from where its numbers begin in the values on.
fn put_line(out: &mut [u8], at: usize, key: usize, values: &[f64], from: usize, n: usize) -> usize
    requires { from + n ≤ length values.now }
    ensures { Puts out.old out.new at result (spec.line_text key values.now from n) }
{
    let second = put_decimal(out, at, key);
    let last = put_numbers(out, second, values, from, n);
    put(out, last, b'\n')
}

// How many numbers the marginal of a key has.
fn numbers_of(g: Graph, key: usize) -> usize
    requires { (valid g ≡ true) × (key < g.variables) }
    ensures { (result ≡ spec.line_numbers g key) × (result ≤ 42) }
{
    let sizes = g.sizes;
    let s = factor::size_of(sizes, key);
    s + s * s
}

// The length of all lines.
fn lines_length(g: Graph) -> usize
    requires { valid g ≡ true }
    ensures { result ≡ spec.lines_length g g.variables }
{
    let mut sum = 0;
    for key in 0..g.variables {
        sum += decimal_length(key) + NUMBER_BYTES * numbers_of(g, key) + 1;
    }
    sum
}

// The lines of all keys, whose numbers stand in the values one key after the other.
fn put_lines(out: &mut [u8], g: Graph, values: &[f64]) -> usize
    requires { (valid g ≡ true) × (start_of g.sizes g.variables ≤ length values.now) }
    ensures { Puts out.old out.new 0 result (spec.lines_text g values.now g.variables) }
{
    let mut to = 0;
    let mut from = 0;
    for key in 0..g.variables {
        let n = numbers_of(g, key);
        to = put_line(out, to, key, values, from, n);
        from += n;
    }
    to
}

// A line for each key, rising: its mean and covariance, which stand in the marginal store one key after the other. A short buffer is left as it was.
pub fn lay_lines(g: Graph, marginals: &[f64], out: &mut [u8]) -> Result<usize, TooShort>
    requires { (valid g ≡ true) × (start_of g.sizes g.variables ≤ length marginals.now) }
    ensures value { result ≡ spec.written out.old (spec.lines_text g marginals.now g.variables) }
    ensures out_after { out.new ≡ spec.laid_in out.old (spec.lines_text g marginals.now g.variables) }
{
    let n = lines_length(g);
    if out.len() < n {
        return Err(TooShort);
    }
    put_lines(out, g, marginals);
    Ok(n)
}

fn put_refusal(out: &mut [u8], number: usize, stage: usize, place: usize) -> usize
    ensures { Puts out.old out.new 0 result (spec.refusal_text number stage place) }
{
    let first = put_word(out, 0, b"refused");
    let second = put_field(out, first, number);
    let third = put_field(out, second, stage);
    let last = put_field(out, third, place);
    put(out, last, b'\n')
}

// The line of a refusal. A short buffer is left as it was. The first run is into one byte that nobody reads: it finds the length.
pub fn lay_refusal(
    why: Refusal,
    stage: usize,
    place: usize,
    out: &mut [u8],
) -> Result<usize, TooShort>
    ensures value { result ≡ spec.written out.old (spec.refusal_text (refusal_number why) stage place) }
    ensures out_after { out.new ≡ spec.laid_in out.old (spec.refusal_text (refusal_number why) stage place) }
{
    let number = graph::refusal::code(why);
    let mut nowhere = [0u8; 1];
    let n = put_refusal(&mut nowhere, number, stage, place);
    if out.len() < n {
        return Err(TooShort);
    }
    put_refusal(out, number, stage, place);
    Ok(n)
}
