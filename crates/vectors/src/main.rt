// Replays square roots and factorisations that were worked out elsewhere: reads their input and writes what this library makes of it.
// The input is words of 16 upper-case hexadecimal digits, one a line: how many roots, a bit pattern for each; then, to the end, records of
// a dimension n, n * n numbers of a matrix column by column, and n numbers of a right side.
// The output is a line for each number: a root or `refused`; of a record `stopped`, or `done` and the factor, the solution and the inverse.
#![tactic(auto)]

ghost use Rattle.std.specs.Prelude.{◌≡◌, ◌≤◌, ◌<◌, ◌*◌, length};

use matrix::{Matrix, View};
use std::num::f64_from_bits_with_nan;
use streams::{read_full, write_all, write_hex};

fn main(rt: HostRuntime) {
    let mut text = [0u8; 65536];
    let got = read_full(&mut rt.stdin(), &mut text);
    let count = count_at(&text, 0, 3855);
    roots(&rt, &text, count);
    factorisations(&rt, &text, count + 1, got / 17);
}

// A digit, or what stands in its place.
fn digit(b: u8) -> u64
    ensures { result < 16 }
{
    let value = if 65 <= b { b - 55 } else { b };
    u64::from(value % 16)
}

// Word number at, or 0 past the end.
fn word(text: &[u8], at: usize) -> u64
    requires { at ≤ 65536 }
{
    let from = 17 * at;
    match text.get(from..from + 16) {
        Some(digits) => digits.iter().fold(0, |value, &b| (value << 4) | digit(b)),
        None => 0,
    }
}

// The number that a word is, cut to the most that there may be.
fn count_at(text: &[u8], at: usize, most: usize) -> usize
    requires { at ≤ 65536 }
    ensures { result ≤ most }
{
    usize::try_from(word(text, at)).unwrap_or(most).min(most)
}

fn print(rt: &HostRuntime, x: f64) {
    if x.is_nan() {
        let _ = write_all(&mut rt.stdout(), b"nan\n");
        return;
    }
    let _ = write_hex(&mut rt.stdout(), x.to_bits());
    let _ = write_all(&mut rt.stdout(), b"\n");
}

fn print_all(rt: &HostRuntime, values: &[f64]) {
    for &x in values {
        print(rt, x);
    }
}

fn roots(rt: &HostRuntime, text: &[u8], count: usize)
    requires { count ≤ 4096 }
{
    for i in 0..count {
        match root::root(f64_from_bits_with_nan(word(text, i + 1))) {
            Some(r) => print(rt, r),
            None => {
                let _ = write_all(&mut rt.stdout(), b"refused\n");
            }
        }
    }
}

fn numbers(text: &[u8], from: usize, out: &mut [f64])
    requires { (from ≤ 16384) × (length out.old ≤ 1024) }
{
    for (i, x) in out.iter_mut().enumerate() {
        *x = f64_from_bits_with_nan(word(text, from + i));
    }
}

fn factorisations(rt: &HostRuntime, text: &[u8], from: usize, end: usize)
    requires { (from ≤ 4096) × (end ≤ 4096) }
{
    let mut at = from;
    while at < end {
        let n = count_at(text, at, 32);
        let mut l = [0.0; 1024];
        let mut x = [0.0; 1024];
        let mut b = [0.0; 32];
        factorisation(
            rt,
            text,
            at + 1,
            n,
            &mut l[..n * n],
            &mut x[..n * n],
            &mut b[..n],
        );
        at += 1 + n * n + n;
    }
}

fn factorisation(
    rt: &HostRuntime,
    text: &[u8],
    at: usize,
    n: usize,
    l: &mut [f64],
    x: &mut [f64],
    b: &mut [f64],
)
    requires at_bound { (at ≤ 8192) × (n ≤ 32) }
    requires in_bounds { (length l.old ≡ n * n) × (length x.old ≡ n * n) × (length b.old ≡ n) }
{
    let v = View::columns(n);
    numbers(text, at, l);
    numbers(text, at + n * n, b);
    if cholesky::cholesky(l, v, n).is_err() {
        let _ = write_all(&mut rt.stdout(), b"stopped\n");
        return;
    }
    let _ = write_all(&mut rt.stdout(), b"done\n");
    let factor = Matrix::new(&l[..], n, n);
    cholesky::solve(factor, b, v, 0);
    cholesky::inverse(factor, x, v);
    print_all(rt, l);
    print_all(rt, b);
    print_all(rt, x);
}
