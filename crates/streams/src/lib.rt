// A program's input and output: the end of the input is told from a read that failed, and text that could not be written is told too.
#![tactic(auto)]

ghost use Rattle.std.specs.Prelude.{◌≡◌, ◌≤◌, ◌<◌, ◌^◌, ◌-◌, ℕ, List, [], ◌∷◌, ◌++◌, false, length, OnOk, IfOk, IfSome};
ghost use Rattle.std.specs.Fmt.{decimal, digits, padded_integral, format_spec};
ghost use Rattle.std.specs.Fn.{FnOnceReturnsAt};
ghost use Rattle.std.specs.Io.KnownBytes.{Appends, IsAtEnd};
ghost use Rattle.streams.specs.Reading as spec;

use std::io;
use std::io::{ErrorKind, Read, Write};

// What the answer of a read says: how many bytes it moved, or None at the end of the input. An error is a failure.
fn chunk_of(got: io::Result<usize>) -> io::Result<Option<usize>>
    ensures { result ≡ spec.chunk_of got }
{
    match got? {
        0 => Ok(None),
        n => Ok(Some(n)),
    }
}

// A failed read of `read_all` is tried again, up to this many reads in all. A read that a signal interrupted before it moved a byte fails like any other,
// and the reason of a failure isn't looked at. A failed read moves nothing, so no byte is lost or read twice.
const TRIES: usize = 16;

// One read, tried again where it failed, up to `tries` reads in all.
fn read_chunk<R: Read>(input: &mut R, room: &mut [u8], tries: usize) -> io::Result<usize>
    ensures { spec.Moved (R.remaining input.old) (R.remaining input.new) result room.new }
{
    for _ in 1..tries {
        if let Ok(n) = input.read(room) {
            return Ok(n);
        }
    }
    input.read(room)
}

// Reads until the room is full, the input ends or a read fails. `done` counts the bytes at the start of the room, before a failed read too.
fn read_room<R: Read>(
    input: &mut R,
    room: &mut [u8],
    tries: usize,
    done: &mut usize,
) -> io::Result<()>
    requires { done.old ≤ length room.old }
    ensures within { done.new ≤ length room.new }
    ensures end { OnOk result (done.new < length room.new → IsAtEnd (R.remaining input.new)) }
{
    while *done < room.len() {
        let got = read_chunk(input, &mut room[*done..], tries);
        match chunk_of(got)? {
            None => return Ok(()),
            Some(n) => *done += n,
        }
    }
    Ok(())
}

// Reads until the input ends or the room is full, and answers how many bytes it put at the start of the room; or a read failed.
pub fn read_all<R: Read>(input: &mut R, room: &mut [u8]) -> io::Result<usize>
    ensures within { spec.InputWithin result (length room.new) }
    ensures end { IfOk result (λ n. n < length room.new → IsAtEnd (R.remaining input.new)) }
{
    let mut done = 0;
    read_room(input, room, TRIES, &mut done)?;
    Ok(done)
}

// Reads until the room is full, the input ends or a read fails. The answer is how many bytes it put at the start of the room.
// `Read::read_exact` would try an interrupted read again, and doesn't say how many bytes it read.
pub fn read_full<R: Read>(input: &mut R, room: &mut [u8]) -> usize
    ensures { result ≤ length room.new }
{
    let mut done = 0;
    let _ = read_room(input, room, 1, &mut done);
    done
}

// Writes all of a text, or stops at the first write that takes nothing or fails. `Write::write_all` would try an interrupted write again.
pub fn write_all<W: Write>(output: &mut W, text: &[u8]) -> io::Result<()>
    ensures { OnOk result (Appends (W.contents output.old) (W.contents output.new) text.now) }
{
    let mut rest = text;
    while !rest.is_empty() {
        match output.write(rest)? {
            0 => return Err(io::Error::from(ErrorKind::WriteZero)),
            n => rest = &rest[n..],
        }
    }
    Ok(())
}

// Writes a number in decimal, with no line end.
pub fn write_decimal<W: Write>(output: &mut W, n: u64) -> io::Result<()>
    ensures { OnOk result (Appends (W.contents output.old) (W.contents output.new) (decimal n)) }
{
    write!(output, "{n}")
}

// Writes a number as 16 hexadecimal digits in lower case, with no line end.
pub fn write_hex<W: Write>(output: &mut W, n: u64) -> io::Result<()>
    ensures { OnOk result (Appends (W.contents output.old) (W.contents output.new)
        (padded_integral (format_spec 32 0 4 16 (2 ^ 64 - 1)) false [] (digits 16 false n))) }
{
    write!(output, "{n:016x}")
}

// Writes a text to standard output. If not all of it could be written, the complaint goes to standard error.
pub fn print<O: Write, E: Write>(output: &mut O, error: &mut E, text: &[u8], complaint: &[u8]) {
    if write_all(output, text).is_err() {
        let _ = write_all(error, complaint);
    }
}

// Writes a word and a number. The number is tried even if the word failed: what a program went on to print is compared.
pub fn print_named<W: Write>(output: &mut W, word: &[u8], number: usize) -> io::Result<()>
    ensures { OnOk result (Appends (W.contents output.old) (W.contents output.new) (word.now ++ decimal number)) }
{
    let first = write_all(output, word);
    let second = write_decimal(output, number as u64);
    first.and(second)
}

// Writes the number of a case on a line of its own, and below it the case's text; each write is tried, as in `print_named`.
pub fn print_numbered<W: Write>(output: &mut W, number: usize, text: &[u8]) -> io::Result<()>
    ensures { OnOk result (Appends (W.contents output.old) (W.contents output.new) (decimal number ++ 10 ∷ text.now)) }
{
    let first = write_decimal(output, number as u64);
    let second = write_all(output, b"\n");
    let third = write_all(output, text);
    first.and(second).and(third)
}

// The room that a counted text needs: more bytes than two bytes can count.
pub const COUNTED: usize = 65536;

// The next text of the input that stands behind the count of its bytes, which takes two bytes, the lower one first. The answer is
// that count, or None where no whole text follows.
pub fn read_counted<R: Read>(input: &mut R, room: &mut [u8]) -> Option<usize>
    requires { 65536 ≤ length room.old }
    ensures { IfSome result (λ n. n < 65536) }
{
    let mut head = [0u8; 2];
    if read_full(input, &mut head) < head.len() {
        return None;
    }
    let n = usize::from(u16::from_le_bytes(head));
    if read_full(input, &mut room[..n]) < n {
        return None;
    }
    Some(n)
}

// Hands each counted text of the input in turn to `visit`, with its number from 0, and answers how many it handed on. It ends where no whole text follows,
// where `visit` answers None, and after `most` texts.
pub fn each_counted<R: Read, F: FnMut(usize, &[u8]) -> Option<()>>(
    input: &mut R,
    most: usize,
    mut visit: F,
) -> usize
    requires { F.IsAlwaysCallable visit }
    ensures { result ≤ most }
{
    let mut room = [0u8; COUNTED];
    for number in 0..most {
        let Some(n) = read_counted(input, &mut room) else {
            return number;
        };
        if visit(number, &room[..n]).is_none() {
            return number + 1;
        }
    }
    most
}

// What `answer` makes of all of the input that the room takes; or a read failed, and part of the input might be missing.
pub fn answer_all<R: Read, T, F: FnOnce(&[u8]) -> T>(
    input: &mut R,
    room: &mut [u8],
    answer: F,
) -> io::Result<T>
    requires { F.IsAlwaysCallable answer }
    ensures { IfOk result (λ t. (bytes : List ℕ) × spec.IsWhole bytes (length room.new) (R.remaining input.new)
        × FnOnceReturnsAt F.FnOnce answer bytes t) }
{
    let n = read_all(input, room)?;
    Ok(answer(&room[..n]))
}
