// Text in a lent buffer: bytes, words, and whole numbers in decimal. Each function that puts text answers the place after it. What lies
// past the buffer's end is dropped, so the same calls find a text's length and lay it, and none asks for room.
#![tactic(auto)]

ghost use Rattle.std.specs.Prelude.{◌≡◌, [], ◌∷◌, ◌≤◌, length};
ghost use Rattle.text.specs.Decimals.{decimal, field_text};
ghost use Rattle.text.specs.Putting.{Puts};

// One byte. Places are counted up to the largest number of a machine word.
pub fn put(out: &mut [u8], at: usize, byte: u8) -> usize
    ensures { Puts out.old out.new at result (byte ∷ []) }
{
    if at < out.len() {
        out[at] = byte;
    }
    at.saturating_add(1)
}

// The bytes of a word, in order.
pub fn put_word(out: &mut [u8], at: usize, word: &[u8]) -> usize
    ensures { Puts out.old out.new at result word.now }
{
    let mut to = at;
    for &byte in word {
        to = put(out, to, byte);
    }
    to
}

// How many digits a number has in decimal.
pub fn decimal_length(x: usize) -> usize
    ensures { (result ≡ length (decimal x)) × (result ≤ 20) }
{
    if x < 10 {
        return 1;
    }
    decimal_length(x / 10) + 1
}

// A number in decimal: the last digit follows those before it.
pub fn put_decimal(out: &mut [u8], at: usize, x: usize) -> usize
    ensures { Puts out.old out.new at result (decimal x) }
{
    if x < 10 {
        return put(out, at, 48 + x as u8);
    }
    let last = put_decimal(out, at, x / 10);
    put(out, last, 48 + (x % 10) as u8)
}

// A space and a number in decimal.
pub fn put_field(out: &mut [u8], at: usize, x: usize) -> usize
    ensures { Puts out.old out.new at result (field_text x) }
{
    let digits = put(out, at, b' ');
    put_decimal(out, digits, x)
}
