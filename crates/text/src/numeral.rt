// Whole numbers in plain decimal, over a slice and a place as lib.rt says.
ghost use Rattle.std.specs.Prelude.{◌≡◌, drop};
ghost use Rattle.text.specs.Numeral.{numeral, after_numeral};

use crate::{Kind, past};

// Numbers are read below this, 2^60: such a number and a digit more is still a u64.
const LIMIT: usize = 1 << 60;

// The number that the digits write, or the limit: the number of any text, as its definition has it, and no Option.
pub fn numeral(text: &[u8], at: usize) -> usize
    ensures { result ≡ numeral (drop at text.now) }
{
    let mut n = 0;
    for i in at..text.len() {
        let sign = text[i];
        if !sign.is_ascii_digit() {
            return n;
        }
        n = n * 10 + usize::from(sign - b'0');
        if n >= LIMIT {
            return LIMIT;
        }
    }
    n
}

// The place behind a number.
pub fn after_numeral(text: &[u8], at: usize) -> usize
    ensures { drop result text.now ≡ after_numeral (drop at text.now) }
{
    if at >= text.len() {
        text.len()
    } else if text[at] == b'0' {
        at + 1
    } else if text[at].is_ascii_digit() && numeral(text, at) < LIMIT {
        past(text, at, Kind::Digit)
    } else {
        text.len()
    }
}
