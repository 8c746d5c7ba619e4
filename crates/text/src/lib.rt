// A text of bytes, read from left to right: each function takes the place reached and answers the place behind what it
// read. The end of the text also says that the text did not go on as asked: the definitions of specs/ know only what is
// left of a text, and an Option would tell apart what they do not. Document 02 asks for a parser over a slice and a place.
#![tactic(auto)]

ghost use Rattle.std.specs.Prelude.{◌≡◌, drop};
ghost use Rattle.text.specs.Text.{is_of, is_quote, past, is_at, expect, literal, quoted};

pub mod numeral;

// Signs that are passed over together. A predicate in its place would ask each caller for a closure and its clauses.
#[derive(Clone, Copy)]
pub enum Kind {
    // a space or a tab
    Blank,
    // these, or a newline
    Spacing,
    Digit,
}

fn is_of(kind: Kind, sign: u8) -> bool
    ensures { result ≡ is_of kind sign }
{
    match kind {
        Kind::Blank => matches!(sign, b' ' | b'\t'),
        Kind::Spacing => matches!(sign, b' ' | b'\t' | b'\n'),
        Kind::Digit => sign.is_ascii_digit(),
    }
}

fn is_quote(sign: u8) -> bool
    ensures { result ≡ is_quote sign }
{
    matches!(sign, b'\'' | b'"')
}

// The place behind all signs of a kind.
#[tactic(auto, using(crate::proofs::Texts::past_on, crate::proofs::Texts::past_stops, crate::proofs::Texts::past_end))]
pub fn past(text: &[u8], at: usize, kind: Kind) -> usize
    ensures { drop result text.now ≡ past kind (drop at text.now) }
{
    for i in at..text.len() {
        if !is_of(kind, text[i]) {
            return i;
        }
    }
    text.len().max(at)
}

// Whether this sign stands at the place.
#[tactic(auto, using(crate::proofs::Texts::is_there, crate::proofs::Texts::none_there))]
pub fn is_at(text: &[u8], at: usize, sign: u8) -> bool
    ensures { result ≡ is_at sign (drop at text.now) }
{
    at < text.len() && text[at] == sign
}

// The place behind this sign.
#[tactic(auto, using(crate::proofs::Texts::is_within, crate::proofs::Texts::expect_there, crate::proofs::Texts::expect_other))]
pub fn expect(text: &[u8], at: usize, sign: u8) -> usize
    ensures { drop result text.now ≡ expect sign (drop at text.now) }
{
    if is_at(text, at, sign) {
        at + 1
    } else {
        text.len()
    }
}

// The place behind these signs.
#[tactic(auto, using(crate::proofs::Texts::literal_on, crate::proofs::Texts::literal_done))]
pub fn literal(text: &[u8], at: usize, word: &[u8]) -> usize
    ensures { drop result text.now ≡ literal word.now (drop at text.now) }
{
    let mut to = at;
    for sign in word {
        to = expect(text, to, *sign);
    }
    to
}

// The place behind a word in quotes, single or double.
#[tactic(auto, using(crate::proofs::Texts::quoted_there, crate::proofs::Texts::quoted_other, crate::proofs::Texts::quoted_end))]
pub fn quoted(text: &[u8], at: usize, word: &[u8]) -> usize
    ensures { drop result text.now ≡ quoted word.now (drop at text.now) }
{
    if at < text.len() && is_quote(text[at]) {
        let quote = text[at];
        expect(text, literal(text, at + 1, word), quote)
    } else {
        text.len()
    }
}
