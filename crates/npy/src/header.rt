// The text of a header, read over a slice and a place, as document 02 asks. The end of the text also says that it is no
// such text.
ghost use Rattle.std.specs.Prelude.{◌≡◌, drop};
ghost use Rattle.npy.specs.Header.{first_length, next_length, after_shape, lengths_in, after_key, key_at, value_at, after_value, after_entry, first_entry, next_entry, after_comma, closes, each_once, is_header, shape_entry, lengths_of};
ghost use Rattle.npy.specs.Bookkeeping.{header_in};

use text::numeral::{after_numeral, numeral};
use text::{Kind, expect, is_at, literal, past, quoted};

// ---- shape = "(" s num s "," s num s "," s num s ")"
#[tactic(auto, unfolding(crate::specs::Header::first_length))]
fn first_length(text: &[u8], at: usize) -> usize
    ensures { drop result text.now ≡ first_length (drop at text.now) }
{
    past(text, expect(text, at, b'('), Kind::Spacing)
}

#[tactic(auto, unfolding(crate::specs::Header::next_length))]
fn next_length(text: &[u8], at: usize) -> usize
    ensures { drop result text.now ≡ next_length (drop at text.now) }
{
    let behind = past(text, after_numeral(text, at), Kind::Spacing);
    past(text, expect(text, behind, b','), Kind::Spacing)
}

#[tactic(auto, unfolding(crate::specs::Header::after_shape))]
fn after_shape(text: &[u8], at: usize) -> usize
    ensures { drop result text.now ≡ after_shape (drop at text.now) }
{
    let last = next_length(text, next_length(text, first_length(text, at)));
    expect(
        text,
        past(text, after_numeral(text, last), Kind::Spacing),
        b')',
    )
}

#[tactic(auto, unfolding(crate::specs::Header::lengths_in))]
fn lengths_in(text: &[u8], at: usize) -> [usize; 3]
    ensures { result ≡ lengths_in (drop at text.now) }
{
    let a = first_length(text, at);
    let b = next_length(text, a);
    let c = next_length(text, b);
    [numeral(text, a), numeral(text, b), numeral(text, c)]
}

// ---- entries: key s ":" s value
#[derive(Clone, Copy, PartialEq, Eq)]
enum Key {
    Descr,
    FortranOrder,
    Shape,
    Other,
}

#[tactic(auto, unfolding(crate::specs::Header::after_key))]
fn after_key(text: &[u8], at: usize, key: Key) -> usize
    ensures { drop result text.now ≡ after_key key (drop at text.now) }
{
    match key {
        Key::Descr => quoted(text, at, b"descr"),
        Key::FortranOrder => quoted(text, at, b"fortran_order"),
        Key::Shape => quoted(text, at, b"shape"),
        Key::Other => text.len(),
    }
}

#[tactic(auto, using(text::proofs::Texts::some_left, text::proofs::Texts::none_left), unfolding(crate::specs::Header::key_at))]
fn key_at(text: &[u8], at: usize) -> Key
    ensures { result ≡ key_at (drop at text.now) }
{
    if after_key(text, at, Key::Descr) < text.len() {
        Key::Descr
    } else if after_key(text, at, Key::FortranOrder) < text.len() {
        Key::FortranOrder
    } else if after_key(text, at, Key::Shape) < text.len() {
        Key::Shape
    } else {
        Key::Other
    }
}

#[tactic(auto, unfolding(crate::specs::Header::value_at))]
fn value_at(text: &[u8], at: usize) -> usize
    ensures { drop result text.now ≡ value_at (drop at text.now) }
{
    let behind = past(text, after_key(text, at, key_at(text, at)), Kind::Spacing);
    past(text, expect(text, behind, b':'), Kind::Spacing)
}

#[tactic(auto, unfolding(crate::specs::Header::after_value))]
fn after_value(text: &[u8], at: usize, key: Key) -> usize
    ensures { drop result text.now ≡ after_value key (drop at text.now) }
{
    match key {
        Key::Descr => quoted(text, at, b"<f8"),
        Key::FortranOrder => literal(text, at, b"False"),
        Key::Shape => after_shape(text, at),
        Key::Other => text.len(),
    }
}

#[tactic(auto, unfolding(crate::specs::Header::after_entry))]
fn after_entry(text: &[u8], at: usize) -> usize
    ensures { drop result text.now ≡ after_entry (drop at text.now) }
{
    after_value(text, value_at(text, at), key_at(text, at))
}

// ---- the whole text
#[tactic(auto, unfolding(crate::specs::Header::first_entry))]
fn first_entry(text: &[u8], at: usize) -> usize
    ensures { drop result text.now ≡ first_entry (drop at text.now) }
{
    past(
        text,
        expect(text, past(text, at, Kind::Blank), b'{'),
        Kind::Spacing,
    )
}

#[tactic(auto, unfolding(crate::specs::Header::next_entry))]
fn next_entry(text: &[u8], at: usize) -> usize
    ensures { drop result text.now ≡ next_entry (drop at text.now) }
{
    let behind = past(text, after_entry(text, at), Kind::Spacing);
    past(text, expect(text, behind, b','), Kind::Spacing)
}

#[tactic(auto, unfolding(crate::specs::Header::after_comma))]
fn after_comma(text: &[u8], at: usize) -> usize
    ensures { drop result text.now ≡ after_comma (drop at text.now) }
{
    if is_at(text, at, b',') {
        past(text, expect(text, at, b','), Kind::Spacing)
    } else {
        at
    }
}

#[tactic(auto, using(crate::proofs::Deciding::at_end), unfolding(crate::specs::Header::closes))]
fn closes(text: &[u8], at: usize) -> bool
    ensures { result ≡ closes (drop at text.now) }
{
    is_at(text, at, b'}') && past(text, expect(text, at, b'}'), Kind::Spacing) >= text.len()
}

fn each_once(j: Key, k: Key, l: Key) -> bool
    ensures { result ≡ each_once j k l }
{
    j != k && j != l && k != l
}

#[tactic(auto, unfolding(crate::specs::Header::is_header))]
fn is_header(text: &[u8], at: usize) -> bool
    ensures { result ≡ is_header (drop at text.now) }
{
    let a = first_entry(text, at);
    let b = next_entry(text, a);
    let c = next_entry(text, b);
    let behind = past(text, after_entry(text, c), Kind::Spacing);
    each_once(key_at(text, a), key_at(text, b), key_at(text, c))
        && closes(text, after_comma(text, behind))
}

// The entry that has the key "shape".
#[tactic(auto, using(crate::proofs::ShapeEntry::is_shape), unfolding(crate::specs::Header::shape_entry))]
fn shape_entry(text: &[u8], at: usize) -> usize
    ensures { drop result text.now ≡ shape_entry (drop at text.now) }
{
    let a = first_entry(text, at);
    if key_at(text, a) == Key::Shape {
        return a;
    }
    let b = next_entry(text, a);
    if key_at(text, b) == Key::Shape {
        return b;
    }
    next_entry(text, b)
}

// The lengths of a header; of any other text, some numbers.
#[tactic(auto, unfolding(crate::specs::Header::lengths_of))]
pub fn lengths_of(text: &[u8], at: usize) -> [usize; 3]
    ensures { result ≡ lengths_of (drop at text.now) }
{
    lengths_in(text, value_at(text, shape_entry(text, at)))
}

// The lengths of the header that the text is from a place on, to the end; if it is none, as an error.
pub(crate) fn header_at(text: &[u8], at: usize) -> Result<[usize; 3], [usize; 3]>
    ensures { result ≡ header_in (drop at text.now) }
{
    let lengths = lengths_of(text, at);
    if is_header(text, at) {
        Ok(lengths)
    } else {
        Err(lengths)
    }
}
