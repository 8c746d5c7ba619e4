// What is such a file, and where its parts stand.
ghost use Rattle.std.specs.Prelude.{◌≡◌, ◌≤◌, length, ltb};
ghost use Rattle.npy.specs.File.{text_start, text_length, largest_span, span_of, data_of};
ghost use Rattle.npy.specs.Bookkeeping.{dims_in_header, dims_in_file, Headed};

use crate::reader::header_of;
use text::literal;

// Where the header's text begins, and how long NumPy's reader lets it be.
const TEXT_START: usize = 10;

const LONGEST_TEXT: usize = 10000;

// Lengths have a smaller product, zeros left out: 2^60, as NumPy's reader asks.
const LARGEST_SPAN: usize = 1 << 60;

// How long the header's text is.
pub fn text_length(file: &[u8]) -> usize
    requires { text_start ≤ length file.now }
    ensures { result ≡ text_length file.now }
{
    usize::from(u16::from_le_bytes([file[8], file[9]]))
}

// The lengths in the header, if it is whole and is one.
fn dims_in_header(file: &[u8]) -> Option<[usize; 3]>
    ensures { result ≡ dims_in_header file.now }
{
    if literal(file, 0, b"\x93NUMPY\x01\x00") >= file.len() || file.len() < TEXT_START {
        return None;
    }
    let n = text_length(file);
    if n > LONGEST_TEXT || TEXT_START + n > file.len() {
        return None;
    }
    header_of(&file[..TEXT_START + n], TEXT_START).ok()
}

// Whether the product of the lengths, zeros left out, is small enough.
fn small_span(d: [usize; 3]) -> bool
    ensures { result ≡ ltb (span_of d) largest_span }
{
    d[0].max(1)
        .saturating_mul(d[1].max(1).saturating_mul(d[2].max(1)))
        < LARGEST_SPAN
}

// The lengths of a file of the kind.
pub fn dims_in_file(file: &[u8]) -> Option<[usize; 3]>
    ensures { result ≡ dims_in_file file.now }
{
    let d = dims_in_header(file)?;
    if small_span(d) && data_of(file).len() == d[0] * (d[1] * d[2]) * 8 {
        Some(d)
    } else {
        None
    }
}

// The voxels' bytes.
pub fn data_of(file: &[u8]) -> &[u8]
    requires { Headed file.now }
    ensures { result.now ≡ data_of file.now }
{
    &file[TEXT_START + text_length(file)..]
}
