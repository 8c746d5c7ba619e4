// The writer's header, put from left to right.
ghost use Rattle.std.specs.Prelude.{◌≡◌, [], ◌++◌, ◌+◌, ◌-◌, ◌≤◌, length, take};
ghost use Rattle.npy.specs.File.{digit, place_of, decimal, spaces, written_header};
ghost use Rattle.npy.specs.Bookkeeping.{written_lengths};

use std::marker::Model;

// The bytes of a header of ours.
pub const HEADER: usize = 128;

// A header, as far as it is put; it stands on the stack, since a library crate here allocates nothing.
#[derive(Drop)]
struct Draft {
    bytes: [u8; HEADER],
    end: usize,
}

impl Model for Draft {
    ghost use Rattle.std.specs.Prelude.{List, ℕ, ◌≤◌, take};

    ghost Value = { List ℕ };

    ghost view = { λ h. take h.end h.bytes };

    ghost invariant = { λ h. h.end ≤ 128 };
}

// A byte, where the library's `from_digit` gives a char.
fn digit_of(n: usize) -> u8
    ensures { result ≡ digit n }
{
    b'0' + (n % 10) as u8
}

impl Draft {
    fn new() -> Draft
        ensures { result ≡ [] }
    {
        Draft {
            bytes: [0; HEADER],
            end: 0,
        }
    }

    fn as_slice(&self) -> &[u8]
        ensures { result.now ≡ self.now }
    {
        &self.bytes[..self.end]
    }

    fn put(&mut self, text: &[u8])
        requires { length self.old + length text.now ≤ 128 }
        ensures { self.new ≡ self.old ++ text.now }
    {
        let end = self.end + text.len();
        self.bytes[self.end..end].copy_from_slice(text);
        self.end = end;
    }

    // The digit of n at the place of p, unless it and those before it are zeros.
    fn put_place(&mut self, n: usize, p: usize)
        requires p_above_0 { 1 ≤ p }
        requires room { length self.old + 1 ≤ 128 }
        ensures { self.new ≡ self.old ++ place_of n p }
    {
        if n >= p {
            self.put(&[digit_of(n / p)]);
        }
    }

    // By hand: the definition decimal is of four digits, and a Formatter gives a Result.
    #[tactic(auto, unfolding(crate::specs::File::decimal))]
    fn put_decimal(&mut self, n: usize)
        requires { length self.old + 4 ≤ 128 }
        ensures { self.new ≡ self.old ++ decimal n }
    {
        self.put_place(n, 1000);
        self.put_place(n, 100);
        self.put_place(n, 10);
        self.put(&[digit_of(n)]);
    }

    // The three lengths, with a comma and a space between them.
    fn put_lengths(&mut self, d: [usize; 3])
        requires { length self.old + 16 ≤ 128 }
        ensures { self.new ≡ self.old ++ written_lengths d }
    {
        self.put_decimal(d[0]);
        self.put(b", ");
        self.put_decimal(d[1]);
        self.put(b", ");
        self.put_decimal(d[2]);
    }

    fn put_spaces(&mut self, to: usize)
        requires room { to ≤ 128 }
        requires ahead { length self.old ≤ to }
        ensures { self.new ≡ self.old ++ spaces (to - length self.old) }
    {
        self.bytes[self.end..to].fill(b' ');
        self.end = to;
    }
}

// The header of a volume of these lengths.
pub fn put_header(bytes: &mut [u8], d: [usize; 3])
    requires { 128 ≤ length bytes.old }
    ensures { take 128 bytes.new ≡ written_header d }
{
    let mut header = Draft::new();
    header.put(b"\x93NUMPY\x01\x00\x76\x00");
    header.put(b"{'descr': '<f8', 'fortran_order': False, 'shape': (");
    header.put_lengths(d);
    header.put(b"), }");
    header.put_spaces(HEADER - 1);
    header.put(b"\n");
    bytes[..HEADER].copy_from_slice(header.as_slice());
}
