// One call: what it asks for, how long its buffers are and how much of them it writes, and how it is made.
// A length is cut to what the programs' buffers hold; `is_call` says whether the words are a call as
// they stand.
ghost use Rattle.std.specs.Prelude.{◌≡◌, ◌≤◌, drop, length, slice_index, nat_eq, IsTrue, if◌then◌else◌};
ghost use Rattle.recorded.specs.Bookkeeping.{input_room, output_room, work_room};
ghost use Rattle.recorded.specs.Calls.{asked, small};
ghost use Rattle.recorded.specs.Entries.{entry_of};

use crate::entry::Entry;
use answer_file::words::Words;
use coverage::counts::Counts;
use numbers::requests::{is_mode, request_of};
use refusal::Refusal;
use request::Request;
use resample::{shift, spline_filter, spline_filter1d, zoom};

// The words of a call.
pub const CALL: usize = 26;

// The places of the programs' buffers: of the input, of output and coverage, of work.
pub const INPUT_ROOM: usize = 1024;

pub const OUTPUT_ROOM: usize = 4096;

pub const WORK_ROOM: usize = 20480;

// What the buffers hold before a call: a number that no answer has, and no code.
pub const BLANK: f64 = -1234567.890625;

pub const NO_CODE: u8 = 255;

#[derive(Clone, Copy)]
pub struct Call<'a> {
    pub file: Words<'a>,
    pub words: Words<'a>,
}

// What a filter answers: it has no counts.
fn no_counts(_done: ()) -> Counts {
    Counts::none()
}

impl<'a> Call<'a> {
    pub fn entry(self) -> Entry
        ensures { result ≡ entry_of (slice_index self.entry.words.0.now 0) }
    {
        Entry::from(self.words.word(0))
    }

    // A word as a small number; 255 stands for any above it.
    fn small(self, k: usize) -> u32
        ensures { result ≡ small (slice_index self.entry.words.0.now k) }
    {
        self.words.whole(k).min(255) as u32
    }

    // What the call asks for.
    pub fn request(self) -> Request
        ensures { result ≡ asked self.entry.words.0.now }
    {
        let words = self.words;
        request_of(
            words.whole(1),
            words.whole(2),
            words.whole(3),
            words.float(4),
            words.float(5),
            words.float(6),
            words.whole(7),
            self.small(9),
            self.small(10),
            words.float(11),
        )
    }

    // A number that only shift and zoom use: 0 for a filter.
    fn sampling(self, k: usize) -> usize {
        if self.entry().samples() {
            self.words.whole(k)
        } else {
            0
        }
    }

    pub fn input_length(self) -> usize
        ensures { result ≤ input_room }
    {
        self.words.whole(13).min(INPUT_ROOM)
    }

    pub fn output_length(self) -> usize
        ensures { result ≤ output_room }
    {
        self.words.whole(14).min(OUTPUT_ROOM)
    }

    pub fn coverage_length(self) -> usize
        ensures { result ≤ output_room }
    {
        self.sampling(15).min(OUTPUT_ROOM)
    }

    pub fn work_length(self) -> usize
        ensures { result ≤ work_room }
    {
        self.sampling(16).min(WORK_ROOM)
    }

    // The number of the answer.
    pub fn number(self) -> u64
        ensures { result ≡ slice_index self.entry.words.0.now 17 }
    {
        self.words.word(17)
    }

    pub fn counts(self) -> Counts
        ensures { let words = self.entry.words.0.now in result ≡ record { computed = slice_index words 18; filled = slice_index words 19; defaulted = slice_index words 20; folded = slice_index words 21 } }
    {
        let words = self.words;
        Counts {
            computed: words.whole(18),
            filled: words.whole(19),
            defaulted: words.whole(20),
            folded: words.whole(21),
        }
    }

    // How many of the places lent for values or for codes are written: none by a refusal.
    pub fn written(self, lent: usize) -> usize
        ensures at_most { result ≤ lent }
        ensures value { result ≡ (if nat_eq (slice_index self.entry.words.0.now 17) 0 then lent else 0) }
    {
        if self.number() == 0 { lent } else { 0 }
    }

    // How many of the places lent for work hold coefficients.
    pub fn coefficients(self, lent: usize) -> usize
        ensures { result ≤ lent }
    {
        self.sampling(25).min(lent)
    }

    // The words of the pool from the place on that word k names.
    fn pooled(self, k: usize) -> Words<'a>
        ensures { result.0.now ≡ drop (slice_index self.entry.words.0.now k) (drop 1 self.entry.file.0.now) }
    {
        self.file.pool(self.words.whole(k))
    }

    pub fn input_words(self) -> Words<'a>
        ensures { result.0.now ≡ drop (slice_index self.entry.words.0.now 12) (drop 1 self.entry.file.0.now) }
    {
        self.pooled(12)
    }

    pub fn value_words(self) -> Words<'a>
        ensures { result.0.now ≡ drop (slice_index self.entry.words.0.now 22) (drop 1 self.entry.file.0.now) }
    {
        self.pooled(22)
    }

    pub fn code_words(self) -> Words<'a>
        ensures { result.0.now ≡ drop (slice_index self.entry.words.0.now 23) (drop 1 self.entry.file.0.now) }
    {
        self.pooled(23)
    }

    pub fn coefficient_words(self) -> Words<'a>
        ensures { result.0.now ≡ drop (slice_index self.entry.words.0.now 24) (drop 1 self.entry.file.0.now) }
    {
        self.pooled(24)
    }

    // Whether no length was cut.
    fn fits(self) -> bool {
        let words = self.words;
        let work = self.work_length();
        self.input_length() == words.whole(13)
            && self.output_length() == words.whole(14)
            && self.coverage_length() == self.sampling(15)
            && work == self.sampling(16)
            && self.coefficients(work) == self.sampling(25)
    }

    // Whether the pool has n words from the place on that word k names.
    fn is_in_pool(self, k: usize, n: usize) -> bool {
        let pool = self.file.whole(0);
        let start = self.words.whole(k);
        start <= pool && n <= pool - start
    }

    fn is_pooled(self) -> bool {
        self.is_in_pool(12, self.input_length())
            && self.is_in_pool(22, self.written(self.output_length()))
            && self.is_in_pool(23, self.written(self.coverage_length()))
            && self.is_in_pool(24, self.coefficients(self.work_length()))
    }

    pub fn is_call(self) -> bool
        ensures { IsTrue result → 26 ≤ length self.entry.words.0.now }
    {
        self.words.has(CALL)
            && self.words.word(0) < 4
            && is_mode(self.small(10))
            && self.fits()
            && self.is_pooled()
    }

    fn ask(
        self,
        r: Request,
        input: &[f64],
        output: &mut [f64],
        coverage: &mut [u8],
        work: &mut [f64],
    ) -> Result<Counts, Refusal> {
        match self.entry() {
            Entry::Shift => shift(r, input, output, coverage, work),
            Entry::Zoom => zoom(r, input, output, coverage, work),
            Entry::SplineFilter => spline_filter(r, input, output).map(no_counts),
            Entry::SplineFilter1d => {
                spline_filter1d(r, self.words.whole(8), input, output).map(no_counts)
            }
        }
    }

    // Makes the call with as much of the buffers as it lends. Whoever makes it holds them: handed back with the answer
    // they would be copied.
    pub fn make(
        self,
        output: &mut [f64; OUTPUT_ROOM],
        coverage: &mut [u8; OUTPUT_ROOM],
        work: &mut [f64; WORK_ROOM],
    ) -> Result<Counts, Refusal> {
        let n = self.input_length();
        let values = self.output_length();
        let codes = self.coverage_length();
        let places = self.work_length();
        let mut input = [0.0; INPUT_ROOM];
        self.input_words().put_floats(&mut input[..n]);
        self.ask(
            self.request(),
            &input[..n],
            &mut output[..values],
            &mut coverage[..codes],
            &mut work[..places],
        )
    }
}
