// The records of the file `answers`, in the words that README.md explains. No number of theirs is trusted.
ghost use Rattle.std.specs.Iterator.{at_most};

use answer_file::words::Words;
use refusal::{Refusal, number_in};

// The words of a record before the file's bytes.
const HEAD: usize = 8;

#[derive(Clone, Copy, PartialEq, Eq)]
pub enum Maker {
    NumPy,
    Hand,
}

// The words from the record's first on.
#[derive(Clone, Copy)]
pub struct Record<'a>(Words<'a>);

impl<'a> Record<'a> {
    pub fn maker(self) -> Option<Maker> {
        match self.0.word(0) {
            0 => Some(Maker::Hand),
            1 => Some(Maker::NumPy),
            _ => None,
        }
    }

    // The number of the file's bytes.
    pub fn file_length(self) -> usize {
        self.0.whole(1)
    }

    // The places of the volume that is lent.
    pub fn places_lent(self) -> usize {
        self.0.whole(2)
    }

    // Whether this is what the reader must answer.
    pub fn has_answer(self, answer: Result<(), Refusal>) -> bool {
        self.0.word(3) == u64::from(number_in(answer))
    }

    pub fn is_npy(self) -> bool {
        !self.has_answer(Err(Refusal::NotNpy))
    }

    pub fn is_read(self) -> bool {
        self.has_answer(Ok(()))
    }

    pub fn lengths(self) -> [usize; 3] {
        [self.0.whole(4), self.0.whole(5), self.0.whole(6)]
    }

    // Whether the writer must give, or not give, the file's own bytes.
    pub fn has_written(self, own: bool) -> bool {
        self.0.word(7) == u64::from(own)
    }

    fn file(self) -> Words<'a> {
        self.0.after(HEAD)
    }

    // How many words the file's bytes fill.
    fn file_words(self) -> usize {
        self.file_length().div_ceil(8)
    }

    pub fn volume(self) -> Words<'a> {
        self.file().after(self.file_words())
    }

    // How many words of a volume the record has.
    fn volume_words(self) -> usize {
        if self.is_read() {
            self.places_lent()
        } else {
            0
        }
    }

    // What comes behind the record.
    pub fn rest(self) -> Words<'a> {
        self.volume().after(self.volume_words())
    }

    // Whether none of it is cut off.
    pub fn is_whole(self) -> bool {
        self.0.has(HEAD)
            && self.file().has(self.file_words())
            && self.volume().has(self.volume_words())
    }

    // The file's bytes, as many as there are places.
    pub fn put_file(self, places: &mut [u8]) {
        let words = self.file();
        for (k, byte) in places.iter_mut().enumerate() {
            *byte = words.word(k / 8).to_le_bytes()[k % 8];
        }
    }
}

#[derive(Clone, Copy)]
pub struct Records<'a> {
    pub left: usize,
    rest: Words<'a>,
}

impl<'a> Records<'a> {
    // At most as many as the file has words: those behind its end are no records.
    pub fn new(file: Words<'a>) -> Records<'a> {
        Records {
            left: file.whole(0).min(file.len()),
            rest: file.after(1),
        }
    }

    // What comes behind the last of them.
    pub fn end(mut self) -> Words<'a> {
        for _ in &mut self {}
        self.rest
    }
}

impl<'a> Iterator for Records<'a> {
    type Item = Record<'a>;

    ghost remaining = { λ s. at_most s.left };

    fn next(&mut self) -> Option<Record<'a>> {
        self.left = self.left.checked_sub(1)?;
        let record = Record(self.rest);
        self.rest = record.rest();
        Some(record)
    }
}
