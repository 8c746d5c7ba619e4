// The file, read into words of 8 bytes, the lowest byte first.
ghost use Rattle.std.specs.Prelude.{◌≤◌, length};

use crate::words::Words;
use std::fs;
use std::io::Read;
use std::rt::Files;

// Stores as many words as there is room for, and answers how many these are. Not words::read_words, which
// asks for equal lengths.
fn put_words(words: &mut [u64], bytes: &[u8]) -> usize
    ensures { result ≤ length words.old }
{
    let (chunks, _) = bytes.as_chunks::<8>();
    let n = chunks.len().min(words.len());
    for (word, chunk) in words[..n].iter_mut().zip(chunks) {
        *word = u64::from_le_bytes(*chunk);
    }
    n
}

// Reads until the buffer is full, the file ends or a read fails. Answers how many bytes came.
fn read_full(file: &mut impl Read, buf: &mut [u8]) -> usize
    ensures { result ≤ length buf.old }
{
    let mut done = 0;
    // Each read goes on by what it gave, so no `for` counts this.
    while done < buf.len() {
        let n = file.read(&mut buf[done..]).unwrap_or(0);
        if n == 0 {
            break;
        }
        done += n;
    }
    done
}

// One read.
fn load_some(file: &mut impl Read, words: &mut [u64]) -> usize
    ensures { result ≤ length words.old }
{
    let mut buf = [0u8; 4096];
    let n = read_full(file, &mut buf);
    put_words(words, &buf[..n])
}

// As many reads as can fill the words; those past the end of the file read nothing. Answers how
// many words came.
fn load_from(file: &mut impl Read, words: &mut [u64]) -> usize
    ensures { result ≤ length words.old }
{
    let mut at = 0;
    for _ in 0..words.len() / 512 {
        at += load_some(file, &mut words[at..]);
    }
    at
}

// The file `answers`, in the places of `words`. One that cannot be opened has no words, and standard
// error says why.
pub fn load<'a>(rt: &(impl Files + Eprint), words: &'a mut [u64]) -> Words<'a>
    ensures { length result.0.now ≤ length words.old }
{
    match fs::open(rt, "answers") {
        Ok(mut file) => {
            let n = load_from(&mut file, words);
            Words(&words[..n])
        }
        Err(why) => {
            let _ = eprintln!(rt; "answers: {why}");
            Words(&[])
        }
    }
}
