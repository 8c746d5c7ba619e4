// The calls of a file, in the words that README.md explains: where they stand, one after the other.
ghost use Rattle.std.specs.Prelude.{◌≡◌, ◌*◌, ◌≤◌, drop};
ghost use Rattle.std.specs.Iterator.{at_most};
ghost use Rattle.recorded.specs.Calls.{behind_pool, number_of_calls, first_call};

use crate::call::{CALL, Call};
use crate::entry::Entry;
use answer_file::words::Words;

// The calls that are still to come.
#[derive(Drop)]
pub struct Calls<'a> {
    file: Words<'a>,
    rest: Words<'a>,
    left: usize,
}

// Where the number of calls stands.
fn behind_pool(file: Words) -> Words
    ensures { result.0.now ≡ behind_pool file.entry.0.now }
{
    file.pool(file.whole(0))
}

// At most as many as the file has words: those behind its end are no calls.
fn number_of_calls(file: Words) -> usize
    ensures { result ≡ number_of_calls file.entry.0.now }
{
    behind_pool(file).whole(0).min(file.len())
}

fn first_call(file: Words) -> Words
    ensures { result.0.now ≡ first_call file.entry.0.now }
{
    behind_pool(file).after(1)
}

impl<'a> Calls<'a> {
    pub fn of(file: Words<'a>) -> Calls<'a>
        ensures all { result.file.0.now ≡ file.entry.0.now }
        ensures first { result.rest.0.now ≡ first_call file.entry.0.now }
        ensures number { result.left ≡ number_of_calls file.entry.0.now }
    {
        Calls {
            file,
            rest: first_call(file),
            left: number_of_calls(file),
        }
    }
}

impl<'a> Iterator for Calls<'a> {
    type Item = Call<'a>;

    ghost remaining = { λ s. at_most s.left };

    fn next(&mut self) -> Option<Call<'a>> {
        self.left = self.left.checked_sub(1)?;
        let call = Call {
            file: self.file,
            words: self.rest,
        };
        self.rest = self.rest.after(CALL);
        Some(call)
    }
}

// How many calls are for the entry.
pub fn calls_for(file: Words, entry: Entry) -> usize
    ensures { result ≤ number_of_calls file.entry.0.now }
{
    Calls::of(file).filter(|call| call.entry() == entry).count()
}

// What stands behind the last call.
pub fn after_calls(file: Words) -> Words
    ensures { result.0.now ≡ drop (number_of_calls file.entry.0.now * 26) (first_call file.entry.0.now) }
{
    first_call(file).after(number_of_calls(file).saturating_mul(CALL))
}
