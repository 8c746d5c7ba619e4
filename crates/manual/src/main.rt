// Makes the calls of the file `answers`, whose outputs are SciPy's, and holds each value to SciPy's
// within 10^-9 of the largest input voxel. Each line has an entry, how many calls are for it, how
// many numbers were compared, and how many lie outside.
#![tactic(auto)]

mod near;

use answer_file::load::load;
use answer_file::print::{say_end, whole_part};
use answer_file::replay::Replay;
use answer_file::words::Words;
use near::hold_call;
use recorded::calls::{Calls, after_calls, calls_for};
use recorded::entry::Entry;
use std::io;

// Writes one line, and answers the widest gap of the entry's calls.
fn hold_line(rt: &impl Print, file: Words, entry: Entry) -> io::Result<f64> {
    let mut r = Replay::new(file);
    let mut widest = 0.0f64;
    for call in Calls::of(file).filter(|call| call.entry() == entry) {
        widest = widest.max(hold_call(call, &mut r));
    }
    println!(rt;
        "{entry}: {} calls, compared {} outside {}",
        calls_for(file, entry),
        r.compared,
        r.differ
    )?;
    Ok(widest)
}

fn hold_all(rt: &impl Print, file: Words) -> io::Result<()> {
    let mut widest = 0.0f64;
    for entry in Entry::ALL {
        widest = widest.max(hold_line(rt, file, entry)?);
    }
    let gap = whole_part(widest * 1000000000000000000.0);
    println!(rt; "largest gap: {gap} in 10^18 of the largest voxel")?;
    say_end(rt, after_calls(file))
}

fn main(rt: HostRuntime) -> io::Result<()> {
    let mut words = [0u64; 65536];
    hold_all(&rt, load(&rt, &mut words))
}
