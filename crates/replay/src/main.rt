// Replays the calls of the file `answers` and compares everything that the Rust answered, bit for bit.
// Each line has an entry, how many calls are for it, how many of these ended in success and in each
// of the refusals 1 to 9 and 12, how many numbers were compared, and how many differ. Two more lines have
// the voxels of the shifts and zooms, each asked for alone.
#![tactic(auto)]

mod alone;
mod compare;
mod ends;

use alone::alone_line;
use answer_file::load::load;
use answer_file::print::say_end;
use answer_file::replay::Replay;
use answer_file::words::Words;
use compare::{expect_answer, expect_left};
use ends::Ends;
use one_voxel::{shift_voxel, zoom_voxel};
use recorded::call::{BLANK, Call, NO_CODE, OUTPUT_ROOM, WORK_ROOM};
use recorded::calls::{Calls, after_calls, calls_for};
use recorded::entry::Entry;
use std::io;

// Words that are no call count as a difference.
fn replay_call<'a>(call: Call<'a>, r: &mut Replay<'a>, ends: &mut Ends) {
    if call.is_call() {
        let mut output = [BLANK; OUTPUT_ROOM];
        let mut coverage = [NO_CODE; OUTPUT_ROOM];
        let mut work = [BLANK; WORK_ROOM];
        let answer = call.make(&mut output, &mut coverage, &mut work);
        ends.count(answer);
        expect_answer(call, r, answer);
        expect_left(call, r, &output, &coverage, &work);
    } else {
        r.refuse();
    }
}

// Writes one line.
fn replay_line(rt: &impl Print, file: Words, entry: Entry) -> io::Result<()> {
    let mut r = Replay::new(file);
    let mut ends = Ends::new();
    for call in Calls::of(file).filter(|call| call.entry() == entry) {
        replay_call(call, &mut r, &mut ends);
    }
    println!(rt;
        "{entry}: {} calls, answers 0 to 9, 12:{ends}, compared {} differ {}",
        calls_for(file, entry),
        r.compared,
        r.differ
    )
}

fn replay_all(rt: &impl Print, file: Words) -> io::Result<()> {
    for entry in Entry::ALL {
        replay_line(rt, file, entry)?;
    }
    alone_line(rt, file, Entry::Shift, shift_voxel)?;
    alone_line(rt, file, Entry::Zoom, zoom_voxel)?;
    say_end(rt, after_calls(file))
}

fn main(rt: HostRuntime) -> io::Result<()> {
    let mut words = [0u64; 196608];
    replay_all(&rt, load(&rt, &mut words))
}
