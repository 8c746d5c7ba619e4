// Reads the files that `answers` holds, writes them again, and compares everything that must come of it.
// A line has how many records there are; one for each maker, how many of its files are read and how many
// meet refusals 3, 7 and 10; one for each function, how many numbers were compared, and how many differ.
#![tactic(auto)]

mod compare;
mod records;

use answer_file::load::load;
use answer_file::print::say_end;
use answer_file::replay::Replay;
use answer_file::words::Words;
use compare::{NO_VOXEL, expect_dims, expect_read, expect_write};
use records::{Maker, Record, Records};
use refusal::Refusal;
use std::io;

// The places of the buffers: of a file, and of a volume.
const FILE_ROOM: usize = 10240;

const VOLUME_ROOM: usize = 64;

// A record that is cut off or larger than the buffers counts as a difference.
fn replay_record<F: Fn(&mut Replay<'_>, Record<'_>, &[u8], &mut [u64])>(
    r: &mut Replay,
    record: Record,
    compare: &F,
)
    requires { F.IsAlwaysCallable compare.now }
{
    let n = record.file_length();
    let places = record.places_lent();
    if !record.is_whole() || n > FILE_ROOM || places > VOLUME_ROOM {
        return r.refuse();
    }
    let mut file = [0u8; FILE_ROOM];
    let mut volume = [NO_VOXEL; VOLUME_ROOM];
    record.put_file(&mut file[..n]);
    compare(r, record, &file[..n], &mut volume[..places]);
}

// Writes the line of one function, by which `compare` goes.
fn replay_line<F: Fn(&mut Replay<'_>, Record<'_>, &[u8], &mut [u64])>(
    rt: &impl Print,
    file: Words,
    name: &str,
    compare: &F,
) -> io::Result<()>
    requires { F.IsAlwaysCallable compare.now }
{
    let mut r = Replay::new(file);
    for record in Records::new(file) {
        replay_record(&mut r, record, compare);
    }
    println!(rt; "{name}: compared {} differ {}", r.compared, r.differ)
}

// How many records are of this maker and have this answer.
fn records_for(file: Words, maker: Maker, answer: Result<(), Refusal>) -> usize {
    Records::new(file)
        .filter(|record| record.maker() == Some(maker) && record.has_answer(answer))
        .count()
}

fn say_maker(rt: &impl Print, file: Words, maker: Maker, name: &str) -> io::Result<()> {
    print!(rt; "{name}: answers 0 3 7 10:")?;
    for answer in [
        Ok(()),
        Err(Refusal::Length),
        Err(Refusal::Buffer),
        Err(Refusal::NotNpy),
    ] {
        print!(rt; " {}", records_for(file, maker, answer))?;
    }
    println!(rt; "")
}

fn main(rt: HostRuntime) -> io::Result<()> {
    let mut room = [0u64; 65536];
    let file = load(&rt, &mut room);
    let records = Records::new(file);
    println!(rt; "records: {}", records.left)?;
    say_maker(&rt, file, Maker::NumPy, "written by NumPy")?;
    say_maker(&rt, file, Maker::Hand, "spelled by hand")?;
    replay_line(
        &rt,
        file,
        "dims",
        &|r, record, bytes, _| expect_dims(r, record, bytes),
    )?;
    replay_line(&rt, file, "read", &expect_read)?;
    replay_line(&rt, file, "write", &expect_write)?;
    say_end(&rt, records.end())
}
