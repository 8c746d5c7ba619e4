// What the reader and the writer answer for a file and leave in the buffers, against its record.
use crate::records::Record;
use answer_file::replay::Replay;
use npy::{dims, read, size, write};
use refusal::{Refusal, number_in};

// What the buffers hold before a call: a length, and the bits of a voxel, that no record has.
const NO_LENGTH: usize = 987654321;

pub const NO_VOXEL: u64 = 0x9876_5432_1012_3456;

// The bytes of the largest file written: a header of 128, and 64 voxels.
const WRITTEN_ROOM: usize = 640;

// Only the first refusal is one of `dims`, and after it the lengths are what they were.
pub fn expect_dims(r: &mut Replay, record: Record, file: &[u8]) {
    let mut lengths = [NO_LENGTH; 3];
    let answer = dims(file, &mut lengths);
    let (wanted, wanted_lengths) = if record.is_npy() {
        (Ok(()), record.lengths())
    } else {
        (Err(Refusal::NotNpy), [NO_LENGTH; 3])
    };
    r.count(number_in(answer) == number_in(wanted));
    for (length, wanted) in lengths.iter().zip(&wanted_lengths) {
        r.count(length == wanted);
    }
}

// After a refusal the voxels are what they were.
pub fn expect_read(r: &mut Replay, record: Record, file: &[u8], volume: &mut [u64]) {
    let answer = read(file, volume);
    r.count(record.has_answer(answer));
    let is_read = record.is_read();
    let wanted = record.volume();
    for (k, voxel) in volume.iter().enumerate() {
        r.count(*voxel == if is_read { wanted.word(k) } else { NO_VOXEL });
    }
}

// A file that is read is written again. One that is larger than the buffer counts as a difference.
pub fn expect_write(r: &mut Replay, record: Record, file: &[u8], volume: &mut [u64]) {
    if !record.is_read() {
        return;
    }
    let mut lengths = [NO_LENGTH; 3];
    let _ = dims(file, &mut lengths);
    let _ = read(file, volume);
    let n = size(lengths);
    if n > WRITTEN_ROOM {
        return r.refuse();
    }
    let mut room = [0u8; WRITTEN_ROOM];
    let written = &mut room[..n];
    let answer = write(lengths, volume, written);
    r.count(answer.is_ok());
    r.count(record.has_written(file == written));
}
