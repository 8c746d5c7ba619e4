// NumPy's .npy files: their lengths, the reader, the size of a file, the writer. A volume is lent as the voxels' bits, since
// a NaN has bits too. No caller has checked anything.
#![tactic(auto)]

ghost use Rattle.std.specs.Prelude.{◌≡◌};
ghost use Rattle.refusal.specs.Refusals.{first};
ghost use Rattle.npy.specs.Call.{npy_call_of, length_checks, read_checks, write_checks, dims_call, read_call, size_call, write_call};

use crate::file::{data_of, dims_in_file};
use crate::writer::{HEADER, put_header};
use limits::MOST_PLACES;
use refusal::{Refusal, refuse_if};
use request::conditions::bad_lengths;
use request::sizes::count_of;
use words::{read_words, write_words};

mod file;
pub mod header;
pub mod reader;
mod writer;

// Refusals 3 and 6, of lengths.
fn length_verdict(d: [usize; 3]) -> Result<(), Refusal>
    ensures { result ≡ first (length_checks d) }
{
    refuse_if(bad_lengths(d), Refusal::Length)?;
    refuse_if(count_of(d) > MOST_PLACES, Refusal::Count)
}

fn read_verdict(file: &[u8], volume: usize) -> Result<(), Refusal>
    ensures { result ≡ first (read_checks file.now volume) }
{
    let d = dims_in_file(file).ok_or(Refusal::NotNpy)?;
    length_verdict(d)?;
    refuse_if(volume != count_of(d), Refusal::Buffer)
}

fn write_verdict(d: [usize; 3], volume: usize, bytes: usize) -> Result<(), Refusal>
    ensures { result ≡ first (write_checks d volume bytes) }
{
    length_verdict(d)?;
    let count = count_of(d);
    refuse_if(
        volume != count || bytes != HEADER + count * 8,
        Refusal::Buffer,
    )
}

// The lengths of any file of the kind, whether or not it can be read.
#[tactic(auto, unfolding(crate::specs::Call::dims_call))]
pub fn dims(file: &[u8], dims: &mut [usize]) -> Result<(), Refusal>
    ensures { npy_call_of result dims.new ≡ dims_call file.now dims.old }
{
    let d = dims_in_file(file).ok_or(Refusal::NotNpy)?;
    refuse_if(dims.len() != 3, Refusal::Buffer)?;
    dims.copy_from_slice(&d);
    Ok(())
}

// The voxels of a file.
pub fn read(file: &[u8], volume: &mut [u64]) -> Result<(), Refusal>
    ensures { npy_call_of result volume.new ≡ read_call file.now volume.old }
{
    read_verdict(file, volume.len())?;
    read_words(volume, data_of(file));
    Ok(())
}

// How many bytes the file of a volume has; 0 where its lengths are refused.
pub fn size(d: [usize; 3]) -> usize
    ensures { result ≡ size_call d }
{
    match length_verdict(d) {
        Ok(_) => HEADER + count_of(d) * 8,
        Err(_) => 0,
    }
}

// The file of a volume.
pub fn write(d: [usize; 3], volume: &[u64], bytes: &mut [u8]) -> Result<(), Refusal>
    ensures { npy_call_of result bytes.new ≡ write_call d volume.now bytes.old }
{
    write_verdict(d, volume.len(), bytes.len())?;
    put_header(bytes, d);
    write_words(&mut bytes[HEADER..], volume);
    Ok(())
}
