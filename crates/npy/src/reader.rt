// The reader of a file's header. It keeps the file's bytes, to the header's end, beside the place reached in them:
// document 02 asks for this struct.
ghost use Rattle.std.specs.Prelude.{◌≡◌, drop};
ghost use Rattle.npy.specs.Bookkeeping.{header_in};

use crate::header::header_at;

#[derive(Clone, Copy)]
pub struct Reader<'a> {
    pub bytes: &'a [u8],
    pub at: usize,
}

impl<'a> Reader<'a> {
    pub fn new(bytes: &'a [u8], at: usize) -> Reader<'a>
        ensures { (result.bytes ≡ bytes.entry) × (result.at ≡ at) }
    {
        Reader { bytes, at }
    }

    // The lengths of the header that stands from the place reached on, or what a text that is none says of them.
    pub fn header(self) -> Result<[usize; 3], [usize; 3]>
        ensures { result ≡ header_in (drop self.entry.at self.entry.bytes.now) }
    {
        header_at(self.bytes, self.at)
    }
}

// The same for whoever has a slice and a place.
pub fn header_of(bytes: &[u8], at: usize) -> Result<[usize; 3], [usize; 3]>
    ensures { result ≡ header_in (drop at bytes.now) }
{
    Reader::new(bytes, at).header()
}
