// The four entries.
ghost use Rattle.std.specs.Prelude.{◌≡◌};
ghost use Rattle.recorded.specs.Entries.{entry_of, samples};

use std::fmt;

#[derive(Clone, Copy, PartialEq, Eq)]
pub enum Entry {
    Shift,
    Zoom,
    SplineFilter,
    SplineFilter1d,
}

impl Entry {
    pub const ALL: [Entry; 4] = [
        Entry::Shift,
        Entry::Zoom,
        Entry::SplineFilter,
        Entry::SplineFilter1d,
    ];

    // Whether the entry has a use for coverage and work: a filter has none.
    pub fn samples(self) -> bool
        ensures { result ≡ samples self }
    {
        matches!(self, Entry::Shift | Entry::Zoom)
    }
}

// What asks for no entry counts as a call of the last.
impl From<u64> for Entry {
    ghost from_gives = { λ word r. r ≡ entry_of word };

    fn from(word: u64) -> Entry {
        match word {
            0 => Entry::Shift,
            1 => Entry::Zoom,
            2 => Entry::SplineFilter,
            _ => Entry::SplineFilter1d,
        }
    }
}

impl fmt::Display for Entry {
    fn fmt<W: fmt::Write>(&self, f: &mut fmt::Formatter<W>) -> fmt::Result {
        f.write_str(match self {
            Entry::Shift => "shift",
            Entry::Zoom => "zoom",
            Entry::SplineFilter => "spline_filter",
            Entry::SplineFilter1d => "spline_filter1d",
        })
    }
}
