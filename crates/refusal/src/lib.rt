// The refusals, their numbers, and which of them a call meets.
#![tactic(auto)]

ghost use Rattle.std.specs.Prelude.{◌≡◌, [], ◌∷◌};
ghost use Rattle.refusal.specs.Refusals.{number_of, number_in, when, first};

pub mod points;
pub mod verdicts;

// In the order in which they are looked for, with their numbers: document 01's nine, 1 to 9, and among
// them those of document 02, 10 before all, 12 after 4, 11 after all.
#[derive(Clone, Copy)]
pub enum Refusal {
    NotNpy = 10,
    Order = 1,
    AxisNumber = 2,
    Length = 3,
    Factor = 4,
    Slice = 12,
    OutputLength = 5,
    Count = 6,
    Buffer = 7,
    Value = 8,
    Beside = 9,
    Index = 11,
}

// What a caller of shift or zoom wants: every voxel of the output, or one.
#[derive(Clone, Copy)]
pub enum Asked {
    Volume,
    Voxel,
}

// By this name, since the definitions and the promises have it.
pub fn number_of(why: Refusal) -> u32
    ensures { result ≡ number_of why }
{
    why as u32
}

// A single check.
pub fn refuse_if(applies: bool, why: Refusal) -> Result<(), Refusal>
    ensures { result ≡ first (when why applies ∷ []) }
{
    if applies { Err(why) } else { Ok(()) }
}

// The number of an answer: 0 where nothing is refused.
pub fn number_in<T: Copy>(answer: Result<T, Refusal>) -> u32
    ensures { result ≡ number_in answer }
{
    match answer {
        Ok(_) => 0,
        Err(why) => number_of(why),
    }
}
