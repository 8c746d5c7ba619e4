// The code of a voxel, and its byte in a coverage.
ghost use Rattle.std.specs.Prelude.{◌≡◌};
ghost use Rattle.coverage.specs.Coverage.{number_of_code};

#[derive(Clone, Copy)]
pub enum Code {
    Computed = 0,
    Filled = 1,
    Defaulted = 2,
    Folded = 3,
}

impl From<Code> for u8 {
    ghost from_gives = { λ code number. number ≡ number_of_code code };

    fn from(code: Code) -> u8 {
        code as u8
    }
}
