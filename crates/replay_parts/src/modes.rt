// The Rust's border modes, by the numbers of the file.
use border::BorderMode;

pub const MODES: [BorderMode; 5] = [
    BorderMode::Constant(-3.5),
    BorderMode::Mirror,
    BorderMode::Nearest,
    BorderMode::Reflect,
    BorderMode::Wrap,
];

// A number that no mode has stands for the last.
pub fn mode_of(number: usize) -> BorderMode {
    MODES[number.min(4)]
}

// Goes through those of a set, where mode k counts 2^k.
pub fn each_of<F: FnMut(BorderMode)>(set: usize, mut go: F)
    requires { F.IsAlwaysCallable go }
{
    for (number, mode) in MODES.iter().enumerate() {
        if set >> number & 1 == 1 {
            go(*mode);
        }
    }
}
