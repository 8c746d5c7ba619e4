// The whole shifts that are run, and where they take the voxels, by whole numbers alone.
ghost use Rattle.std.specs.Prelude.{◌<◌, ◌≤◌, IfSome};

use std::num::nearest_usize_to_f64;

// The volume is 3 by 4 by 5.
pub const VOXELS: usize = 60;

// The shifts are numbered: the near ones below NEAR, then the far ones, below ALL.
pub const NEAR: usize = 315;

pub const ALL: usize = 339;

// A shift along one axis: `up` less `down`, so that neither has a sign.
#[derive(Clone, Copy, Default)]
struct Step {
    up: usize,
    down: usize,
}

#[derive(Clone, Copy, Default)]
pub struct Steps {
    x: Step,
    y: Step,
    z: Step,
}

impl Step {
    fn opposite(self) -> Step {
        Step {
            up: self.down,
            down: self.up,
        }
    }

    fn number(self) -> f64 {
        nearest_usize_to_f64(self.up) - nearest_usize_to_f64(self.down)
    }

    // The index less the shift, if the axis has it.
    fn source(self, index: usize, length: usize) -> Option<usize>
        ensures { IfSome result (λ source. source < length) }
    {
        let source = index.checked_add(self.down)?.checked_sub(self.up)?;
        (source < length).then_some(source)
    }

    // How many indices of an axis stay inside.
    fn staying(self, length: usize) -> usize
        ensures { result ≤ length }
    {
        length.saturating_sub(self.up.abs_diff(self.down))
    }
}

impl Steps {
    pub fn numbered(n: usize) -> Steps {
        if n < NEAR { near(n) } else { far(n - NEAR) }
    }

    pub fn opposite(self) -> Steps {
        Steps {
            x: self.x.opposite(),
            y: self.y.opposite(),
            z: self.z.opposite(),
        }
    }

    pub fn numbers(self) -> [f64; 3] {
        [self.x.number(), self.y.number(), self.z.number()]
    }

    // The place of the voxel that is taken to `place`.
    pub fn source(self, place: usize) -> Option<usize> {
        let x = self.x.source(place / 20, 3)?;
        let y = self.y.source(place / 5 % 4, 4)?;
        let z = self.z.source(place % 5, 5)?;
        Some(x * 20 + y * 5 + z)
    }

    // How many voxels stay inside.
    pub fn staying(self) -> usize
        ensures { result ≤ 60 }
    {
        self.x.staying(3) * self.y.staying(4) * self.z.staying(5)
    }
}

// Every shift that leaves a voxel inside: 5 by 7 by 9 of them.
fn near(n: usize) -> Steps {
    Steps {
        x: Step {
            up: n / 63,
            down: 2,
        },
        y: Step {
            up: n / 9 % 7,
            down: 3,
        },
        z: Step { up: n % 9, down: 4 },
    }
}

// Up by the axis's length or by more, or down as far.
fn far_step(n: usize, length: usize) -> Step {
    let size = match n / 2 {
        0 => length,
        1 => 4096,
        2 => 100000,
        _ => 1048575,
    };
    let up = Step { up: size, down: 0 };
    if n % 2 == 0 { up } else { up.opposite() }
}

// One axis far, the other two not at all: 3 axes by 8 steps.
fn far(n: usize) -> Steps {
    let step = n % 8;
    let still = Steps::default();
    match n / 8 {
        0 => Steps {
            x: far_step(step, 3),
            ..still
        },
        1 => Steps {
            y: far_step(step, 4),
            ..still
        },
        _ => Steps {
            z: far_step(step, 5),
            ..still
        },
    }
}
