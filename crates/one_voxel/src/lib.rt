// One output voxel of `shift` or `zoom`, worked out afresh: no table, no block of voxels, no buffer of
// its own beyond three records. What is admitted is what the volume engine admits, and no caller has
// checked anything.
#![tactic(auto)]

ghost use Rattle.std.specs.Prelude.{◌≡◌, [], ◌∷◌, ◌≤◌, length};
ghost use Rattle.request.specs.Sizes.{needed};
ghost use Rattle.refusal.specs.Bookkeeping.{Admitted};
ghost use Rattle.one_voxel.specs.Call.{voxel_of, voxel_call_of, shift_voxel_call, zoom_voxel_call};
ghost use Rattle.one_voxel.specs.Bookkeeping.{Inside};

use crate::value::value_of;
use coverage::cover::own_code;
use refusal::Refusal;
use refusal::verdicts::{shift_voxel_verdict, zoom_voxel_verdict};
use request::sizes::{shift_axes, zoom_axes, zoom_dims};
use request::{Axes, Request};

pub mod point;
mod records;
mod sum;
mod value;

// The code is the byte that the caller is lent.
#[derive(Clone, Copy)]
pub struct Voxel {
    pub value: f64,
    pub code: u8,
}

// The voxel of an admitted request of any mode, at an index for each axis.
pub fn voxel_of(r: Request, a: Axes, input: &[f64], work: &[f64], at: [usize; 3]) -> Voxel
    requires admitted { Admitted r a (length input.now) }
    requires r_in_bounds { needed r ≤ length work.now }
    requires inside { Inside a at }
    ensures { result ≡ voxel_of r a input.now work.now at }
{
    let value = value_of(r, a, input, work, at);
    let code = own_code(a.x, a.y, a.z, r.order, r.mode, at[0], at[1], at[2]);
    Voxel { value, code }
}

fn put(value: &mut [f64], code: &mut [u8], v: Voxel)
    requires { (length value.old ≡ 1) × (length code.old ≡ 1) }
    ensures { (value.new ≡ v.value ∷ []) × (code.new ≡ v.code ∷ []) }
{
    value[0] = v.value;
    code[0] = v.code;
}

// Not one with zoom_voxel: each is its checks and its axes, and what they share is voxel_of and put.
pub fn shift_voxel(
    r: Request,
    input: &[f64],
    work: &[f64],
    at: [usize; 3],
    value: &mut [f64],
    code: &mut [u8],
) -> Result<(), Refusal>
    ensures { voxel_call_of result value.new code.new ≡ shift_voxel_call r input.now work.now at value.old code.old }
{
    shift_voxel_verdict(r, input, value.len(), code.len(), work.len(), at)?;
    put(value, code, voxel_of(r, shift_axes(r), input, work, at));
    Ok(())
}

pub fn zoom_voxel(
    r: Request,
    input: &[f64],
    work: &[f64],
    at: [usize; 3],
    value: &mut [f64],
    code: &mut [u8],
) -> Result<(), Refusal>
    ensures { voxel_call_of result value.new code.new ≡ zoom_voxel_call r input.now work.now at value.old code.old }
{
    zoom_voxel_verdict(r, input, value.len(), code.len(), work.len(), at)?;
    let a = zoom_axes(r, zoom_dims(r));
    put(value, code, voxel_of(r, a, input, work, at));
    Ok(())
}
