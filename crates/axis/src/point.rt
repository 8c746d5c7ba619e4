// The record of an output index: weights and neighbours, with its mark. An axis, an index, an order and a mode stand
// side by side, as in the definitions; an order is a number here and above, and each function bounds its own.
ghost use Rattle.std.specs.Prelude.{◌≡◌, ℕ, ◌<◌, ◌≤◌};
ghost use Rattle.axis.specs.Neighbours.{first_neighbour, outside, spline_mode, neighbour, neighbour_index};
ghost use Rattle.axis.specs.Bookkeeping.{Indexes};
ghost use Rattle.axis.specs.Point.{is_kept, empty, point_at, kept_point, neighbours, beside_at, some_beside};
ghost use Rattle.axis.specs.Bookkeeping.{Reached, Kept};

use crate::coordinate::{Axis, float_of, settled_at};
use crate::splines::{base_of, build_splines, order_on};
use border::{BorderMode, map_coordinates};

// What a record does: it reads its neighbours, its index is dropped, or kept at order 0 but outside.
#[derive(Clone, Copy)]
pub enum Mark {
    Reads,
    Dropped,
    Beside,
}

impl Mark {
    // Whether a record with this mark is one of a kept index.
    pub fn is_kept(self) -> bool
        ensures { result ≡ is_kept self }
    {
        !matches!(self, Mark::Dropped)
    }
}

// Document 01's record: six weights and six neighbours. All are 0 where it reads none.
#[derive(Clone, Copy)]
pub struct Point {
    pub mark: Mark,
    pub weight: [f64; 6],
    pub at: [usize; 6],
}

// What an output index of an axis reads.
pub fn point_at(a: Axis, i: usize, order: usize, mode: BorderMode) -> Point
    requires { Reached order a i }
    ensures { result ≡ point_at order mode a i }
{
    let to = settled_at(a, i, mode);
    if to > -1.0 {
        kept_point(to, a.len, order_on(a.len, order), mode)
    } else {
        empty(Mark::Dropped)
    }
}

fn empty(mark: Mark) -> Point
    ensures { result ≡ empty mark }
{
    Point {
        mark,
        weight: [0.0; 6],
        at: [0; 6],
    }
}

fn kept_point(to: f64, len: usize, order: usize, mode: BorderMode) -> Point
    requires { Kept order len to }
    ensures { result ≡ kept_point order mode len to }
{
    let first = first_neighbour(order, to);
    let out = is_outside(first, len, order);
    if order == 0 && out {
        return empty(Mark::Beside);
    }
    Point {
        mark: Mark::Reads,
        weight: build_splines(to, order),
        at: neighbours_from(first, out, len, order, mode),
    }
}

pub(crate) fn first_neighbour(order: usize, to: f64) -> f64
    ensures { result ≡ first_neighbour order to }
{
    base_of(order, to) - float_of(order / 2)
}

// Whether one of the order + 1 neighbours lies outside.
fn is_outside(first: f64, len: usize, order: usize) -> bool
    ensures { result ≡ outside order len first }
{
    first < 0.0 || first + float_of(order) >= float_of(len)
}

// The mode that folds the neighbours: Constant, Wrap and Replicate have no fold of their own there.
fn spline_mode(mode: BorderMode) -> BorderMode
    ensures { result ≡ spline_mode mode }
{
    match mode {
        BorderMode::Constant(_) | BorderMode::Mirror | BorderMode::Wrap => BorderMode::Mirror,
        BorderMode::Nearest | BorderMode::Replicate => BorderMode::Nearest,
        BorderMode::Reflect => BorderMode::Reflect,
    }
}

fn neighbour_at(first: f64, out: bool, len: usize, mode: BorderMode, k: usize) -> usize
    requires { Indexes (neighbour mode out len first k) }
    ensures { result ≡ neighbour_index mode out len first k }
{
    let x = first + float_of(k);
    let there = if out {
        map_coordinates(x, float_of(len), spline_mode(mode))
    } else {
        x
    };
    std::num::truncating_f64_to_u64(there) as usize
}

// The neighbours; the other places hold 0.
fn neighbours_from(first: f64, out: bool, len: usize, order: usize, mode: BorderMode) -> [usize; 6]
    requires order_bound { order ≤ 5 }
    requires out_value { out ≡ outside order len first }
    requires by_index { (k : ℕ) → k ≤ order → Indexes (neighbour mode out len first k) }
    ensures { result ≡ neighbours mode order len first }
{
    let mut at = [0; 6];
    for k in 0..order + 1 {
        at[k] = neighbour_at(first, out, len, mode, k);
    }
    at
}

// Whether order 0 would read outside the axis at output index i.
fn is_beside(a: Axis, i: usize, mode: BorderMode) -> bool
    ensures { result ≡ beside_at mode a i }
{
    let to = settled_at(a, i, mode);
    to > -1.0 && is_outside(first_neighbour(0, to), a.len, 0)
}

// Whether it would at some output index: refusal 9 stands on it.
pub fn some_beside(a: Axis, mode: BorderMode) -> bool
    ensures { result ≡ some_beside mode a }
{
    (0..a.out).any(|i| is_beside(a, i, mode))
}
