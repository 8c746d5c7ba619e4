// The passes over lines, whose first n places hold a lane each. The recursive passes run over all lines at once: their
// chains of operations do not wait for each other. How long a lane is stands with each function, since a slice has no
// type that bounds it.
#![tactic(auto)]

ghost use Rattle.std.specs.Prelude.{◌≡◌, ◌≤◌, ◌<◌, ◌-◌, ◌+◌, map, length, take};
ghost use Rattle.exact.specs.Rounded.{◌⊗◌};
ghost use Rattle.limits.specs.Limits.{longest_padded};
ghost use Rattle.poles.specs.Power.{power};
ghost use Rattle.lane.specs.Bookkeeping.{lanes_in, filter_by, Room, causal_start, anticausal_start, causal_step, anticausal_step};
ghost use Rattle.lane.specs.Lane.{near_sum, whole_sum, reflect_sum, init_causal_mirror, init_causal_reflect, init_causal, init_anticausal, causal, anticausal, pass_pole};

use limits::LONGEST_PADDED;
use poles::{Pole, powi};

// What lanes are filtered by.
#[derive(Clone, Copy)]
pub struct Filter<'a> {
    pub poles: &'a [Pole],
    pub gain: f64,
    pub reflect: bool,
}

// Lines, whose first n places hold a lane each. n stands beside them: of a line that a loop over Lines lends, the
// front cannot be lent on.
pub type Lines<const LINES: usize> = [[f64; LONGEST_PADDED]; LINES];

fn scale(line: &mut [f64], n: usize, gain: f64)
    requires { n ≤ length line.old }
    ensures { take n line.new ≡ map (λ x. x ⊗ gain) (take n line.old) }
{
    for x in line[..n].iter_mut() {
        *x = *x * gain;
    }
}

// The start of `init_causal_mirror` where the cut-off is below the length.
fn near_sum(lane: &[f64], pole: Pole) -> f64
    requires { pole.cutoff < length lane.now }
    ensures { result ≡ near_sum pole.z lane.now (pole.cutoff - 1) }
{
    let mut z_i = pole.z;
    let mut sum = lane[0];
    for i in 1..pole.cutoff {
        sum = sum + z_i * lane[i];
        z_i = z_i * pole.z;
    }
    sum
}

// Its sum elsewhere, over the whole lane and its reflection. z_n_1 is z to the power n - 1.
fn whole_sum(lane: &[f64], z: f64, z_n_1: f64) -> f64
    requires le_n { 2 ≤ length lane.now }
    requires z_n_1_value { z_n_1 ≡ power z (length lane.now - 1) }
    ensures { result ≡ whole_sum z lane.now (length lane.now - 2) }
{
    let n = lane.len();
    let inv_z = 1.0 / z;
    let mut z_i = z;
    let mut z_2n_2_i = z_n_1 * z_n_1 * inv_z;
    let mut sum = lane[0] + lane[n - 1] * z_n_1;
    for i in 1..n - 1 {
        sum = sum + (z_i + z_2n_2_i) * lane[i];
        z_i = z_i * z;
        z_2n_2_i = z_2n_2_i * inv_z;
    }
    sum
}

fn init_causal_mirror(lane: &[f64], pole: Pole) -> f64
    requires { 2 ≤ length lane.now }
    ensures { result ≡ init_causal_mirror pole.z pole.cutoff lane.now }
{
    if pole.cutoff < lane.len() {
        return near_sum(lane, pole);
    }
    let z_n_1 = powi(pole.z, lane.len() - 1);
    whole_sum(lane, pole.z, z_n_1) / (1.0 - z_n_1 * z_n_1)
}

// The sum of `init_causal_reflect` up to its last turn, which reads the sum itself. z_n is z to the
// power n.
fn reflect_sum(lane: &[f64], z: f64, z_n: f64) -> f64
    requires le_n { 2 ≤ length lane.now }
    requires z_n_value { z_n ≡ power z (length lane.now) }
    ensures { result ≡ reflect_sum z lane.now (length lane.now - 1) }
{
    let n = lane.len();
    let mut z_i = z;
    let mut sum = lane[0] + z_n * lane[n - 1];
    for i in 1..n - 1 {
        sum = sum + z_i * (lane[i] + z_n * lane[n - 1 - i]);
        z_i = z_i * z;
    }
    sum + z_i * (lane[n - 1] + z_n * sum)
}

fn init_causal_reflect(lane: &[f64], z: f64) -> f64
    requires { 2 ≤ length lane.now }
    ensures { result ≡ init_causal_reflect z lane.now }
{
    let z_n = powi(z, lane.len());
    reflect_sum(lane, z, z_n) * (z / (1.0 - z_n * z_n)) + lane[0]
}

// The starts are not inlined: whoever looks for divisions in the archive finds them here, and none beside them.
#[inline(never)]
fn init_causal(lane: &[f64], pole: Pole, reflect: bool) -> f64
    requires { 2 ≤ length lane.now }
    ensures { result ≡ init_causal reflect pole lane.now }
{
    if reflect {
        init_causal_reflect(lane, pole.z)
    } else {
        init_causal_mirror(lane, pole)
    }
}

#[inline(never)]
fn init_anticausal(lane: &[f64], z: f64, reflect: bool) -> f64
    requires { 2 ≤ length lane.now }
    ensures { result ≡ init_anticausal reflect z lane.now }
{
    let n = lane.len();
    let last = lane[n - 1];
    if reflect {
        last * (z / (z - 1.0))
    } else {
        z / (z * z - 1.0) * (z * lane[n - 2] + last)
    }
}

fn start_causal(line: &mut [f64], n: usize, pole: Pole, reflect: bool)
    requires { (2 ≤ n) × (n ≤ length line.old) }
    ensures { take n line.new ≡ causal_start reflect pole (take n line.old) }
{
    line[0] = init_causal(&line[..n], pole, reflect);
}

fn start_anticausal(line: &mut [f64], n: usize, z: f64, reflect: bool)
    requires { (2 ≤ n) × (n ≤ length line.old) }
    ensures after { take n line.new ≡ anticausal_start reflect z (take n line.old) }
    ensures room { n ≤ length line.new }
{
    line[n - 1] = init_anticausal(&line[..n], z, reflect);
}

fn step_forward(line: &mut [f64], i: usize, z: f64)
    requires { (1 ≤ i) × (i < length line.old) }
    ensures { line.new ≡ causal_step z i line.old }
{
    line[i] = line[i] + z * line[i - 1];
}

// One step of the forward pass over each line.
fn causal_step<const LINES: usize>(lines: &mut Lines<LINES>, i: usize, z: f64)
    requires { (1 ≤ i) × (i < longest_padded) }
    ensures { lines.new ≡ map (causal_step z i) lines.old }
{
    for line in lines.iter_mut() {
        step_forward(line, i, z);
    }
}

// The forward pass over the lines.
fn causal_pass<const LINES: usize>(lines: &mut Lines<LINES>, n: usize, z: f64)
    requires { n ≤ longest_padded }
    ensures { lanes_in n lines.new ≡ map (causal z) (lanes_in n lines.old) }
{
    for i in 1..n {
        causal_step(lines, i, z);
    }
}

fn step_backward(line: &mut [f64], i: usize, z: f64)
    requires { i + 1 < length line.old }
    ensures { line.new ≡ anticausal_step z i line.old }
{
    line[i] = z * (line[i + 1] - line[i]);
}

// One step of the backward pass over each line.
fn anticausal_step<const LINES: usize>(lines: &mut Lines<LINES>, i: usize, z: f64)
    requires { i + 1 < longest_padded }
    ensures { lines.new ≡ map (anticausal_step z i) lines.old }
{
    for line in lines.iter_mut() {
        step_backward(line, i, z);
    }
}

// The backward pass over the lines.
fn anticausal_pass<const LINES: usize>(lines: &mut Lines<LINES>, n: usize, z: f64)
    requires le_n { (1 ≤ n) × (n ≤ longest_padded) }
    requires room { Room n lines.old }
    ensures { lanes_in n lines.new ≡ map (anticausal z) (lanes_in n lines.old) }
{
    for i in (0..n - 1).rev() {
        anticausal_step(lines, i, z);
    }
}

// The starts of the forward pass.
fn start_causals<const LINES: usize>(lines: &mut Lines<LINES>, n: usize, pole: Pole, reflect: bool)
    requires { (2 ≤ n) × (n ≤ longest_padded) }
    ensures { lanes_in n lines.new ≡ map (causal_start reflect pole) (lanes_in n lines.old) }
{
    for line in lines.iter_mut() {
        start_causal(line, n, pole, reflect);
    }
}

// The starts of the backward pass.
fn start_anticausals<const LINES: usize>(lines: &mut Lines<LINES>, n: usize, z: f64, reflect: bool)
    requires { (2 ≤ n) × (n ≤ longest_padded) }
    ensures after { lanes_in n lines.new ≡ map (anticausal_start reflect z) (lanes_in n lines.old) }
    ensures room { Room n lines.new }
{
    for line in lines.iter_mut() {
        start_anticausal(line, n, z, reflect);
    }
}

// The four steps of one pole.
fn pass_pole<const LINES: usize>(lines: &mut Lines<LINES>, n: usize, pole: Pole, reflect: bool)
    requires { (2 ≤ n) × (n ≤ longest_padded) }
    ensures { lanes_in n lines.new ≡ map (pass_pole reflect pole) (lanes_in n lines.old) }
{
    start_causals(lines, n, pole, reflect);
    causal_pass(lines, n, pole.z);
    start_anticausals(lines, n, pole.z, reflect);
    anticausal_pass(lines, n, pole.z);
}

fn scales<const LINES: usize>(lines: &mut Lines<LINES>, n: usize, gain: f64)
    requires { n ≤ longest_padded }
    ensures { lanes_in n lines.new ≡ map (map (λ x. x ⊗ gain)) (lanes_in n lines.old) }
{
    for line in lines.iter_mut() {
        scale(line, n, gain);
    }
}

// The whole filter over the lines.
pub fn filter_lines<const LINES: usize>(lines: &mut Lines<LINES>, n: usize, filter: Filter)
    requires { (2 ≤ n) × (n ≤ longest_padded) }
    ensures { lanes_in n lines.new ≡ map (filter_by filter.entry) (lanes_in n lines.old) }
{
    scales(lines, n, filter.gain);
    for pole in filter.poles {
        pass_pole(lines, n, *pole, filter.reflect);
    }
}
