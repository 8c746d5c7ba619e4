// Document 01, "Numbers to hold to", and what document 02 adds to them: each request there that is not
// proved is run through the public entries and printed. `stdout` holds the program to the documents'
// numbers.
#![tactic(auto)]

use border::BorderMode;
use lines::Lines;
use request::Request;
use std::io;

mod lines;
mod print;
mod runs;

// 2 by 2 by 4: each lane of the last axis is 10 20 30 40.
const VOLUME: [f64; 16] = [
    10.0, 20.0, 30.0, 40.0, 10.0, 20.0, 30.0, 40.0, 10.0, 20.0, 30.0, 40.0, 10.0, 20.0, 30.0, 40.0,
];

const OUTSIDE: BorderMode = BorderMode::Constant(-1.0);

fn ask(factors: [f64; 3], order: usize, mode: BorderMode) -> Request {
    Request {
        dims: [2, 2, 4],
        factors,
        order,
        prefilter: true,
        mode,
    }
}

// A shift on the last axis.
fn along(shift: f64, order: usize, mode: BorderMode) -> Request {
    ask([0.0, 0.0, shift], order, mode)
}

// 7 by 7 by 7 voxels, shifted by nothing.
fn still(order: usize) -> Request {
    Request {
        dims: [7, 7, 7],
        factors: [0.0, 0.0, 0.0],
        order,
        prefilter: false,
        mode: OUTSIDE,
    }
}

fn constant_lines(lines: &mut Lines<'_, impl Print>) -> io::Result<()> {
    let that = lines.shift("Constant -1, 1", along(1.0, 1, OUTSIDE), &VOLUME)?;
    lines.shift("that, then -1", along(-1.0, 1, OUTSIDE), &that)?;
    for (name, shift, order) in [
        ("Constant -1, -0.5", -0.5, 1),
        ("Constant -1, 0.5, order 0", 0.5, 0),
        ("Constant -1, -0.5, order 0", -0.5, 0),
    ] {
        lines.shift(name, along(shift, order, OUTSIDE), &VOLUME)?;
    }
    Ok(())
}

fn other_lines(lines: &mut Lines<'_, impl Print>) -> io::Result<()> {
    lines.shift("Nearest, 2", along(2.0, 1, BorderMode::Nearest), &VOLUME)?;
    lines.shift("Nearest, -2", along(-2.0, 1, BorderMode::Nearest), &VOLUME)?;
    let finer = ask([1.0, 1.0, 1.75], 1, BorderMode::Mirror);
    lines.zoom("zoom 1, 1, 1.75, Mirror", finer, &VOLUME)?;
    let far = ask([8.0, 0.0, 0.0], 1, BorderMode::Reflect);
    lines.shift("Reflect, shift 8, 0, 0", far, &VOLUME)?;
    Ok(())
}

// #103: where a neighbour with a weight was folded, and where none was.
fn folded_lines(lines: &mut Lines<'_, impl Print>) -> io::Result<()> {
    lines.shift("Reflect, 0.5", along(0.5, 1, BorderMode::Reflect), &VOLUME)?;
    lines.shift("Mirror, 0.5", along(0.5, 1, BorderMode::Mirror), &VOLUME)?;
    lines.shift(
        "Nearest, 0.25",
        along(0.25, 1, BorderMode::Nearest),
        &VOLUME,
    )?;
    for order in 1..6 {
        lines.middle(order, still(order))?;
    }
    Ok(())
}

// #104: the edge is repeated, before the scan and behind it.
fn replicated_lines(lines: &mut Lines<'_, impl Print>) -> io::Result<()> {
    for (name, shift, order) in [
        ("Replicate, -2", -2.0, 1),
        ("Replicate, 2", 2.0, 1),
        ("Replicate, 0.5", 0.5, 1),
        ("Replicate, -1,048,575.5", -1048575.5, 1),
        ("Replicate, -0.5, order 0", -0.5, 0),
    ] {
        lines.shift(name, along(shift, order, BorderMode::Replicate), &VOLUME)?;
    }
    Ok(())
}

// Not in the document, so that all four entries run: README.md says where these bits come from.
fn filter_lines(lines: &mut Lines<'_, impl Print>) -> io::Result<()> {
    let cubic = along(0.0, 3, BorderMode::Mirror);
    lines.spline_filter("spline_filter, order 3, Mirror", cubic, &VOLUME)?;
    lines.spline_filter1d(
        "spline_filter1d, axis 2, order 3, Mirror",
        cubic,
        2,
        &VOLUME,
    )
}

fn main(rt: HostRuntime) -> io::Result<()> {
    let mut lines = Lines::new(&rt);
    constant_lines(&mut lines)?;
    other_lines(&mut lines)?;
    folded_lines(&mut lines)?;
    replicated_lines(&mut lines)?;
    filter_lines(&mut lines)?;
    println!(rt; "{} requests", lines.written)
}
