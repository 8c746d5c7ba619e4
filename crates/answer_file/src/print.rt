// What programs write.
use crate::words::Words;
use std::io;

// The whole part of x, and 0 where a u64 cannot hold it.
pub fn whole_part(x: f64) -> u64 {
    if x < 18446744073709551616.0 {
        std::num::saturating_f64_to_u64(x)
    } else {
        0
    }
}

// None of the file is left at the end.
pub fn say_end(rt: &impl Print, rest: Words) -> io::Result<()> {
    if rest.has(1) {
        println!(rt; "the file goes on")?;
    }
    Ok(())
}
