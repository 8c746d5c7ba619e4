// Replays what the oracle computed, bit for bit: the file `answers`, whose layout README.md has.
// Each line written has a kind of answer, how many numbers were compared, and how many differ.
#![tactic(auto)]

mod axes;
mod filters;
mod modes;
mod pads;

use answer_file::load::load;
use answer_file::print::say_end;
use answer_file::replay::Replay;
use answer_file::words::Words;
use axes::{axis_case, fold_case, length_case, rounding_case, weights_case};
use filters::{lane_case, volume_case};
use pads::pad_case;
use std::io;

// The file, and from which of its words on the next section stands.
#[derive(Clone, Copy)]
struct Sections<'a> {
    file: Words<'a>,
    rest: Words<'a>,
}

impl<'a> Sections<'a> {
    // They stand behind the pool.
    fn new(file: Words<'a>) -> Sections<'a> {
        Sections {
            file,
            rest: file.pool(file.whole(0)),
        }
    }

    // A section: the number of its cases, then each of them, and the line that is written of it.
    fn replay<F: Fn(&mut Replay<'_>, Words<'_>)>(
        &mut self,
        rt: &impl Print,
        name: &str,
        case: &F,
    ) -> io::Result<()>
        requires { F.IsAlwaysCallable case.now }
    {
        let cases = self.rest.whole(0);
        let mut r = Replay::new(self.rest.after(1));
        if cases > self.file.len() {
            r.refuse();
        } else {
            for _ in 0..cases {
                case(&mut r, self.file);
            }
        }
        self.rest = r.rest;
        println!(rt; "{name} {} differ {}", r.compared, r.differ)
    }
}

fn main(rt: HostRuntime) -> io::Result<()> {
    let mut room = [0u64; 98304];
    let mut sections = Sections::new(load(&rt, &mut room));
    sections.replay(&rt, "roundings", &|r, _| rounding_case(r))?;
    sections.replay(&rt, "lengths", &|r, _| length_case(r))?;
    sections.replay(&rt, "folds", &|r, _| fold_case(r))?;
    sections.replay(&rt, "weights", &|r, _| weights_case(r))?;
    sections.replay(&rt, "records", &|r, _| axis_case(r))?;
    sections.replay(&rt, "lanes", &lane_case)?;
    sections.replay(&rt, "volumes", &volume_case)?;
    sections.replay(&rt, "pads", &pad_case)?;
    say_end(&rt, sections.rest)
}
