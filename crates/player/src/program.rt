// The program `play`, but for its `main`.
ghost use Rattle.std.specs.Prelude.{◌≡◌, if◌then◌else◌, Ok, Err, nat_le};
ghost use Rattle.bundle.specs.declared.refusal.Fault.TheVariants as fault;
ghost use Rattle.bundle.specs.Format.{refused_at};
ghost use Rattle.model.specs.Core.{places};
ghost use Rattle.design.specs.Views.{core};

use crate::buffers::Buffers;
use crate::run::{Cycle, play};
use bundle::Refusal;
use console::{Stop, finish, first_bytes, places_within};
use decode::read_design;
use design::Design;
use levels::Bit;
use std::alloc::Global;
use std::fs::File;
use std::process::ExitCode;

// How many places a state of this design has, if there are few enough to be played: as many as the programs take.
pub fn places_to_play(design: &Design) -> Result<usize, Refusal>
    ensures { result ≡ (if nat_le (places (core design.now)) 1024 then Ok (places (core design.now)) else Err (refused_at fault.Memory 0)) }
{
    places_within(design)
}

// The cycles of the run that the bundle and the lines stand for.
fn run(tag: &[u8], text: &[u8], heap: Global) -> Result<Vec<Cycle>, Stop> {
    let mut design = Design::new();
    read_design(&mut design, tag)?;
    let places = places_to_play(&design)?;
    let mut state = vec![in heap; Bit::Zero; places]?;
    let mut scratch = vec![in heap; Bit::Zero; 2 * places + 1024]?;
    let mut cycles = vec![in heap; Cycle { key: 0, energy: 0 }; text.len()]?;
    let mut buffers = Buffers {
        state: &mut state,
        scratch: &mut scratch,
        cycles: &mut cycles,
    };
    let count = play(&design, text, &mut buffers)?;
    cycles.truncate(count);
    Ok(cycles)
}

fn print_run(rt: &HostRuntime) -> Result<(), Stop> {
    let tag = first_bytes(File::open(rt, "tag.bin")?, rt.alloc())?;
    let text = first_bytes(rt.stdin(), rt.alloc())?;
    for cycle in &run(&tag, &text, rt.alloc())? {
        println!(rt; "{cycle}")?;
    }
    Ok(())
}

// Reads `tag.bin` and standard input, and prints the run, or the refusal. A refusal or an error ends the program with status 1.
pub fn play_program(rt: &HostRuntime) -> anyhow::Result<ExitCode> {
    finish(rt, print_run(rt))
}
