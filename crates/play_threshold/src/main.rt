// Plays the tag in tag.bin over the lines of standard input: `play` once more, which the gate runs here on a second tag.
#![tactic(auto)]

use std::process::ExitCode;

fn main(rt: HostRuntime) -> anyhow::Result<ExitCode> {
    player::play_program(&rt)
}
