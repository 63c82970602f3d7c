// Plays the tag in tag.bin over the lines of standard input.
#![tactic(auto)]

use std::process::ExitCode;

fn main(rt: HostRuntime) -> anyhow::Result<ExitCode> {
    player::play_program(&rt)
}
