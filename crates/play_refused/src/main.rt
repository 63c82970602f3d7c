// `play` over a line that is not whole: the gate sees that a refusal is one line and status 1.
#![tactic(auto)]

use std::process::ExitCode;

fn main(rt: HostRuntime) -> anyhow::Result<ExitCode> {
    player::play_program(&rt)
}
