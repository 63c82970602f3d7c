// Bounds what any run of the tag in standard input draws: `bound` once more, which the gate runs here on a second tag.
#![tactic(auto)]

use std::process::ExitCode;

fn main(rt: HostRuntime) -> anyhow::Result<ExitCode> {
    bounder::bound_program(&rt)
}
