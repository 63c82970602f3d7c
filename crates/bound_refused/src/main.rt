// `bound` on a bundle that is cut off: the gate sees that a refusal is one line and status 1.
#![tactic(auto)]

use std::process::ExitCode;

fn main(rt: HostRuntime) -> anyhow::Result<ExitCode> {
    bounder::bound_program(&rt)
}
