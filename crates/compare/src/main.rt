// Sets the library beside a second simulator, on random small tags. It prints how often each kind of case came up and agreed, and
// ends with an error at the first case that does not agree.
#![tactic(auto)]

mod comparison;
mod damage;
mod exploring;
mod limits;
mod playing;
mod running;

use anyhow::anyhow;
use beside::Stop;
use comparison::Comparison;

const SEED: u64 = 0x7461_6773;

const TAGS: usize = 3000;

fn main(rt: HostRuntime) -> anyhow::Result<()> {
    let mut comparison = Comparison::new(SEED, rt.alloc());
    let tried = comparison.try_all(TAGS);
    comparison.tally.print(&rt)?;
    match tried {
        Ok(()) => {
            println!(rt; "all agreed")?;
            Ok(())
        }
        Err(Stop::Memory(_)) => Err(anyhow!("no memory")),
        Err(Stop::Differs(what)) => {
            let number = comparison.tally.tags;
            println!(rt; "not agreed at tag {number} of seed {SEED}: {what}")?;
            print!(rt; "the bundle read last:")?;
            for byte in comparison.shown.iter() {
                print!(rt; " {byte:02x}")?;
            }
            println!(rt)?;
            Err(anyhow!("not all agreed"))
        }
    }
}
