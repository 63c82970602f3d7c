#![tactic(auto)]

// Tests of bundles at their limits, and of runs that can be worked out by hand. There is no other code here.
#[cfg(test)]
mod tests;
