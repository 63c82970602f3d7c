#![tactic(auto)]

// Tests of explorations: of each refusal at its limit, and of what is recorded and left. There is no other code here.
#[cfg(test)]
mod lent;
#[cfg(test)]
mod steps;
#[cfg(test)]
mod tags;
#[cfg(test)]
mod tests;
