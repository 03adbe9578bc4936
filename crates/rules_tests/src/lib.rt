// Runs of calls of `match_rules` that take memory and that no program makes, since no clause says that memory is left.
#![tactic(auto)]

#[cfg(test)]
mod tests;
