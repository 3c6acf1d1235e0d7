#![tactic(auto)]

// Tests of whole runs.
#[cfg(test)]
mod tests;
