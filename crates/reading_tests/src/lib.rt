#![tactic(auto)]

// Tests of the crate `reading`, in a crate of their own so that `reading` is proved once.
#[cfg(test)]
mod tests;
