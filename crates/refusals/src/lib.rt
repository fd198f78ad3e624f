// Tests of what no transcript shows. A crate of its own, since a crate with tests is proved twice.
#![tactic(auto)]

#[cfg(test)]
mod tests;
