//! Memories of shared pages at work: the tests of the public calls of `page_tree`, and of programs that run over it.
#![tactic(auto)]

#[cfg(test)]
mod tests;
