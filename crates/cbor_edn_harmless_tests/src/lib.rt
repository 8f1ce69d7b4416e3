//! Tests of what acts on a terminal, and of texts without it.
#![tactic(auto)]

#[cfg(test)]
mod terminal;
#[cfg(test)]
mod texts;
