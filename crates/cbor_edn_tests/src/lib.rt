//! Tests of the program's calls: the words of a command line, runs over devices, and the callers of `cbor_edn_examples`.
#![tactic(auto)]

#[cfg(test)]
mod callers;
#[cfg(test)]
mod commands;
#[cfg(test)]
mod devices;
#[cfg(test)]
mod ends;
#[cfg(test)]
mod file_words;
#[cfg(test)]
mod recoding;
#[cfg(test)]
mod runs;
#[cfg(test)]
mod shown;
#[cfg(test)]
mod steps;
#[cfg(test)]
mod streams;
#[cfg(test)]
mod words;
