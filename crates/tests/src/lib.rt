//! Tests of what no contract says and no program can be asked: texts of errors, operators, values that are no text, and
//! calls of a writer or a walk. Expected values come from gix-config-value 0.21.1 or from Git, or are derived by hand
//! from docs/GRAMMAR.md. What a program can be asked is data, in crates/git_settings/tests/rows.tsv and in the files
//! `stdin` and `stdout` of programs; faults.py lets calls of the programs fail.
#![tactic(auto)]

#[cfg(test)]
mod attributes;
#[cfg(test)]
mod colors;
#[cfg(test)]
mod flush;
#[cfg(test)]
mod memory;
#[cfg(test)]
mod refusals;
#[cfg(test)]
#[cfg(test)]
mod settings;
#[cfg(test)]
mod support;
#[cfg(test)]
mod texts;
#[cfg(test)]
mod walks;
