//! Tests of whole runs, over a machine in memory.
#![tactic(auto)]

#[cfg(test)]
mod machine;
#[cfg(test)]
mod made;
#[cfg(test)]
mod script;
#[cfg(test)]
mod words;
