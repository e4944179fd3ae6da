//! Tests of lldb_btree by its public calls, over a heap in memory: they stand here since a crate with tests is proved twice.
#![tactic(auto)]

#[cfg(test)]
mod broken;
#[cfg(test)]
mod cursors;
#[cfg(test)]
mod growth;
#[cfg(test)]
mod nodes;
#[cfg(test)]
mod plot;
#[cfg(test)]
mod random;
#[cfg(test)]
mod removal;
