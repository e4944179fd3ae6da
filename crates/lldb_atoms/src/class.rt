//! Classes of free blocks.
ghost use Rattle.std.specs.Prelude.{◌≡◌, ◌≤◌};
ghost use Rattle.lldb_atoms.specs.Lists.{class_of, IsClass};

/// The number of the list in which a free block of so many atoms stands.
#[tactic(auto, using(crate::proofs::Classes::class_by_log, crate::proofs::Classes::class_known))]
pub fn class_of(atoms: u64) -> u8
    requires { 1 ≤ atoms }
    ensures value { result ≡ class_of atoms }
    ensures class { IsClass atoms result }
{
    atoms.ilog2().min(15) as u8
}
