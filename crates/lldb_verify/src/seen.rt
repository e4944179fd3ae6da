//! The block at an atom, without its content.
ghost use Rattle.std.specs.Prelude.{◌≡◌, ℕ, ◌+◌, ◌-◌, ◌*◌, ◌/◌, ◌<◌, ◌≤◌, List, IsTrue, length, take, drop, min, IfOk, OnOk, IfSome, option_map, nat_eq, [], ◌∷◌};
ghost use Rattle.std.specs.List.{ends_with};
ghost use Rattle.lldb_base.specs.Trouble.{IsCausedTrouble, Refuses};
ghost use Rattle.lldb_atoms.specs.Heads.{atoms_of, ending_of, IsValid};
ghost use Rattle.lldb_atoms.specs.Blocks.{tile_at, tile_on};
ghost use Rattle.lldb_verify.specs.Reads.{OnlyReads, Holds, seen_of, seen_atoms, one_used, plain_of, compressed_as};

use crate::reading::read_through;
use crate::window::Window;
use lldb_atoms::{Block, atoms_of, read_head, tail};
use lldb_base::{Filer, Trouble};

/// A block of which all bytes but those of its content were looked at.
#[derive(Clone, Copy, Debug)]
pub(crate) enum Seen {
    Used {
        atoms: u64,
    },
    Compressed {
        atoms: u64,
    },
    Relocated {
        target: u64,
    },
    Free {
        atoms: u64,
        previous: u64,
        next: u64,
    },
}

impl Seen {
    /// Whether it is a used block. A compressed one counts as used.
    pub fn is_used(&self) -> bool
        ensures { result ≡ nat_eq (one_used self.now) 1 }
    {
        match *self {
            Seen::Used { .. } => true,
            Seen::Compressed { .. } => true,
            Seen::Relocated { .. } => false,
            Seen::Free { .. } => false,
        }
    }

    /// How many atoms it takes.
    pub fn atoms(&self) -> u64
        ensures { result ≡ seen_atoms self.now }
    {
        match *self {
            Seen::Used { atoms } => atoms,
            Seen::Compressed { atoms } => atoms,
            Seen::Relocated { .. } => 1,
            Seen::Free { atoms, .. } => atoms,
        }
    }
}

/// A block that ends as its head wants.
fn plain(block: &Block) -> Seen
    ensures seen { result ≡ plain_of block.now }
    ensures atoms { seen_atoms result ≡ atoms_of block.now }
{
    match *block {
        Block::Short { .. } => Seen::Used {
            atoms: atoms_of(block),
        },
        Block::Long { .. } => Seen::Used {
            atoms: atoms_of(block),
        },
        Block::Relocated { target } => Seen::Relocated { target },
        Block::FreeOne { prev, next } => Seen::Free {
            atoms: 1,
            previous: prev,
            next,
        },
        Block::Free { atoms, prev, next } => Seen::Free {
            atoms,
            previous: prev,
            next,
        },
    }
}

/// A block that ends in a 1: a compressed one, or none.
fn compressed(block: &Block) -> Option<Seen>
    ensures seen { result ≡ compressed_as block.now }
    ensures atoms { IfSome result (λ seen. seen_atoms seen ≡ atoms_of block.now) }
{
    match *block {
        Block::Short { .. } => Some(Seen::Compressed {
            atoms: atoms_of(block),
        }),
        Block::Long { .. } => Some(Seen::Compressed {
            atoms: atoms_of(block),
        }),
        Block::Relocated { .. } => None,
        Block::FreeOne { .. } => None,
        Block::Free { .. } => None,
    }
}

/// Whether bytes that end so end as the head of the block wants.
#[tactic(auto, using(crate::proofs::Sees::ending_taken))]
fn ends_right(block: &Block, end: &[u8; 8]) -> bool
    requires { IsValid block.now }
    ensures { result ≡ ends_with nat_eq end.now (ending_of block.now) }
{
    let mut ending = [0; 8];
    let count = tail(block, &mut ending) as usize;
    end.ends_with(&ending[..count])
}

/// Whether bytes that end so end in a 1.
fn ends_in_one(end: &[u8; 8]) -> bool
    ensures { result ≡ ends_with nat_eq end.now (1 ∷ []) }
{
    end.ends_with(&[1])
}

/// What bytes with a head are, by their last eight.
#[tactic(auto, using(crate::proofs::Sees::ends_plain, crate::proofs::Sees::ends_one, crate::proofs::Sees::ends_other))]
fn judged(block: &Block, end: &[u8; 8]) -> Option<Seen>
    requires { IsValid block.now }
    ensures seen { (z : List ℕ) → length z ≡ 16 * atoms_of block.now
        → end.now ≡ drop (length z - 8) z → result ≡ option_map seen_of (tile_on block.now z) }
    ensures atoms { IfSome result (λ seen. seen_atoms seen ≡ atoms_of block.now) }
{
    let right = ends_right(block, end);
    if right {
        return Some(plain(block));
    }
    let one = ends_in_one(end);
    if one { compressed(block) } else { None }
}

/// The bytes from an atom on, as many of 32 as there are, and zeros behind them.
fn read_front<F: Filer>(filer: &mut F, window: &mut Window, atom: u64) -> Result<[u8; 32], Trouble>
    requires sound { IsTrue (F.is_sound filer.old) }
    requires within { 16 * atom ≤ F.size_of filer.old }
    requires holds { IfSome (F.content filer.old) (Holds window.old) }
    ensures read { IfOk result (λ front. IfSome (F.content filer.old)
        (λ c. take (min 32 (F.size_of filer.old - 16 * atom)) front
        ≡ take (min 32 (F.size_of filer.old - 16 * atom)) (drop (16 * atom) c))) }
    ensures holds { OnOk result (IfSome (F.content filer.old) (Holds window.new)) }
    ensures refuses { Refuses (λ _ _. ⊥) ⊥ result }
    ensures frame { OnlyReads F.content F.size_of F.saved F.saved_sizes F.limit_of F.is_sound F.told
        F.left F.fixed filer.old filer.new }
    ensures cause { IsCausedTrouble result (F.faults filer.old) (F.faults filer.new) }
{
    let mut front = [0; 32];
    let count = (filer.size() - 16 * atom).min(32) as usize;
    read_through(filer, window, 16 * atom, &mut front[..count])?;
    Ok(front)
}

/// The block that begins at an atom, where one does.
pub(crate) fn see<F: Filer>(
    filer: &mut F,
    window: &mut Window,
    atom: u64,
) -> Result<Option<Seen>, Trouble>
    requires sound { IsTrue (F.is_sound filer.old) }
    requires within { atom < F.size_of filer.old / 16 }
    requires holds { IfSome (F.content filer.old) (Holds window.old) }
    ensures seen { IfOk result (λ seen. IfSome (F.content filer.old)
        (λ c. seen ≡ option_map seen_of (tile_at (drop (16 * atom) c)))) }
    ensures within { IfOk result (λ seen. IfSome seen
        (λ s. (1 ≤ seen_atoms s) × (atom + seen_atoms s ≤ F.size_of filer.old / 16))) }
    ensures holds { OnOk result (IfSome (F.content filer.old) (Holds window.new)) }
    ensures refuses { Refuses (λ _ _. ⊥) ⊥ result }
    ensures frame { OnlyReads F.content F.size_of F.saved F.saved_sizes F.limit_of F.is_sound F.told
        F.left F.fixed filer.old filer.new }
    ensures cause { IsCausedTrouble result (F.faults filer.old) (F.faults filer.new) }
{
    let left = filer.size() / 16 - atom;
    let head = read_front(filer, window, atom)?;
    match read_head(&head, left) {
        Some(block) => {
            let mut end = [0; 8];
            let last = 16 * (atom + atoms_of(&block)) - 8;
            read_through(filer, window, last, &mut end)?;
            Ok(judged(&block, &end))
        }
        None => Ok(None),
    }
}
