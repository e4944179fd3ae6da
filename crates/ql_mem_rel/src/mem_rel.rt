//! The relation in memory: tables, and a copy of them for each level.
ghost use Rattle.std.specs.Prelude.{◌≡◌, ◌+◌, ◌-◌, ◌<◌, ◌^◌, min, [], ◌∷◌, Some, None, true, vec_len, refl};
ghost use Rattle.std.proofs.Common.{◌∙◌};
ghost use Rattle.ql_rel.specs.Databases.{empty_db};
ghost use Rattle.ql_mem_rel.specs.Formed.{AllFormed, AllFormed-prop, well_formed};
ghost use Rattle.ql_mem_rel.specs.Kept.{db_of, saved_of};
ghost use Rattle.ql_mem_rel.specs.RelLaws.{same_schema, same_first, same_then};
ghost use Rattle.ql_rel.specs.Rels.{IsSameRel};
ghost use Rattle.ql_rel.specs.WellFormed.{IsWellFormed};

use crate::plain_db::PlainDb;
use crate::row_copy::read_row;
use lldb_base::{Texts, Trouble};
use ql_edge::{DeviceFault, NoMemory, Shows};
use ql_rel::{Rel, RelFault, Row, Schema, TableSchema, form_laws};
use ql_syntax::ColumnDef;
use ql_value::Values;
use std::alloc::Global;

/// Tables in memory. A level is a copy of all of them, made when it begins.
///
/// It never fails beside want of memory, and keeps what it is shown and warned.
#[derive(Drop)]
pub struct MemRel {
    alloc: Global,
    present: PlainDb,
    saved: Vec<PlainDb>,
    ready: bool,
    given: u64,
    texts: Texts,
    ghost few: { vec_len saved < 2 ^ 32 },
    ghost formed: { ∥ IsWellFormed (db_of present) ∥₁ },
    ghost saved_formed: { AllFormed saved.items } by { AllFormed-prop saved.items },
}

/// The count with one more. It stands still at 2^64-1.
fn one_more(count: u64) -> u64
    ensures { result ≡ min (count + 1) (2 ^ 64 - 1) }
{
    count.saturating_add(1)
}

impl MemRel {
    /// Tables in memory, of which there are none yet.
    #[tactic(auto, using(crate::proofs::FormedLemmas::empty_formed, crate::proofs::FormedLemmas::none_saved))]
    pub fn new(alloc: Global) -> MemRel
        ensures db { ⟦<MemRel as Rel>⟧.db result ≡ Some empty_db }
        ensures saved { ⟦<MemRel as Rel>⟧.saved result ≡ [] }
        ensures given { ⟦<MemRel as Rel>⟧.given result ≡ 0 }
        ensures ready { ⟦<MemRel as Rel>⟧.is_ready result ≡ true }
        ensures sound { ⟦<MemRel as Rel>⟧.is_sound result ≡ true }
        ensures limit { ⟦<MemRel as Rel>⟧.limit result ≡ None }
        ensures told { ⟦<MemRel as Shows>⟧.told result ≡ Some ([], []) }
    {
        form_laws();
        MemRel {
            alloc,
            present: PlainDb::new(alloc),
            saved: Vec::new(alloc),
            ready: true,
            given: 0,
            texts: Texts::new(alloc),
        }
    }
}

impl Shows for MemRel {
    ghost told = { λ m. ⟦<Texts as Shows>⟧.told m.texts };

    ghost faults = { λ m. ⟦<Texts as Shows>⟧.faults m.texts };

    ghost left = { λ m. ⟦<Texts as Shows>⟧.left m.texts };

    ghost same = { λ x y. IsSameRel (Some (db_of x.present)) (Some (db_of y.present))
        (saved_of x.saved.items) (saved_of y.saved.items) x.present.schema y.present.schema
        x.given y.given x.ready y.ready true true None None 0 0 };

    ghost fixed = { λ _. [] };

    ghost same_reflexive = { λ x. same_first _ _ _ _ _ _ _ _ };

    ghost same_transitive = { λ x y z p q. same_then p q };

    fn show(&mut self, piece: &[u8]) -> Result<u64, DeviceFault> {
        self.texts.show(piece)
    }

    fn warn(&mut self, piece: &[u8]) -> Result<u64, DeviceFault> {
        self.texts.warn(piece)
    }
}

impl Rel for MemRel {
    ghost db = { λ m. Some (db_of m.present) };

    ghost saved = { λ m. saved_of m.saved.items };

    ghost schema = { λ m. m.present.schema };

    ghost given = { λ m. m.given };

    ghost is_ready = { λ m. m.ready };

    ghost is_sound = { λ _. true };

    ghost limit = { λ _. None };

    ghost size = { λ _. 0 };

    fn schema(&self) -> &Schema {
        &self.present.schema
    }

    #[tactic(auto, using(crate::proofs::RelLemmas::saved_length))]
    fn depth(&self) -> u32 {
        self.saved.len() as u32
    }

    fn ready(&self) -> bool {
        self.ready
    }

    fn given(&self) -> u64 {
        self.given
    }

    fn scan(&mut self, table: u32, after: u64, row: &mut Row) -> Result<bool, RelFault> {
        let Some(found) = self.present.row_after(table as usize, after) else {
            return Ok(false);
        };
        read_row(self.alloc, found, row)?;
        self.given = one_more(self.given);
        Ok(true)
    }

    fn fetch(&mut self, table: u32, id: u64, row: &mut Row) -> Result<bool, RelFault> {
        let Some(found) = self.present.row_with(table as usize, id) else {
            return Ok(false);
        };
        read_row(self.alloc, found, row)?;
        self.given = one_more(self.given);
        Ok(true)
    }

    #[tactic(auto, using(crate::proofs::RelLemmas::caused, crate::proofs::RelLemmas::never_full, crate::proofs::FormedLemmas::inserted_formed, crate::proofs::FormedLemmas::same_formed))]
    fn insert(&mut self, table: u32, values: &Values) -> Result<u64, RelFault> {
        form_laws();
        self.ready = false;
        let id = self.present.insert(self.alloc, table as usize, values)?;
        self.ready = true;
        Ok(id)
    }

    #[tactic(auto, using(crate::proofs::RelLemmas::caused, crate::proofs::RelLemmas::never_full, crate::proofs::FormedLemmas::changed_formed, crate::proofs::FormedLemmas::same_formed))]
    fn change(&mut self, table: u32, id: u64, values: &Values) -> Result<(), RelFault> {
        form_laws();
        self.ready = false;
        self.present.change(self.alloc, table as usize, id, values)?;
        self.ready = true;
        Ok(())
    }

    #[tactic(auto, using(crate::proofs::FormedLemmas::removed_formed))]
    fn remove(&mut self, table: u32, id: u64) -> Result<(), RelFault> {
        form_laws();
        self.present.remove(table as usize, id);
        Ok(())
    }

    #[tactic(auto, using(crate::proofs::RelLemmas::caused, crate::proofs::RelLemmas::never_full, crate::proofs::FormedLemmas::created_formed, crate::proofs::FormedLemmas::same_formed))]
    fn create_table(&mut self, table: &TableSchema) -> Result<(), RelFault> {
        form_laws();
        self.ready = false;
        self.present.create_table(self.alloc, table)?;
        self.ready = true;
        Ok(())
    }

    #[tactic(auto, using(crate::proofs::FormedLemmas::dropped_formed, crate::proofs::FormedLemmas::same_formed))]
    fn drop_table(&mut self, table: u32) -> Result<(), RelFault> {
        form_laws();
        self.ready = false;
        self.present.drop_table(self.alloc, table as usize)?;
        self.ready = true;
        Ok(())
    }

    #[tactic(auto, using(crate::proofs::FormedLemmas::truncated_formed))]
    fn truncate(&mut self, table: u32) -> Result<(), RelFault> {
        form_laws();
        self.present.truncate(table as usize);
        Ok(())
    }

    #[tactic(auto, using(crate::proofs::RelLemmas::caused, crate::proofs::RelLemmas::never_full, crate::proofs::FormedLemmas::added_formed, crate::proofs::FormedLemmas::same_formed))]
    fn add_column(&mut self, table: u32, column: &ColumnDef) -> Result<(), RelFault> {
        form_laws();
        self.ready = false;
        self.present.add_column(self.alloc, table as usize, column)?;
        self.ready = true;
        Ok(())
    }

    #[tactic(auto, using(crate::proofs::FormedLemmas::narrowed_formed, crate::proofs::FormedLemmas::same_formed))]
    fn drop_column(&mut self, table: u32, column: u32) -> Result<(), RelFault> {
        form_laws();
        self.ready = false;
        self.present
            .drop_column(self.alloc, table as usize, column as usize)?;
        self.ready = true;
        Ok(())
    }

    #[tactic(auto, using(crate::proofs::RelLemmas::saved_push, crate::proofs::RelLemmas::saved_length, crate::proofs::FormedLemmas::same_formed, crate::proofs::FormedLemmas::more_saved))]
    fn begin(&mut self) -> Result<(), NoMemory> {
        let copy = self.present.copy(self.alloc)?;
        self.saved.push(copy)?;
        Ok(())
    }

    #[tactic(auto, using(crate::proofs::RelLemmas::saved_push, crate::proofs::RelLemmas::saved_length, crate::proofs::FormedLemmas::fewer_saved))]
    fn commit(&mut self) -> Result<(), Trouble> {
        self.saved.pop();
        Ok(())
    }

    #[tactic(auto, using(crate::proofs::RelLemmas::saved_push, crate::proofs::RelLemmas::saved_length, crate::proofs::FormedLemmas::fewer_saved, crate::proofs::FormedLemmas::last_saved, crate::proofs::FormedLemmas::same_formed))]
    fn rollback(&mut self) {
        if let Some(db) = self.saved.pop() {
            self.present = db;
        }
        if self.saved.is_empty() {
            self.ready = true;
        }
    }

    ghost within = { λ m. m.present.within };

    ghost formed = { λ m _. well_formed m.present m.formed };

    ghost usable = { λ _ _. refl };

    ghost told_schema = { λ m. same_schema m.present };

    ghost same_rel = { λ _ _ same. same };
}
