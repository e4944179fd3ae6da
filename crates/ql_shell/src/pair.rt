//! Tables in memory, whose text goes to a machine.
ghost use Rattle.std.specs.Prelude.{refl};
ghost use Rattle.ql_mem_rel.specs.Formed.{well_formed};
ghost use Rattle.ql_mem_rel.specs.RelLaws.{same_schema, same_first, same_then};

use lldb_base::Trouble;
use ql_edge::{DeviceFault, NoMemory, Shows};
use ql_mem_rel::MemRel;
use ql_rel::{Rel, RelFault, Row, Schema, TableSchema};
use ql_syntax::ColumnDef;
use ql_value::Values;

/// Tables in memory, and the machine on which their text is shown.
#[derive(Drop)]
pub struct Pair<M: Shows> {
    pub tables: MemRel,
    pub machine: M,
}

impl<M: Shows> Shows for Pair<M> {
    ghost told = { λ p. M.told p.machine };

    ghost faults = { λ p. M.faults p.machine };

    ghost left = { λ p. M.left p.machine };

    ghost same = { λ x y. ⟦<MemRel as Shows>⟧.same x.tables y.tables };

    ghost fixed = { λ p. M.fixed p.machine };

    ghost same_reflexive = { λ _. same_first _ _ _ _ _ _ _ _ };

    ghost same_transitive = { λ _ _ _ p q. same_then p q };

    fn show(&mut self, piece: &[u8]) -> Result<u64, DeviceFault> {
        self.machine.show(piece)
    }

    fn warn(&mut self, piece: &[u8]) -> Result<u64, DeviceFault> {
        self.machine.warn(piece)
    }
}

impl<M: Shows> Rel for Pair<M> {
    ghost db = { λ p. ⟦<MemRel as Rel>⟧.db p.tables };

    ghost saved = { λ p. ⟦<MemRel as Rel>⟧.saved p.tables };

    ghost schema = { λ p. ⟦<MemRel as Rel>⟧.schema p.tables };

    ghost given = { λ p. ⟦<MemRel as Rel>⟧.given p.tables };

    ghost is_ready = { λ p. ⟦<MemRel as Rel>⟧.is_ready p.tables };

    ghost is_sound = { λ p. ⟦<MemRel as Rel>⟧.is_sound p.tables };

    ghost limit = { λ p. ⟦<MemRel as Rel>⟧.limit p.tables };

    ghost size = { λ p. ⟦<MemRel as Rel>⟧.size p.tables };

    fn schema(&self) -> &Schema {
        self.tables.schema()
    }

    fn depth(&self) -> u32 {
        self.tables.depth()
    }

    fn ready(&self) -> bool {
        self.tables.ready()
    }

    fn given(&self) -> u64 {
        self.tables.given()
    }

    #[tactic(auto, using(crate::proofs::Pairing::quiet))]
    fn scan(&mut self, table: u32, after: u64, row: &mut Row) -> Result<bool, RelFault> {
        self.tables.scan(table, after, row)
    }

    #[tactic(auto, using(crate::proofs::Pairing::quiet))]
    fn fetch(&mut self, table: u32, id: u64, row: &mut Row) -> Result<bool, RelFault> {
        self.tables.fetch(table, id, row)
    }

    #[tactic(auto, using(crate::proofs::Pairing::quiet))]
    fn insert(&mut self, table: u32, values: &Values) -> Result<u64, RelFault> {
        self.tables.insert(table, values)
    }

    #[tactic(auto, using(crate::proofs::Pairing::quiet))]
    fn change(&mut self, table: u32, id: u64, values: &Values) -> Result<(), RelFault> {
        self.tables.change(table, id, values)
    }

    #[tactic(auto, using(crate::proofs::Pairing::quiet))]
    fn remove(&mut self, table: u32, id: u64) -> Result<(), RelFault> {
        self.tables.remove(table, id)
    }

    #[tactic(auto, using(crate::proofs::Pairing::quiet))]
    fn create_table(&mut self, table: &TableSchema) -> Result<(), RelFault> {
        self.tables.create_table(table)
    }

    #[tactic(auto, using(crate::proofs::Pairing::quiet))]
    fn drop_table(&mut self, table: u32) -> Result<(), RelFault> {
        self.tables.drop_table(table)
    }

    #[tactic(auto, using(crate::proofs::Pairing::quiet))]
    fn truncate(&mut self, table: u32) -> Result<(), RelFault> {
        self.tables.truncate(table)
    }

    #[tactic(auto, using(crate::proofs::Pairing::quiet))]
    fn add_column(&mut self, table: u32, column: &ColumnDef) -> Result<(), RelFault> {
        self.tables.add_column(table, column)
    }

    #[tactic(auto, using(crate::proofs::Pairing::quiet))]
    fn drop_column(&mut self, table: u32, column: u32) -> Result<(), RelFault> {
        self.tables.drop_column(table, column)
    }

    fn begin(&mut self) -> Result<(), NoMemory> {
        self.tables.begin()
    }

    #[tactic(auto, using(crate::proofs::Pairing::quiet_end))]
    fn commit(&mut self) -> Result<(), Trouble> {
        self.tables.commit()
    }

    fn rollback(&mut self) {
        self.tables.rollback()
    }

    ghost within = { λ p. p.tables.present.within };

    ghost formed = { λ p _. well_formed p.tables.present p.tables.formed };

    ghost usable = { λ _ _. refl };

    ghost told_schema = { λ p. same_schema p.tables.present };

    ghost same_rel = { λ _ _ same. same };
}
