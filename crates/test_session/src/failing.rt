//! Tables in memory of which one call fails.
ghost use Rattle.std.specs.Prelude.{◌≡◌, ◌&&◌, [], Some, None, true, Err, refl};
ghost use Rattle.lldb_base.specs.declared.trouble.Trouble.TheVariants as trouble;
ghost use Rattle.ql_rel.specs.Databases.{empty_db};
ghost use Rattle.ql_rel.specs.Rels.{IsSameRel};
ghost use Rattle.ql_rel.specs.declared.fault.RelFault.TheVariants as fault;
ghost use Rattle.ql_mem_rel.specs.Formed.{well_formed};
ghost use Rattle.ql_mem_rel.specs.RelLaws.{same_schema, same_first, same_then};

use lldb_base::Trouble;
use ql_edge::{Bytes, DeviceFault, NoMemory, Shows};
use ql_mem_rel::MemRel;
use ql_rel::{Rel, RelFault, Row, Schema, TableSchema};
use ql_syntax::ColumnDef;
use ql_value::Values;
use std::alloc::Global;

/// Tables in memory, of which the call of a number fails for want of memory. A refused change leaves them not ready.
#[derive(Drop)]
pub struct Failing {
    pub tables: MemRel,
    pub shown: Bytes,
    /// How many calls are left up to the one that fails, itself among them; 0 behind it.
    left: u64,
    ready: bool,
}

impl Failing {
    /// Tables of which there are none yet. The first call is number 1.
    pub fn new(alloc: Global, fails: u64) -> Failing
        ensures db { ⟦<Failing as Rel>⟧.db result ≡ Some empty_db }
        ensures saved { ⟦<Failing as Rel>⟧.saved result ≡ [] }
        ensures ready { ⟦<Failing as Rel>⟧.is_ready result ≡ true }
    {
        Failing {
            tables: MemRel::new(alloc),
            shown: Bytes::new(alloc),
            left: fails,
            ready: true,
        }
    }

    /// Whether this call is the one that fails.
    fn fails(&mut self) -> bool
        ensures tables { self.new.tables ≡ self.old.tables }
        ensures shown { self.new.shown ≡ self.old.shown }
        ensures ready { self.new.ready ≡ self.old.ready }
    {
        let fails = self.left == 1;
        self.left = self.left.saturating_sub(1);
        fails
    }
}

impl Shows for Failing {
    ghost told = { λ f. Some (f.shown, []) };

    ghost faults = { λ _. 0 };

    ghost left = { λ _. Some [] };

    ghost same = { λ x y. IsSameRel (⟦<MemRel as Rel>⟧.db x.tables) (⟦<MemRel as Rel>⟧.db y.tables)
        (⟦<MemRel as Rel>⟧.saved x.tables) (⟦<MemRel as Rel>⟧.saved y.tables)
        (⟦<MemRel as Rel>⟧.schema x.tables) (⟦<MemRel as Rel>⟧.schema y.tables)
        (⟦<MemRel as Rel>⟧.given x.tables) (⟦<MemRel as Rel>⟧.given y.tables)
        (x.ready && ⟦<MemRel as Rel>⟧.is_ready x.tables)
        (y.ready && ⟦<MemRel as Rel>⟧.is_ready y.tables) true true None None 0 0 };

    ghost fixed = { λ _. [] };

    ghost same_reflexive = { λ _. same_first _ _ _ _ _ _ _ _ };

    ghost same_transitive = { λ _ _ _ p q. same_then p q };

    fn show(&mut self, piece: &[u8]) -> Result<u64, DeviceFault> {
        if self.fails() {
            return Err(DeviceFault::NoMemory);
        }
        self.shown.extend(piece)?;
        Ok(piece.len() as u64)
    }

    fn warn(&mut self, _piece: &[u8]) -> Result<u64, DeviceFault> {
        Err(DeviceFault::NoMemory)
    }
}

/// The answer of a change that ran out of memory.
fn no_memory<T>() -> Result<T, RelFault>
    ensures { result ≡ Err (fault.Trouble trouble.NoMemory) }
{
    Err(RelFault::Trouble(Trouble::NoMemory))
}

impl Rel for Failing {
    ghost db = { λ f. ⟦<MemRel as Rel>⟧.db f.tables };

    ghost saved = { λ f. ⟦<MemRel as Rel>⟧.saved f.tables };

    ghost schema = { λ f. ⟦<MemRel as Rel>⟧.schema f.tables };

    ghost given = { λ f. ⟦<MemRel as Rel>⟧.given f.tables };

    ghost is_ready = { λ f. f.ready && ⟦<MemRel as Rel>⟧.is_ready f.tables };

    ghost is_sound = { λ f. ⟦<MemRel as Rel>⟧.is_sound f.tables };

    ghost limit = { λ f. ⟦<MemRel as Rel>⟧.limit f.tables };

    ghost size = { λ f. ⟦<MemRel as Rel>⟧.size f.tables };

    fn schema(&self) -> &Schema {
        self.tables.schema()
    }

    fn depth(&self) -> u32 {
        self.tables.depth()
    }

    fn ready(&self) -> bool {
        self.ready && self.tables.ready()
    }

    fn given(&self) -> u64 {
        self.tables.given()
    }

    fn scan(&mut self, table: u32, after: u64, row: &mut Row) -> Result<bool, RelFault> {
        if self.fails() {
            return no_memory();
        }
        self.tables.scan(table, after, row)
    }

    fn fetch(&mut self, table: u32, id: u64, row: &mut Row) -> Result<bool, RelFault> {
        if self.fails() {
            return no_memory();
        }
        self.tables.fetch(table, id, row)
    }

    fn insert(&mut self, table: u32, values: &Values) -> Result<u64, RelFault> {
        if self.fails() {
            self.ready = false;
            return no_memory();
        }
        self.tables.insert(table, values)
    }

    fn change(&mut self, table: u32, id: u64, values: &Values) -> Result<(), RelFault> {
        if self.fails() {
            self.ready = false;
            return no_memory();
        }
        self.tables.change(table, id, values)
    }

    fn remove(&mut self, table: u32, id: u64) -> Result<(), RelFault> {
        if self.fails() {
            self.ready = false;
            return no_memory();
        }
        self.tables.remove(table, id)
    }

    fn create_table(&mut self, table: &TableSchema) -> Result<(), RelFault> {
        if self.fails() {
            self.ready = false;
            return no_memory();
        }
        self.tables.create_table(table)
    }

    fn drop_table(&mut self, table: u32) -> Result<(), RelFault> {
        if self.fails() {
            self.ready = false;
            return no_memory();
        }
        self.tables.drop_table(table)
    }

    fn truncate(&mut self, table: u32) -> Result<(), RelFault> {
        if self.fails() {
            self.ready = false;
            return no_memory();
        }
        self.tables.truncate(table)
    }

    fn add_column(&mut self, table: u32, column: &ColumnDef) -> Result<(), RelFault> {
        if self.fails() {
            self.ready = false;
            return no_memory();
        }
        self.tables.add_column(table, column)
    }

    fn drop_column(&mut self, table: u32, column: u32) -> Result<(), RelFault> {
        if self.fails() {
            self.ready = false;
            return no_memory();
        }
        self.tables.drop_column(table, column)
    }

    fn begin(&mut self) -> Result<(), NoMemory> {
        if self.fails() {
            return Err(NoMemory);
        }
        self.tables.begin()
    }

    fn commit(&mut self) -> Result<(), Trouble> {
        if self.fails() {
            return Err(Trouble::NoMemory);
        }
        self.tables.commit()
    }

    fn rollback(&mut self) {
        self.tables.rollback();
        if self.tables.depth() == 0 {
            self.ready = true;
        }
    }

    ghost within = { λ f. f.tables.present.within };

    ghost formed = { λ f _. well_formed f.tables.present f.tables.formed };

    ghost usable = { λ _ _. refl };

    ghost told_schema = { λ f. same_schema f.tables.present };

    ghost same_rel = { λ _ _ same. same };
}
