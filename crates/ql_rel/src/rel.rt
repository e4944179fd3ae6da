//! The trait over tables.
ghost use Rattle.std.specs.Prelude.{◌≡◌, ℕ, ◌-◌, ◌^◌, ◌<◌, ◌≤◌, Bool, true, false, IsTrue, IsSome, List, ◌∷◌, length, drop, nat_lt, Option, option_map, IfOk, OnOk, OnErr, IfSome};
ghost use Rattle.ql_rel.specs.declared.db.Db.{Db};
ghost use Rattle.ql_rel.specs.declared.schema.Schema.{Schema};
ghost use Rattle.ql_rel.specs.Changes.{inserted, changed, removed, truncated, table_created, table_dropped, column_added, column_dropped};
ghost use Rattle.ql_rel.specs.Databases.{schema_of, columns_at, name_at};
ghost use Rattle.ql_rel.specs.Limits.{IsWithin, is_past_table, is_past_added};
ghost use Rattle.ql_rel.specs.Names.{is_name_taken, is_column_taken};
ghost use Rattle.ql_rel.specs.Refusals.{insert_refusal, change_refusal, table_refusal, column_refusal, IsRefusedBy, IsCausedRel, IsCausedOnly, NeedsAtMost, NeedsAtEnd, StaysSound};
ghost use Rattle.ql_rel.specs.Rels.{row_after, row_with, GivesRow, given_after, ready_after, saved_last, IsSameRel};
ghost use Rattle.ql_rel.specs.WellFormed.{Fits, IsMade, IsWellFormed};

use crate::{RelFault, Row, Schema, TableSchema};
use lldb_base::Trouble;
use ql_edge::{NoMemory, Shows};
use ql_syntax::ColumnDef;
use ql_value::Values;

/// Tables that statements are carried out on, however they are kept.
///
/// Tables and columns are named by their places in the schema, counted from 0. A refused change leaves the relation
/// not ready, and its database open to anything, until every level is rolled back.
pub trait Rel: Shows {
    /// The database, where it is told.
    ghost db: { Self → Option Db };

    /// The databases that were saved by `begin`, the last one first, each where it was told.
    ghost saved: { Self → List (Option Db) };

    /// The tables without their rows, and the indexes.
    ghost schema: { Self → Schema };

    /// How often `scan` and `fetch` answered true. It stands still at 2^64-1.
    ghost given: { Self → ℕ };

    ghost is_ready: { Self → Bool };

    /// Whether the relation is ready once every level is rolled back.
    ghost is_sound: { Self → Bool };

    /// The limit of what lies under the tables, where there is one.
    ghost limit: { Self → Option ℕ };

    /// The size of the bytes under the tables, 0 where there are none.
    ghost size: { Self → ℕ };

    fn schema(&self) -> &Schema
        ensures { result.now ≡ schema self.now };

    /// How many levels are open.
    fn depth(&self) -> u32
        ensures { result ≡ length (saved self.now) };

    /// Whether calls beside `rollback` are allowed.
    fn ready(&self) -> bool
        ensures { result ≡ is_ready self.now };

    /// How often `scan` and `fetch` answered true.
    fn given(&self) -> u64
        ensures { result ≡ given self.now };

    /// Gives the first row whose id is over `after`, and answers false where there is none.
    fn scan(&mut self, table: u32, after: u64, row: &mut Row) -> Result<bool, RelFault>
        requires ready { IsTrue (is_ready self.old) }
        requires table { table < length (schema self.old).tables }
        ensures row { IfOk result (λ found. IfSome (db self.old) (λ d.
            GivesRow found row.new (row_after table after d))) }
        ensures over { IfOk result (λ found. IsTrue found → after < row.new.id) }
        ensures fits { IfOk result (λ found. IsTrue found →
            Fits (columns_at table (schema self.old)) row.new.values) }
        ensures given { given self.new ≡ given_after result (given self.old) }
        ensures db { db self.new ≡ db self.old }
        ensures saved { saved self.new ≡ saved self.old }
        ensures schema { schema self.new ≡ schema self.old }
        ensures ready { is_ready self.new ≡ is_ready self.old }
        ensures limit { limit self.new ≡ limit self.old }
        ensures size { size self.new ≡ size self.old }
        ensures sound { is_sound self.new ≡ is_sound self.old }
        ensures told { Self.told self.new ≡ Self.told self.old }
        ensures left { Self.left self.new ≡ Self.left self.old }
        ensures fixed { Self.fixed self.new ≡ Self.fixed self.old }
        ensures refused { IsRefusedBy None result }
        ensures cause { IsCausedRel None (db self.old) result
            (Self.faults self.old) (Self.faults self.new) };

    /// Gives the row with an id, and answers false where there is none.
    fn fetch(&mut self, table: u32, id: u64, row: &mut Row) -> Result<bool, RelFault>
        requires ready { IsTrue (is_ready self.old) }
        requires table { table < length (schema self.old).tables }
        ensures row { IfOk result (λ found. IfSome (db self.old) (λ d.
            GivesRow found row.new (row_with table id d))) }
        ensures asked { IfOk result (λ found. IsTrue found → row.new.id ≡ id) }
        ensures fits { IfOk result (λ found. IsTrue found →
            Fits (columns_at table (schema self.old)) row.new.values) }
        ensures given { given self.new ≡ given_after result (given self.old) }
        ensures db { db self.new ≡ db self.old }
        ensures saved { saved self.new ≡ saved self.old }
        ensures schema { schema self.new ≡ schema self.old }
        ensures ready { is_ready self.new ≡ is_ready self.old }
        ensures limit { limit self.new ≡ limit self.old }
        ensures size { size self.new ≡ size self.old }
        ensures sound { is_sound self.new ≡ is_sound self.old }
        ensures told { Self.told self.new ≡ Self.told self.old }
        ensures left { Self.left self.new ≡ Self.left self.old }
        ensures fixed { Self.fixed self.new ≡ Self.fixed self.old }
        ensures refused { IsRefusedBy None result }
        ensures cause { IsCausedRel None (db self.old) result
            (Self.faults self.old) (Self.faults self.new) };

    /// Adds a row with the next id, and answers the id.
    fn insert(&mut self, table: u32, values: &Values) -> Result<u64, RelFault>
        requires ready { IsTrue (is_ready self.old) }
        requires level { 0 < length (saved self.old) }
        requires table { table < length (schema self.old).tables }
        requires fits { Fits (columns_at table (schema self.old)) values.now }
        ensures db { OnOk result (db self.new ≡
            option_map (inserted table values.now) (db self.old)) }
        ensures id { IfOk result (λ id. IfSome (db self.old) (λ d. id ≡ d.next_id)) }
        ensures refused { IfSome (db self.old) (λ d.
            IsRefusedBy (insert_refusal table values.now d) result) }
        ensures schema { OnOk result (schema self.new ≡ schema self.old) }
        ensures ready { is_ready self.new ≡ ready_after result (is_ready self.old) }
        ensures saved { saved self.new ≡ saved self.old }
        ensures given { given self.new ≡ given self.old }
        ensures limit { limit self.new ≡ limit self.old }
        ensures sound { is_sound self.new ≡ is_sound self.old }
        ensures told { Self.told self.new ≡ Self.told self.old }
        ensures left { Self.left self.new ≡ Self.left self.old }
        ensures fixed { Self.fixed self.new ≡ Self.fixed self.old }
        ensures full { NeedsAtMost (size self.new) result }
        ensures cause { IsCausedRel (limit self.old) (db self.old) result
            (Self.faults self.old) (Self.faults self.new) };

    /// Gives the row with an id other values.
    fn change(&mut self, table: u32, id: u64, values: &Values) -> Result<(), RelFault>
        requires ready { IsTrue (is_ready self.old) }
        requires level { 0 < length (saved self.old) }
        requires table { table < length (schema self.old).tables }
        requires fits { Fits (columns_at table (schema self.old)) values.now }
        requires row { IfSome (db self.old) (λ d. IsSome (row_with table id d)) }
        ensures db { OnOk result (db self.new ≡
            option_map (changed table id values.now) (db self.old)) }
        ensures refused { IsRefusedBy (change_refusal table id values.now (schema self.old))
            result }
        ensures schema { OnOk result (schema self.new ≡ schema self.old) }
        ensures ready { is_ready self.new ≡ ready_after result (is_ready self.old) }
        ensures saved { saved self.new ≡ saved self.old }
        ensures given { given self.new ≡ given self.old }
        ensures limit { limit self.new ≡ limit self.old }
        ensures sound { is_sound self.new ≡ is_sound self.old }
        ensures told { Self.told self.new ≡ Self.told self.old }
        ensures left { Self.left self.new ≡ Self.left self.old }
        ensures fixed { Self.fixed self.new ≡ Self.fixed self.old }
        ensures full { NeedsAtMost (size self.new) result }
        ensures cause { IsCausedRel (limit self.old) (db self.old) result
            (Self.faults self.old) (Self.faults self.new) };

    /// Takes the row with an id away.
    fn remove(&mut self, table: u32, id: u64) -> Result<(), RelFault>
        requires ready { IsTrue (is_ready self.old) }
        requires level { 0 < length (saved self.old) }
        requires table { table < length (schema self.old).tables }
        requires row { IfSome (db self.old) (λ d. IsSome (row_with table id d)) }
        ensures db { OnOk result (db self.new ≡ option_map (removed table id) (db self.old)) }
        ensures refused { IsRefusedBy None result }
        ensures schema { OnOk result (schema self.new ≡ schema self.old) }
        ensures ready { is_ready self.new ≡ ready_after result (is_ready self.old) }
        ensures saved { saved self.new ≡ saved self.old }
        ensures given { given self.new ≡ given self.old }
        ensures limit { limit self.new ≡ limit self.old }
        ensures sound { is_sound self.new ≡ is_sound self.old }
        ensures told { Self.told self.new ≡ Self.told self.old }
        ensures left { Self.left self.new ≡ Self.left self.old }
        ensures fixed { Self.fixed self.new ≡ Self.fixed self.old }
        ensures full { NeedsAtMost (size self.new) result }
        ensures cause { IsCausedRel (limit self.old) (db self.old) result
            (Self.faults self.old) (Self.faults self.new) };

    /// Adds a table without rows. Its name is neither a table's nor an index's.
    fn create_table(&mut self, table: &TableSchema) -> Result<(), RelFault>
        requires ready { IsTrue (is_ready self.old) }
        requires level { 0 < length (saved self.old) }
        requires some { 0 < length table.now.columns }
        requires free { is_name_taken table.now.name (schema self.old) ≡ false }
        requires made { IfSome (db self.old) (λ d. is_past_table table.now (schema_of d) ≡ false →
            IsMade (schema_of (table_created table.now d))) }
        ensures db { OnOk result (db self.new ≡
            option_map (table_created table.now) (db self.old)) }
        ensures refused { IsRefusedBy (table_refusal table.now (schema self.old)) result }
        ensures ready { is_ready self.new ≡ ready_after result (is_ready self.old) }
        ensures saved { saved self.new ≡ saved self.old }
        ensures given { given self.new ≡ given self.old }
        ensures limit { limit self.new ≡ limit self.old }
        ensures sound { is_sound self.new ≡ is_sound self.old }
        ensures told { Self.told self.new ≡ Self.told self.old }
        ensures left { Self.left self.new ≡ Self.left self.old }
        ensures fixed { Self.fixed self.new ≡ Self.fixed self.old }
        ensures full { NeedsAtMost (size self.new) result }
        ensures cause { IsCausedRel (limit self.old) (db self.old) result
            (Self.faults self.old) (Self.faults self.new) };

    /// Takes a table away, with its rows and its indexes. With the last table the next id becomes 1.
    fn drop_table(&mut self, table: u32) -> Result<(), RelFault>
        requires ready { IsTrue (is_ready self.old) }
        requires level { 0 < length (saved self.old) }
        requires table { table < length (schema self.old).tables }
        ensures db { OnOk result (db self.new ≡ option_map (table_dropped table) (db self.old)) }
        ensures refused { IsRefusedBy None result }
        ensures ready { is_ready self.new ≡ ready_after result (is_ready self.old) }
        ensures saved { saved self.new ≡ saved self.old }
        ensures given { given self.new ≡ given self.old }
        ensures limit { limit self.new ≡ limit self.old }
        ensures sound { is_sound self.new ≡ is_sound self.old }
        ensures told { Self.told self.new ≡ Self.told self.old }
        ensures left { Self.left self.new ≡ Self.left self.old }
        ensures fixed { Self.fixed self.new ≡ Self.fixed self.old }
        ensures full { NeedsAtMost (size self.new) result }
        ensures cause { IsCausedRel (limit self.old) (db self.old) result
            (Self.faults self.old) (Self.faults self.new) };

    /// Takes all rows of a table away. The next id stays.
    fn truncate(&mut self, table: u32) -> Result<(), RelFault>
        requires ready { IsTrue (is_ready self.old) }
        requires level { 0 < length (saved self.old) }
        requires table { table < length (schema self.old).tables }
        ensures db { OnOk result (db self.new ≡ option_map (truncated table) (db self.old)) }
        ensures refused { IsRefusedBy None result }
        ensures schema { OnOk result (schema self.new ≡ schema self.old) }
        ensures ready { is_ready self.new ≡ ready_after result (is_ready self.old) }
        ensures saved { saved self.new ≡ saved self.old }
        ensures given { given self.new ≡ given self.old }
        ensures limit { limit self.new ≡ limit self.old }
        ensures sound { is_sound self.new ≡ is_sound self.old }
        ensures told { Self.told self.new ≡ Self.told self.old }
        ensures left { Self.left self.new ≡ Self.left self.old }
        ensures fixed { Self.fixed self.new ≡ Self.fixed self.old }
        ensures full { NeedsAtMost (size self.new) result }
        ensures cause { IsCausedRel (limit self.old) (db self.old) result
            (Self.faults self.old) (Self.faults self.new) };

    /// Adds a column behind the others, NULL in each row. Its name is neither that of a column nor of an index of the
    /// table.
    fn add_column(&mut self, table: u32, column: &ColumnDef) -> Result<(), RelFault>
        requires ready { IsTrue (is_ready self.old) }
        requires level { 0 < length (saved self.old) }
        requires table { table < length (schema self.old).tables }
        requires free { is_column_taken (name_at table (schema self.old)) column.now.name
            (columns_at table (schema self.old)) (schema self.old).indexes ≡ false }
        requires made { IfSome (db self.old) (λ d.
            is_past_added column.now (columns_at table (schema_of d)) ≡ false →
            IsMade (schema_of (column_added table column.now d))) }
        ensures db { OnOk result (db self.new ≡
            option_map (column_added table column.now) (db self.old)) }
        ensures refused { IfSome (db self.old) (λ d.
            IsRefusedBy (column_refusal table column.now d) result) }
        ensures ready { is_ready self.new ≡ ready_after result (is_ready self.old) }
        ensures saved { saved self.new ≡ saved self.old }
        ensures given { given self.new ≡ given self.old }
        ensures limit { limit self.new ≡ limit self.old }
        ensures sound { is_sound self.new ≡ is_sound self.old }
        ensures told { Self.told self.new ≡ Self.told self.old }
        ensures left { Self.left self.new ≡ Self.left self.old }
        ensures fixed { Self.fixed self.new ≡ Self.fixed self.old }
        ensures full { NeedsAtMost (size self.new) result }
        ensures cause { IsCausedRel (limit self.old) (db self.old) result
            (Self.faults self.old) (Self.faults self.new) };

    /// Takes a column away, with its values and its indexes. It is not the only one.
    fn drop_column(&mut self, table: u32, column: u32) -> Result<(), RelFault>
        requires ready { IsTrue (is_ready self.old) }
        requires level { 0 < length (saved self.old) }
        requires table { table < length (schema self.old).tables }
        requires column { column < length (columns_at table (schema self.old)) }
        requires other { 1 < length (columns_at table (schema self.old)) }
        requires made { IfSome (db self.old) (λ d.
            IsMade (schema_of (column_dropped table column d))) }
        ensures db { OnOk result (db self.new ≡
            option_map (column_dropped table column) (db self.old)) }
        ensures refused { IsRefusedBy None result }
        ensures ready { is_ready self.new ≡ ready_after result (is_ready self.old) }
        ensures saved { saved self.new ≡ saved self.old }
        ensures given { given self.new ≡ given self.old }
        ensures limit { limit self.new ≡ limit self.old }
        ensures sound { is_sound self.new ≡ is_sound self.old }
        ensures told { Self.told self.new ≡ Self.told self.old }
        ensures left { Self.left self.new ≡ Self.left self.old }
        ensures fixed { Self.fixed self.new ≡ Self.fixed self.old }
        ensures full { NeedsAtMost (size self.new) result }
        ensures cause { IsCausedRel (limit self.old) (db self.old) result
            (Self.faults self.old) (Self.faults self.new) };

    /// Opens a level: the database is saved. After a refusal all is as before.
    fn begin(&mut self) -> Result<(), NoMemory>
        requires ready { IsTrue (is_ready self.old) }
        requires level { length (saved self.old) < 2 ^ 32 - 1 }
        ensures begun { OnOk result (saved self.new ≡ db self.old ∷ saved self.old) }
        ensures kept { OnErr result (saved self.new ≡ saved self.old) }
        ensures db { db self.new ≡ db self.old }
        ensures schema { schema self.new ≡ schema self.old }
        ensures given { given self.new ≡ given self.old }
        ensures ready { is_ready self.new ≡ is_ready self.old }
        ensures limit { limit self.new ≡ limit self.old }
        ensures size { size self.new ≡ size self.old }
        ensures sound { is_sound self.new ≡ is_sound self.old }
        ensures told { Self.told self.new ≡ Self.told self.old }
        ensures left { Self.left self.new ≡ Self.left self.old }
        ensures fixed { Self.fixed self.new ≡ Self.fixed self.old }
        ensures faults { Self.faults self.new ≡ Self.faults self.old };

    /// Closes a level: what was saved last is let go. The end of the outermost level is stored.
    ///
    /// After a refusal as many levels are open as before, and all stands as before while the relation is sound. Where a
    /// device refused in the outermost end it may not be, and then it is not ready, and no rollback helps.
    fn commit(&mut self) -> Result<(), Trouble>
        requires ready { IsTrue (is_ready self.old) }
        requires level { 0 < length (saved self.old) }
        ensures ended { OnOk result (saved self.new ≡ drop 1 (saved self.old)) }
        ensures kept { OnErr result (IsTrue (is_sound self.new) → saved self.new ≡ saved self.old) }
        ensures depth { OnErr result (length (saved self.new) ≡ length (saved self.old)) }
        ensures db { OnOk result (db self.new ≡ db self.old) }
        ensures db_kept { OnErr result (IsTrue (is_sound self.new) → db self.new ≡ db self.old) }
        ensures schema { schema self.new ≡ schema self.old }
        ensures given { given self.new ≡ given self.old }
        ensures ready { OnOk result (is_ready self.new ≡ is_ready self.old) }
        ensures limit { limit self.new ≡ limit self.old }
        ensures sound { StaysSound result (is_sound self.old) (is_sound self.new) }
        ensures inner { 1 < length (saved self.old) → is_sound self.new ≡ is_sound self.old }
        ensures told { Self.told self.new ≡ Self.told self.old }
        ensures left { Self.left self.new ≡ Self.left self.old }
        ensures fixed { Self.fixed self.new ≡ Self.fixed self.old }
        ensures full { NeedsAtEnd (size self.new) result }
        ensures cause { IsCausedOnly (limit self.old) (db self.old) result
            (Self.faults self.old) (Self.faults self.new) };

    /// Closes a level: the database is again what was saved last. It takes no memory, and may be called when the
    /// relation is not ready.
    fn rollback(&mut self)
        requires { 0 < length (saved self.old) }
        ensures db { db self.new ≡ saved_last (saved self.old) }
        ensures saved { saved self.new ≡ drop 1 (saved self.old) }
        ensures given { given self.new ≡ given self.old }
        ensures ready { IsTrue (is_ready self.old) → IsTrue (is_ready self.new) }
        ensures unready { is_ready self.old ≡ false → 1 < length (saved self.old) →
            is_ready self.new ≡ false }
        ensures last { length (saved self.old) ≡ 1 → is_ready self.new ≡ is_sound self.old }
        ensures limit { limit self.new ≡ limit self.old }
        ensures sound { is_sound self.new ≡ is_sound self.old }
        ensures told { Self.told self.new ≡ Self.told self.old }
        ensures left { Self.left self.new ≡ Self.left self.old }
        ensures fixed { Self.fixed self.new ≡ Self.fixed self.old }
        ensures faults { Self.faults self.new ≡ Self.faults self.old };

    ghost within: { (x : Self) → IsWithin (schema x) };

    ghost formed: { (x : Self) → IsTrue (is_ready x) → IfSome (db x) IsWellFormed };

    ghost usable: { (x : Self) → IsTrue (is_ready x) → IsTrue (is_sound x) };

    ghost told_schema: { (x : Self) → IfSome (db x) (λ d. schema x ≡ schema_of d) };

    ghost same_rel: { (x y : Self) → Self.same x y → IsSameRel (db x) (db y) (saved x) (saved y)
        (schema x) (schema y) (given x) (given y) (is_ready x) (is_ready y) (is_sound x)
        (is_sound y) (limit x) (limit y) (size x) (size y) };
}
