//! Printing of statements, and of the parts of them that are stored by themselves.
#![tactic(auto, using(crate::proofs::Growth::text_append))]

ghost use Rattle.std.specs.Prelude.{◌≡◌, ◌++◌, ◌∷◌, [], OnOk, OnErr, Option, map, codes};
ghost use Rattle.ql_lex.specs.declared.words.Word.TheVariants as w;
ghost use Rattle.ql_syntax.specs.Ink as spec;
ghost use Rattle.ql_syntax.specs.Ink.{bracketed, keyword, listed, small, space, text_of, Grows};
ghost use Rattle.ql_syntax.specs.Printing.{behind, word_of_kind};
ghost use Rattle.ql_syntax.specs.ReadsBack.{PlainLaws, ReadBackLaws};
ghost use Rattle.ql_syntax.specs.SameTokens.{TokenLaws};
ghost use Rattle.ql_syntax.specs.StoredParts.{ColumnsReadBack, ItemsReadBack, MadeReadBack, PartsReadBack};
ghost use Rattle.ql_syntax.specs.StatementPrinting.{ink_of_assign, ink_of_column, ink_of_if_exists, ink_of_if_not_exists, ink_of_item, ink_of_names, ink_of_option, ink_of_row, ink_of_rows, ink_of_rule, ink_of_statement, ink_of_unique};

use crate::print::{add_expr, add_exprs, add_filter, add_select};
use crate::spelling::{comma_before, kind_bytes, put};
use ql_edge::{Boxed, Bytes, Name, Names, NoMemory};
use ql_syntax::{
    Assign, Assigns, ColumnDef, ColumnDefs, Expr, ExprRows, Exprs, Item, RowSource, Statement,
};

/// `IF EXISTS`, or nothing.
fn if_exists_bytes(quiet: bool) -> &'static [u8]
    ensures { result.now ≡ text_of (ink_of_if_exists quiet) }
{
    if quiet { b"IF EXISTS " } else { b"" }
}

/// `IF NOT EXISTS`, or nothing.
fn if_not_exists_bytes(quiet: bool) -> &'static [u8]
    ensures { result.now ≡ text_of (ink_of_if_not_exists quiet) }
{
    if quiet { b"IF NOT EXISTS " } else { b"" }
}

/// What CREATE INDEX begins with.
fn create_index_bytes(unique: bool) -> &'static [u8]
    ensures { result.now ≡ text_of (keyword w.Create ∷ space
        ∷ ink_of_unique unique ++ (keyword w.Index ∷ space ∷ [])) }
{
    if unique {
        b"CREATE UNIQUE INDEX "
    } else {
        b"CREATE INDEX "
    }
}

/// Adds a rule behind a column, or NOT NULL, or nothing.
fn add_rule(not_null: bool, rule: &Option<Boxed<Expr>>, out: &mut Bytes) -> Result<(), NoMemory>
    ensures ok { OnOk result (out.new ≡ out.old ++ text_of (ink_of_rule not_null rule.now)) }
    ensures grows { Grows out.old out.new }
{
    if not_null {
        return put(b" NOT NULL", out);
    }
    match rule {
        Some(rule) => {
            put(b" ", out)?;
            add_expr(rule.get(), out)?;
            Ok(())
        }
        None => Ok(()),
    }
}

/// Adds DEFAULT and its expression, where there is one.
fn add_default(default: &Option<Boxed<Expr>>, out: &mut Bytes) -> Result<(), NoMemory>
    ensures ok { OnOk result (out.new ≡ out.old
        ++ text_of (behind w.Default (ink_of_option default.now))) }
    ensures grows { Grows out.old out.new }
{
    match default {
        Some(default) => {
            put(b" DEFAULT ", out)?;
            add_expr(default.get(), out)?;
            Ok(())
        }
        None => Ok(()),
    }
}

/// Adds a name, a blank and a kind.
fn add_named_kind(column: &ColumnDef, out: &mut Bytes) -> Result<(), NoMemory>
    ensures ok { OnOk result (out.new ≡ out.old
        ++ text_of (spec.name column.now.name ∷ space ∷ small (word_of_kind column.now.kind)
        ∷ [])) }
    ensures grows { Grows out.old out.new }
{
    put(column.name.as_slice(), out)?;
    put(b" ", out)?;
    put(kind_bytes(column.kind), out)?;
    Ok(())
}

/// Adds a column of a table.
fn add_column(column: &ColumnDef, out: &mut Bytes) -> Result<(), NoMemory>
    ensures ok { OnOk result (out.new ≡ out.old ++ text_of (ink_of_column column.now)) }
    ensures grows { Grows out.old out.new }
{
    add_named_kind(column, out)?;
    add_rule(column.not_null, &column.rule, out)?;
    add_default(&column.default, out)?;
    Ok(())
}

/// Adds the columns of a table in brackets.
fn add_columns(columns: &ColumnDefs, out: &mut Bytes) -> Result<(), NoMemory>
    ensures ok { OnOk result (out.new ≡ out.old
        ++ text_of (bracketed (listed (map ink_of_column columns.now)))) }
    ensures grows { Grows out.old out.new }
{
    put(b"(", out)?;
    'columns: for (i, column) in columns.as_slice().iter().enumerate() {
        put(comma_before(i), out)?;
        add_column(column, out)?;
    }
    put(b")", out)?;
    Ok(())
}

/// Adds what an index orders by, and memory may run out behind a front of it.
fn add_item(item: &Item, out: &mut Bytes) -> Result<(), NoMemory>
    ensures ok { OnOk result (out.new ≡ out.old ++ text_of (ink_of_item item.now)) }
    ensures grows { Grows out.old out.new }
{
    match item {
        Item::Column(column) => put(column.as_slice(), out),
        Item::Id => put(b"id()", out),
    }
}

/// Adds what an index orders by, in brackets.
fn add_enclosed_item(item: &Item, out: &mut Bytes) -> Result<(), NoMemory>
    ensures ok { OnOk result (out.new ≡ out.old ++ text_of (bracketed (ink_of_item item.now))) }
    ensures grows { Grows out.old out.new }
{
    put(b"(", out)?;
    add_item(item, out)?;
    put(b")", out)?;
    Ok(())
}

/// Adds the names of an INSERT in brackets, or nothing.
fn add_names(names: &Names, out: &mut Bytes) -> Result<(), NoMemory>
    ensures ok { OnOk result (out.new ≡ out.old ++ text_of (ink_of_names names.now)) }
    ensures grows { Grows out.old out.new }
{
    if names.is_empty() {
        return Ok(());
    }
    put(b" (", out)?;
    'names: for (i, name) in names.as_slice().iter().enumerate() {
        put(comma_before(i), out)?;
        put(name.as_slice(), out)?;
    }
    put(b")", out)?;
    Ok(())
}

/// Adds a row of an INSERT.
fn add_row(row: &Exprs, out: &mut Bytes) -> Result<(), NoMemory>
    ensures ok { OnOk result (out.new ≡ out.old ++ text_of (ink_of_row row.now)) }
    ensures grows { Grows out.old out.new }
{
    put(b"(", out)?;
    add_exprs(row, out)?;
    put(b")", out)?;
    Ok(())
}

/// Adds the rows of an INSERT.
fn add_rows(rows: &ExprRows, out: &mut Bytes) -> Result<(), NoMemory>
    ensures ok { OnOk result (out.new ≡ out.old ++ text_of (listed (map ink_of_row rows.now))) }
    ensures grows { Grows out.old out.new }
{
    'rows: for (i, row) in rows.as_slice().iter().enumerate() {
        put(comma_before(i), out)?;
        add_row(row, out)?;
    }
    Ok(())
}

/// Adds what an INSERT takes its rows from.
fn add_row_source(source: &RowSource, out: &mut Bytes) -> Result<(), NoMemory>
    ensures ok { OnOk result (out.new ≡ out.old ++ text_of (ink_of_rows source.now)) }
    ensures grows { Grows out.old out.new }
{
    match source {
        RowSource::Rows(rows) => {
            put(b"VALUES ", out)?;
            add_rows(rows, out)?;
            Ok(())
        }
        RowSource::Query(query) => {
            add_select(query.get(), out)?;
            Ok(())
        }
    }
}

/// Adds an assignment of an UPDATE.
fn add_assign(assign: &Assign, out: &mut Bytes) -> Result<(), NoMemory>
    ensures ok { OnOk result (out.new ≡ out.old ++ text_of (ink_of_assign assign.now)) }
    ensures grows { Grows out.old out.new }
{
    put(assign.column.as_slice(), out)?;
    put(b" = ", out)?;
    add_expr(&assign.value, out)?;
    Ok(())
}

/// Adds the assignments of an UPDATE.
fn add_assigns(assigns: &Assigns, out: &mut Bytes) -> Result<(), NoMemory>
    ensures ok { OnOk result (out.new ≡ out.old
        ++ text_of (listed (map ink_of_assign assigns.now))) }
    ensures grows { Grows out.old out.new }
{
    'assigns: for (i, assign) in assigns.as_slice().iter().enumerate() {
        put(comma_before(i), out)?;
        add_assign(assign, out)?;
    }
    Ok(())
}

/// Adds CREATE TABLE.
fn add_create_table(
    quiet: bool,
    table: &Name,
    columns: &ColumnDefs,
    out: &mut Bytes,
) -> Result<(), NoMemory>
    ensures ok { OnOk result (out.new ≡ out.old
        ++ text_of (ink_of_statement (Statement.CreateTable quiet table.now columns.now))) }
    ensures grows { Grows out.old out.new }
{
    put(b"CREATE TABLE ", out)?;
    put(if_not_exists_bytes(quiet), out)?;
    put(table.as_slice(), out)?;
    put(b" ", out)?;
    add_columns(columns, out)?;
    Ok(())
}

/// Adds the names of an index and of its table.
fn add_index_names(index: &Name, table: &Name, out: &mut Bytes) -> Result<(), NoMemory>
    ensures ok { OnOk result (out.new ≡ out.old
        ++ text_of (spec.name index.now ∷ space ∷ keyword w.On ∷ space ∷ spec.name table.now
        ∷ space ∷ [])) }
    ensures grows { Grows out.old out.new }
{
    put(index.as_slice(), out)?;
    put(b" ON ", out)?;
    put(table.as_slice(), out)?;
    put(b" ", out)?;
    Ok(())
}

/// Adds CREATE INDEX.
fn add_create_index(
    unique: bool,
    quiet: bool,
    index: &Name,
    table: &Name,
    item: &Item,
    out: &mut Bytes,
) -> Result<(), NoMemory>
    ensures ok { OnOk result (out.new ≡ out.old
        ++ text_of (ink_of_statement
        (Statement.CreateIndex unique quiet index.now table.now item.now))) }
    ensures grows { Grows out.old out.new }
{
    put(create_index_bytes(unique), out)?;
    put(if_not_exists_bytes(quiet), out)?;
    add_index_names(index, table, out)?;
    add_enclosed_item(item, out)?;
    Ok(())
}

/// Adds DROP of a table or an index.
fn add_drop(before: &[u8], quiet: bool, name: &Name, out: &mut Bytes) -> Result<(), NoMemory>
    ensures ok { OnOk result (out.new ≡ out.old
        ++ (before.now ++ text_of (ink_of_if_exists quiet ++ (spec.name name.now ∷ [])))) }
    ensures grows { Grows out.old out.new }
{
    put(before, out)?;
    put(if_exists_bytes(quiet), out)?;
    put(name.as_slice(), out)?;
    Ok(())
}

/// Adds INSERT.
fn add_insert(
    table: &Name,
    columns: &Names,
    source: &RowSource,
    out: &mut Bytes,
) -> Result<(), NoMemory>
    ensures ok { OnOk result (out.new ≡ out.old
        ++ text_of (ink_of_statement (Statement.Insert table.now columns.now source.now))) }
    ensures grows { Grows out.old out.new }
{
    put(b"INSERT INTO ", out)?;
    put(table.as_slice(), out)?;
    add_names(columns, out)?;
    put(b" ", out)?;
    add_row_source(source, out)?;
    Ok(())
}

/// Adds UPDATE.
fn add_update(
    table: &Name,
    sets: &Assigns,
    filter: &Option<Boxed<Expr>>,
    out: &mut Bytes,
) -> Result<(), NoMemory>
    ensures ok { OnOk result (out.new ≡ out.old
        ++ text_of (ink_of_statement (Statement.Update table.now sets.now filter.now))) }
    ensures grows { Grows out.old out.new }
{
    put(b"UPDATE ", out)?;
    put(table.as_slice(), out)?;
    put(b" SET ", out)?;
    add_assigns(sets, out)?;
    add_filter(filter, out)?;
    Ok(())
}

/// Adds DELETE.
fn add_delete(table: &Name, filter: &Option<Boxed<Expr>>, out: &mut Bytes) -> Result<(), NoMemory>
    ensures ok { OnOk result (out.new ≡ out.old
        ++ text_of (ink_of_statement (Statement.Delete table.now filter.now))) }
    ensures grows { Grows out.old out.new }
{
    put(b"DELETE FROM ", out)?;
    put(table.as_slice(), out)?;
    add_filter(filter, out)?;
    Ok(())
}

/// Adds ALTER TABLE .. ADD.
fn add_add_column(table: &Name, column: &ColumnDef, out: &mut Bytes) -> Result<(), NoMemory>
    ensures ok { OnOk result (out.new ≡ out.old
        ++ text_of (ink_of_statement (Statement.AddColumn table.now column.now))) }
    ensures grows { Grows out.old out.new }
{
    put(b"ALTER TABLE ", out)?;
    put(table.as_slice(), out)?;
    put(b" ADD ", out)?;
    add_column(column, out)?;
    Ok(())
}

/// Adds ALTER TABLE .. DROP COLUMN.
fn add_drop_column(table: &Name, column: &Name, out: &mut Bytes) -> Result<(), NoMemory>
    ensures ok { OnOk result (out.new ≡ out.old
        ++ text_of (ink_of_statement (Statement.DropColumn table.now column.now))) }
    ensures grows { Grows out.old out.new }
{
    put(b"ALTER TABLE ", out)?;
    put(table.as_slice(), out)?;
    put(b" DROP COLUMN ", out)?;
    put(column.as_slice(), out)?;
    Ok(())
}

/// Adds TRUNCATE TABLE.
fn add_truncate(table: &Name, out: &mut Bytes) -> Result<(), NoMemory>
    ensures ok { OnOk result (out.new ≡ out.old
        ++ text_of (ink_of_statement (Statement.Truncate table.now))) }
    ensures grows { Grows out.old out.new }
{
    put(b"TRUNCATE TABLE ", out)?;
    put(table.as_slice(), out)?;
    Ok(())
}

/// Adds what a statement prints, and memory may run out behind a front of it.
fn add_statement(statement: &Statement, out: &mut Bytes) -> Result<(), NoMemory>
    ensures ok { OnOk result (out.new ≡ out.old ++ text_of (ink_of_statement statement.now)) }
    ensures grows { Grows out.old out.new }
{
    match statement {
        Statement::Begin => put(b"BEGIN TRANSACTION", out),
        Statement::Commit => put(b"COMMIT", out),
        Statement::Rollback => put(b"ROLLBACK", out),
        Statement::Query(query) => add_select(query.get(), out),
        Statement::CreateTable {
            quiet,
            table,
            columns,
        } => add_create_table(*quiet, table, columns, out),
        Statement::DropTable { quiet, table } => add_drop(b"DROP TABLE ", *quiet, table, out),
        Statement::AddColumn { table, column } => add_add_column(table, column.get(), out),
        Statement::DropColumn { table, column } => add_drop_column(table, column, out),
        Statement::CreateIndex {
            unique,
            quiet,
            index,
            table,
            item,
        } => add_create_index(*unique, *quiet, index, table, item.get(), out),
        Statement::DropIndex { quiet, index } => add_drop(b"DROP INDEX ", *quiet, index, out),
        Statement::Insert {
            table,
            columns,
            source,
        } => add_insert(table, columns, source.get(), out),
        Statement::Update {
            table,
            sets,
            filter,
        } => add_update(table, sets, filter, out),
        Statement::Delete { table, filter } => add_delete(table, filter, out),
        Statement::Truncate { table } => add_truncate(table, out),
    }
}

/// Adds a column of a table at the end of `out`. A refusal leaves `out` as before.
pub fn print_column(column: &ColumnDef, out: &mut Bytes) -> Result<(), NoMemory>
    ensures ok { OnOk result (out.new ≡ out.old ++ text_of (ink_of_column column.now)) }
    ensures err { OnErr result (out.new ≡ out.old) }

    // A column that was read, once printed, is read as that very column, but that `count(*)` is
    // read as `count()`. So are its rule and its default, each printed by itself.
    ensures read_back { ColumnsReadBack }
{
    let before = out.len();
    match add_column(column, out) {
        Ok(()) => Ok(()),
        Err(fault) => {
            out.truncate(before);
            Err(fault)
        }
    }
}

/// Adds what an index orders by at the end of `out`, without brackets around it. A refusal leaves
/// `out` as before.
pub fn print_item(item: &Item, out: &mut Bytes) -> Result<(), NoMemory>
    ensures ok { OnOk result (out.new ≡ out.old ++ text_of (ink_of_item item.now)) }
    ensures err { OnErr result (out.new ≡ out.old) }

    // What an index orders by, where it was read, is read as that again.
    ensures read_back { ItemsReadBack }
{
    let before = out.len();
    match add_item(item, out) {
        Ok(()) => Ok(()),
        Err(fault) => {
            out.truncate(before);
            Err(fault)
        }
    }
}

/// Adds a statement at the end of `out`, without a semicolon. A refusal leaves `out` as before.
pub fn print_statement(statement: &Statement, out: &mut Bytes) -> Result<(), NoMemory>
    ensures ok { OnOk result (out.new ≡ out.old ++ text_of (ink_of_statement statement.now)) }
    ensures err { OnErr result (out.new ≡ out.old) }

    // A statement that was read, once printed, is read as that very statement, but that `count(*)`
    // is read as `count()`.
    ensures read_back { ReadBackLaws }

    // So is each part of it that is stored by itself, once it is printed by itself.
    ensures parts { PartsReadBack }

    // So is a statement that is put together from parts that were read.
    ensures made { MadeReadBack }

    // What is read back prints the same text, and is read back as itself.
    ensures same_text { PlainLaws }

    // What the statements of a script print, with `; ` between them, has the tokens of its source,
    // but for what printing leaves out, puts in and writes otherwise.
    ensures same_tokens { TokenLaws }
{
    let before = out.len();
    match add_statement(statement, out) {
        Ok(()) => Ok(()),
        Err(fault) => {
            out.truncate(before);
            Err(fault)
        }
    }
}
