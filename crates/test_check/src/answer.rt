use crate::plan::add_plan;
use ql_check::{CheckFault, check};
use ql_edge::{Bytes, NoMemory};
use ql_lex::{LexFault, tokens};
use ql_parse::{ParseFault, script};
use ql_rel::{Index, Indexes, Schema, TableSchema, TableSchemas};
use ql_syntax::{Statement, Statements};
use ql_value::{Refusal, print_number};
use std::alloc::Global;

/// The tables and indexes that the CREATE statements at the head of a script make, each in the order of names.
#[derive(Drop)]
struct Made {
    tables: Vec<TableSchema>,
    indexes: Vec<Index>,
}

/// Puts a table where its name stands in the order of names.
fn insert_table(tables: &mut Vec<TableSchema>, table: TableSchema) -> Result<(), NoMemory> {
    let behind = tables
        .iter()
        .position(|other| table.name.as_slice() < other.name.as_slice());
    let at = behind.unwrap_or(tables.len());
    tables.insert(at, table)?;
    Ok(())
}

/// The same of an index.
fn insert_index(indexes: &mut Vec<Index>, index: Index) -> Result<(), NoMemory> {
    let behind = indexes
        .iter()
        .position(|other| index.name.as_slice() < other.name.as_slice());
    let at = behind.unwrap_or(indexes.len());
    indexes.insert(at, index)?;
    Ok(())
}

/// Makes what a CREATE statement says, and gives every other statement back.
fn make(made: &mut Made, statement: Statement) -> Result<Option<Statement>, NoMemory> {
    match statement {
        Statement::CreateTable { table, columns, .. } => {
            let name = table;
            insert_table(&mut made.tables, TableSchema { name, columns })?;
            Ok(None)
        }
        Statement::CreateIndex {
            unique,
            index,
            table,
            item,
            ..
        } => {
            let (name, item) = (index, item.into_inner());
            let index = Index {
                name,
                table,
                item,
                unique,
            };
            insert_index(&mut made.indexes, index)?;
            Ok(None)
        }
        other => Ok(Some(other)),
    }
}

/// The schema of tables and indexes that stand in the order of their names.
fn schema_of(alloc: Global, made: Made) -> Result<Schema, NoMemory> {
    let mut tables = TableSchemas::new(alloc);
    for table in made.tables {
        tables.push(table)?;
    }
    let mut indexes = Indexes::new(alloc);
    for index in made.indexes {
        indexes.push(index)?;
    }
    Ok(Schema { tables, indexes })
}

fn add_refusal(refusal: &Refusal, out: &mut Bytes) -> Result<(), NoMemory> {
    print_number(u64::from(refusal.number), out)?;
    out.push(b' ')?;
    out.extend(refusal.word())?;
    if refusal.name.len() > 0 {
        out.push(b' ')?;
        out.extend(refusal.name.as_slice())?;
    }
    Ok(())
}

/// Adds what the checker says of a statement.
fn add_checked(
    alloc: Global,
    statement: &Statement,
    schema: &Schema,
    out: &mut Bytes,
) -> Result<(), NoMemory> {
    match check(alloc, statement, schema) {
        Ok(plan) => add_plan(&plan, out),
        Err(CheckFault::Refused(refusal)) => add_refusal(&refusal, out),
        Err(CheckFault::NoMemory) => Err(NoMemory),
    }
}

/// Adds what the checker says of the statements of a script behind those at its head that make its schema.
fn add_statements(alloc: Global, statements: Statements, out: &mut Bytes) -> Result<(), NoMemory> {
    let mut made = Made {
        tables: Vec::new(alloc),
        indexes: Vec::new(alloc),
    };
    let mut others = Statements::new(alloc);
    for statement in statements.into_vec() {
        if others.len() > 0 {
            others.push(statement)?;
        } else if let Some(other) = make(&mut made, statement)? {
            others.push(other)?;
        }
    }
    let schema = schema_of(alloc, made)?;
    for (i, statement) in others.as_slice().iter().enumerate() {
        if i > 0 {
            out.extend(b" | ")?;
        }
        add_checked(alloc, statement, &schema, out)?;
    }
    Ok(())
}

/// Adds what a script comes to.
pub fn add_answer(alloc: Global, source: &[u8], out: &mut Bytes) -> Result<(), NoMemory> {
    let tokens = match tokens(alloc, source) {
        Ok(tokens) => tokens,
        Err(LexFault::NoMemory) => return Err(NoMemory),
        Err(_) => return out.extend(b"no script"),
    };
    match script(alloc, source, tokens) {
        Ok(statements) => add_statements(alloc, statements, out),
        Err(ParseFault::NoMemory) => Err(NoMemory),
        Err(_) => out.extend(b"no script"),
    }
}
