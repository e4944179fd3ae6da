//! CREATE TABLE and CREATE INDEX.

ghost use Rattle.std.specs.Prelude.{◌≡◌};
ghost use Rattle.ql_syntax.specs.Lexemes.{sees_two, is_id, is_open};
ghost use Rattle.ql_cursor.specs.Parses.{Answers, AnswersAnywhere, no_value};
ghost use Rattle.ql_syntax.specs.Rules as rule;
ghost use Rattle.ql_parse.specs.StatementLists as lists;
ghost use Rattle.ql_parse.specs.StatementParts as spec;
ghost use Rattle.ql_syntax.specs.Statements.{creation_of};

use crate::columns::column_defs;
use crate::exists::unless_exists;
use ql_cursor::{
    Cursor, Enclosed, Fault, eat_word, expect_name, expect_word, in_brackets, is_spelled,
    sees_name, sees_open_behind, sees_word, unexpected,
};
use ql_edge::{Boxed, Name};
use ql_lex::{TokenKind, Word};
use ql_syntax::{ColumnDefs, Item, Statement};
use std::alloc::Global;

/// The columns of a table.
pub struct Columns;

impl Enclosed for Columns {
    type Part = ColumnDefs;

    ghost of = { lists.columns };
}

/// What an index orders by.
pub struct IndexItem;

impl Enclosed for IndexItem {
    type Part = Item;

    ghost of = { lists.index_item };
}

/// Nothing.
pub struct Empty;

impl Enclosed for Empty {
    type Part = ();

    ghost of = { lists.empty };
}

/// Takes nothing.
fn nothing(cursor: &mut Cursor<'_>) -> Result<(), Fault>
    ensures { AnswersAnywhere rule.nothing no_value cursor.old result cursor.new }
{
    Ok(())
}

/// Whether the name `id` is the next token and `(` stands behind it.
fn sees_id(cursor: &Cursor<'_>) -> bool
    ensures { result ≡ sees_two is_id is_open cursor.now }
{
    let named = sees_name(cursor);
    let spelled = is_spelled(cursor.text(), b"id");
    let open = sees_open_behind(cursor);
    named && spelled && open
}

/// Whether an index can begin at the next token.
fn begins_index(cursor: &Cursor<'_>) -> bool
    ensures { result ≡ rule.enters spec.index_rule cursor.now }
{
    matches!(
        cursor.kind(),
        Some(TokenKind::Word(Word::Unique | Word::Index))
    )
}

/// What an index orders by, inside its brackets.
fn one_item(alloc: Global, room: usize, cursor: &mut Cursor<'_>) -> Result<Item, Fault>
    ensures { Answers room rule.item_rule spec.one_item_of cursor.old result cursor.new }
{
    if sees_id(cursor) {
        cursor.skip();
        in_brackets::<Empty, _>(room, cursor, |_, cursor| nothing(cursor))?;
        return Ok(Item::Id);
    }
    let name = expect_name(alloc, cursor)?;
    Ok(Item::Column(name))
}

/// The table of an index, and what it orders by.
fn target(alloc: Global, room: usize, cursor: &mut Cursor<'_>) -> Result<(Name, Boxed<Item>), Fault>
    ensures { Answers room spec.target_rule spec.target_of cursor.old result cursor.new }
{
    expect_word(cursor, Word::On)?;
    let table = expect_name(alloc, cursor)?;
    let item = in_brackets::<IndexItem, _>(room, cursor, |room, cursor| {
        one_item(alloc, room, cursor)
    })?;
    let item = Boxed::new(alloc, item)?;
    Ok((table, item))
}

/// CREATE INDEX, from UNIQUE or INDEX on.
fn create_index(alloc: Global, room: usize, cursor: &mut Cursor<'_>) -> Result<Statement, Fault>
    ensures { Answers room spec.index_rule spec.index_of cursor.old result cursor.new }
{
    let unique = eat_word(cursor, Word::Unique);
    expect_word(cursor, Word::Index)?;
    let quiet = unless_exists(cursor)?;
    let index = expect_name(alloc, cursor)?;
    let (table, item) = target(alloc, room, cursor)?;
    Ok(Statement::CreateIndex {
        unique,
        quiet,
        index,
        table,
        item,
    })
}

/// CREATE TABLE, from TABLE on.
fn create_table(alloc: Global, room: usize, cursor: &mut Cursor<'_>) -> Result<Statement, Fault>
    ensures { Answers room spec.table_rule spec.table_of cursor.old result cursor.new }
{
    expect_word(cursor, Word::Table)?;
    let quiet = unless_exists(cursor)?;
    let table = expect_name(alloc, cursor)?;
    let columns = in_brackets::<Columns, _>(room, cursor, |room, cursor| {
        column_defs(alloc, room, cursor)
    })?;
    Ok(Statement::CreateTable {
        quiet,
        table,
        columns,
    })
}

/// What stands behind CREATE.
fn table_or_index(alloc: Global, room: usize, cursor: &mut Cursor<'_>) -> Result<Statement, Fault>
    ensures { Answers room spec.table_or_index_rule spec.table_or_index_of
        cursor.old result cursor.new }
{
    if sees_word(cursor, Word::Table) {
        return create_table(alloc, room, cursor);
    }
    if begins_index(cursor) {
        return create_index(alloc, room, cursor);
    }
    Err(unexpected(cursor))
}

/// CREATE TABLE or CREATE INDEX.
pub fn creation(alloc: Global, room: usize, cursor: &mut Cursor<'_>) -> Result<Statement, Fault>
    ensures { Answers room (rule.the rule.creation) creation_of
        cursor.old result cursor.new }
{
    expect_word(cursor, Word::Create)?;
    table_or_index(alloc, room, cursor)
}
