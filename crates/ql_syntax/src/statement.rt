use crate::syntax::{Expr, Exprs, Select};
use ql_edge::{Boxed, Items, Name, Names};
use ql_value::Kind;

/// A column of a table: its name and kind, what its values must meet, and what stands in place of NULL.
#[derive(Drop)]
pub struct ColumnDef {
    pub name: Name,
    pub kind: Kind,
    pub not_null: bool,
    /// A condition that every row meets. With NOT NULL there is none.
    pub rule: Option<Boxed<Expr>>,
    pub default: Option<Boxed<Expr>>,
}

/// The columns of a table.
pub type ColumnDefs = Items<ColumnDef>;

/// What an index orders by: a column, or the id of the row.
#[derive(Debug, Drop)]
pub enum Item {
    Column(Name),
    Id,
}

/// Rows of an INSERT, each a list of expressions.
pub type ExprRows = Items<Exprs>;

/// Where an INSERT takes its rows from.
#[derive(Drop)]
pub enum RowSource {
    Rows(ExprRows),
    Query(Boxed<Select>),
}

/// A column of an UPDATE and its new value.
#[derive(Drop)]
pub struct Assign {
    pub column: Name,
    pub value: Expr,
}

/// The assignments of an UPDATE.
pub type Assigns = Items<Assign>;

/// A statement as it is written. `quiet` is IF EXISTS or IF NOT EXISTS.
#[derive(Drop)]
pub enum Statement {
    Begin,
    Commit,
    Rollback,
    Query(Boxed<Select>),
    CreateTable {
        quiet: bool,
        table: Name,
        columns: ColumnDefs,
    },
    DropTable {
        quiet: bool,
        table: Name,
    },
    AddColumn {
        table: Name,
        column: Boxed<ColumnDef>,
    },
    DropColumn {
        table: Name,
        column: Name,
    },
    CreateIndex {
        unique: bool,
        quiet: bool,
        index: Name,
        table: Name,
        item: Boxed<Item>,
    },
    DropIndex {
        quiet: bool,
        index: Name,
    },
    /// With no columns, a row has a value for each column of the table.
    Insert {
        table: Name,
        columns: Names,
        source: Boxed<RowSource>,
    },
    Update {
        table: Name,
        sets: Assigns,
        filter: Option<Boxed<Expr>>,
    },
    Delete {
        table: Name,
        filter: Option<Boxed<Expr>>,
    },
    Truncate {
        table: Name,
    },
}

/// The statements of a script, in order.
pub type Statements = Items<Statement>;
