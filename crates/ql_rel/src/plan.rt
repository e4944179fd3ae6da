//! The plan of a statement.

use ql_edge::{Names0, Numbers};
use ql_syntax::{OptTypeds, Typed, TypedRows, Typeds};

/// A statement whose names are resolved and whose expressions are typed. Parts that the statement does not have are
/// empty. A row of a SELECT is one list: for each record set its id, then its columns.
#[derive(Drop)]
pub struct Plan {
    /// What a SELECT shows in each column.
    pub fields: Typeds,
    /// The names of the fields, empty for those without one.
    pub names: Names0,
    /// The condition of WHERE.
    pub filter: Option<Typed>,
    /// The condition of a join.
    pub join_on: Option<Typed>,
    /// The columns by which rows are grouped.
    pub groups: Typeds,
    /// Whether rows are grouped: by GROUP BY, or since a field has an aggregate.
    pub grouped: bool,
    /// The expressions of ORDER BY. They see the row followed by the values of the fields.
    pub keys: Typeds,
    pub limit: Option<Typed>,
    pub offset: Option<Typed>,
    /// The rows of VALUES.
    pub rows: TypedRows,
    /// The columns that values are for.
    pub targets: Numbers,
    /// The conditions of the columns.
    pub rules: OptTypeds,
    /// What stands in place of NULL in each column.
    pub defaults: OptTypeds,
}
