ghost use Rattle.std.specs.Prelude.{◌≡◌};
ghost use Rattle.ql_syntax.specs.Aggregates as spec;
ghost use Rattle.ql_syntax.specs.Functions as functions;

use ql_edge::{Boxed, Bytes, Items, Name};
use ql_value::{BinOp, Kind, UnOps};

/// A function that an expression calls.
#[derive(Clone, Copy, Debug, PartialEq, Eq)]
pub enum Function {
    Id,
    Len,
    Contains,
    HasPrefix,
    HasSuffix,
    Coalesce,
    Count,
    Sum,
    Avg,
    Min,
    Max,
}

impl Function {
    /// Its name, as a script writes it.
    pub fn name(self) -> &'static [u8]
        ensures { result.now ≡ functions.function_bytes self }
    {
        match self {
            Function::Id => b"id",
            Function::Len => b"len",
            Function::Contains => b"contains",
            Function::HasPrefix => b"hasPrefix",
            Function::HasSuffix => b"hasSuffix",
            Function::Coalesce => b"coalesce",
            Function::Count => b"count",
            Function::Sum => b"sum",
            Function::Avg => b"avg",
            Function::Min => b"min",
            Function::Max => b"max",
        }
    }

    /// Whether it may be called with so many parts. The `*` of `count(*)` is none.
    pub fn takes(self, count: usize) -> bool
        ensures { result ≡ functions.takes self count }
    {
        match self {
            Function::Id | Function::Count => count < 2,
            Function::Contains | Function::HasPrefix | Function::HasSuffix => count == 2,
            Function::Coalesce => 0 < count,
            Function::Len | Function::Sum | Function::Avg | Function::Min | Function::Max => {
                count == 1
            }
        }
    }

    /// Whether it is an aggregate, which gives a value of the rows of a group.
    pub fn is_aggregate(self) -> bool
        ensures { result ≡ spec.is_aggregate self }
    {
        match self {
            Function::Count | Function::Sum | Function::Avg | Function::Min | Function::Max => true,
            Function::Id
            | Function::Len
            | Function::Contains
            | Function::HasPrefix
            | Function::HasSuffix
            | Function::Coalesce => false,
        }
    }
}

/// An expression as it is written. A part that stands alone in its place is that part.
///
/// What does not fit into four words is boxed, since a script may hold millions of them.
#[cycle(syntax)]
#[derive(Drop)]
pub enum Expr {
    /// Parts between operators of one level, from left to right. There is at least one link.
    Chain {
        first: Boxed<Expr>,
        rest: Boxed<Links>,
    },
    /// Operators before a part. There is at least one.
    Unary {
        ops: Boxed<UnOps>,
        part: Boxed<Expr>,
    },
    Number(u64),
    /// The bytes that a string means.
    Text(Bytes),
    Truth(bool),
    Null,
    Column {
        table: Option<Boxed<Name>>,
        column: Boxed<Name>,
    },
    /// A part in brackets.
    Paren(Boxed<Expr>),
    /// A call. With `star` its part is `*`, and there are no parts.
    Call {
        function: Function,
        star: bool,
        parts: Exprs,
    },
    Convert {
        kind: Kind,
        part: Boxed<Expr>,
    },
    IsIn {
        not: bool,
        part: Boxed<Expr>,
        list: Boxed<Exprs>,
    },
    IsInSelect {
        not: bool,
        part: Boxed<Expr>,
        query: Boxed<Select>,
    },
    IsBetween {
        not: bool,
        part: Boxed<Expr>,
        low: Boxed<Expr>,
        high: Boxed<Expr>,
    },
    IsNull {
        not: bool,
        part: Boxed<Expr>,
    },
}

/// An operator of a chain, and the part behind it.
#[cycle(syntax)]
#[derive(Drop)]
pub struct Link {
    pub op: BinOp,
    pub part: Expr,
}

/// Expressions in the order of the text.
pub type Exprs = Items<Expr>;

/// What follows the first part of a chain.
pub type Links = Items<Link>;

/// A SELECT. One with no fields is `SELECT *`.
#[cycle(syntax)]
#[derive(Drop)]
pub struct Select {
    pub distinct: bool,
    pub fields: Fields,
    /// The record sets behind FROM, none where it is left out.
    pub sets: FromSets,
    pub join: Option<Boxed<Join>>,
    /// The condition behind WHERE.
    pub filter: Option<Boxed<Expr>>,
    /// The columns behind GROUP BY.
    pub groups: Exprs,
    /// The expressions behind ORDER BY.
    pub keys: Exprs,
    /// Whether DESC stands behind them.
    pub descending: bool,
    pub limit: Option<Boxed<Expr>>,
    pub offset: Option<Boxed<Expr>>,
}

/// What a SELECT shows in one column, and the name that AS gives it.
#[cycle(syntax)]
#[derive(Drop)]
pub struct Field {
    pub expr: Expr,
    pub alias: Option<Boxed<Name>>,
}

/// The fields of a SELECT.
pub type Fields = Items<Field>;

/// What a record set is made of.
#[cycle(syntax)]
#[derive(Drop)]
pub enum SetSource {
    Table(Boxed<Name>),
    Query(Boxed<Select>),
}

/// A record set, and the name that AS gives it.
#[cycle(syntax)]
#[derive(Drop)]
pub struct FromSet {
    pub source: SetSource,
    pub alias: Option<Boxed<Name>>,
}

/// The record sets of a FROM.
pub type FromSets = Items<FromSet>;

/// Which sides of an outer join keep the rows that find no partner.
#[derive(Clone, Copy, Debug, PartialEq, Eq)]
pub enum Side {
    Left,
    Right,
    Full,
}

/// An outer join with a further record set.
#[cycle(syntax)]
#[derive(Drop)]
pub struct Join {
    pub side: Side,
    pub set: FromSet,
    pub on: Expr,
}
