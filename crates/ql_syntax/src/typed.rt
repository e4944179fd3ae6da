use crate::Function;
use ql_edge::{Boxed, Items};
use ql_value::{BinOp, Kind, UnOps, Value};

/// An expression whose names are resolved and whose kinds are known.
#[cycle(typed)]
#[derive(Drop)]
pub enum Typed {
    Constant(Value),
    /// The value at that place of the row.
    Place {
        at: usize,
    },
    /// Parts between operators of one level, from left to right.
    Chain {
        first: Boxed<Typed>,
        rest: TypedLinks,
    },
    /// Operators before a part. The last one stands next to it.
    Unary {
        ops: UnOps,
        part: Boxed<Typed>,
    },
    Convert {
        kind: Kind,
        part: Boxed<Typed>,
    },
    /// A part that the text gives no kind, as a value of an integer kind that it met.
    Narrow {
        kind: Kind,
        part: Boxed<Typed>,
    },
    Call {
        function: Function,
        parts: Typeds,
    },
    /// A value of the rows of a group. The part is left out where rows are counted.
    Aggregate {
        function: Function,
        kind: Kind,
        part: Option<Boxed<Typed>>,
    },
    IsIn {
        part: Boxed<Typed>,
        list: Typeds,
    },
    IsNull {
        part: Boxed<Typed>,
    },
}

/// An operator of a chain, and the part behind it.
#[cycle(typed)]
#[derive(Drop)]
pub struct TypedLink {
    pub op: BinOp,
    pub part: Typed,
}

/// Typed expressions in the order of the text.
pub type Typeds = Items<Typed>;

/// What follows the first part of a chain.
pub type TypedLinks = Items<TypedLink>;

/// Rows of typed expressions.
pub type TypedRows = Items<Typeds>;

/// Typed expressions, some of which are left out.
pub type OptTypeds = Items<Option<Typed>>;
