//! What an expression sees.

ghost use Rattle.std.specs.Prelude.{◌≡◌};

use crate::Typing;
use ql_edge::Items;
use std::marker::Model;

/// A name that is borrowed from where it stands.
#[derive(Debug, Drop)]
pub struct NameRef<'a> {
    bytes: &'a [u8],
}

impl<'a> Model for NameRef<'a> {
    ghost use Rattle.std.specs.Prelude.{List, ℕ};

    ghost Value = { List ℕ };

    ghost view = { λ name. name.bytes.now };
}

impl<'a> NameRef<'a> {
    pub fn new(bytes: &'a [u8]) -> NameRef<'a>
        ensures { result ≡ bytes.now }
    {
        NameRef { bytes }
    }

    pub fn as_slice(&self) -> &'a [u8]
        ensures { result.now ≡ self.now }
    {
        self.bytes
    }
}

/// A place of a row: the name of its record set, that of its column, which an id has not, and the type of its values.
#[derive(Drop)]
pub struct Slot<'a> {
    pub set: Option<NameRef<'a>>,
    pub column: Option<NameRef<'a>>,
    pub typing: Typing,
}

/// Places of a row, in order.
pub type Slots<'a> = Items<Slot<'a>>;

/// What an expression sees. It borrows the names, from a schema or a statement.
#[derive(Drop)]
pub struct Scope<'a> {
    /// The places of the source row.
    pub row: Slots<'a>,
    /// The fields of a SELECT, whose places are behind the row. Names are looked for among them first.
    pub fields: Slots<'a>,
    /// Whether the fields hide the places of the source row from names.
    pub hides: bool,
}

/// A place that a name may mean, by its number.
#[derive(Clone, Copy, Debug)]
pub struct RowPlace {
    pub at: usize,
    pub typing: Typing,
}
