//! How operators, kinds, functions and keywords are spelled, and the smallest printed pieces.
ghost use Rattle.std.specs.Prelude.{◌≡◌, ◌++◌, ◌∷◌, [], OnOk, List};
ghost use Rattle.ql_lex.specs.declared.words.Word.TheVariants as w;
ghost use Rattle.ql_syntax.specs.Ink as spec;
ghost use Rattle.ql_syntax.specs.Ink.{bytes_of, gap_before, keyword, small, space, text_of, Grows};
ghost use Rattle.ql_syntax.specs.Printing.{ink_of_alias, ink_of_bin, ink_of_column, ink_of_direction, ink_of_distinct, ink_of_not, ink_of_ops, ink_of_un, word_of_kind, word_of_side, ink_of_truth};

use ql_edge::{Boxed, Bytes, Name, NoMemory};
use ql_syntax::Side;
use ql_value::{BinOp, Kind, UnOp};

/// Adds bytes.
pub(crate) fn put(bytes: &[u8], out: &mut Bytes) -> Result<(), NoMemory>
    ensures ok { OnOk result (out.new ≡ out.old ++ bytes.now) }
    ensures grows { Grows out.old out.new }
{
    out.extend(bytes)
}

/// An operator between two parts.
pub fn operator_bytes(op: BinOp) -> &'static [u8]
    ensures { result.now ≡ bytes_of (ink_of_bin op) }
{
    match op {
        BinOp::Mul => b"*",
        BinOp::Div => b"/",
        BinOp::Rem => b"%",
        BinOp::Shl => b"<<",
        BinOp::Shr => b">>",
        BinOp::And => b"&",
        BinOp::AndNot => b"&^",
        BinOp::Add => b"+",
        BinOp::Sub => b"-",
        BinOp::Or => b"|",
        BinOp::Xor => b"^",
        BinOp::Eq => b"==",
        BinOp::Ne => b"!=",
        BinOp::Lt => b"<",
        BinOp::Le => b"<=",
        BinOp::Gt => b">",
        BinOp::Ge => b">=",
        BinOp::Both => b"&&",
        BinOp::Either => b"||",
        BinOp::Like => b"LIKE",
    }
}

/// An operator before a part.
pub fn prefix_bytes(op: UnOp) -> &'static [u8]
    ensures { result.now ≡ bytes_of (ink_of_un op) }
{
    match op {
        UnOp::Plus => b"+",
        UnOp::Minus => b"-",
        UnOp::Not => b"!",
        UnOp::Flip => b"^",
    }
}

/// A kind.
pub(crate) fn kind_bytes(kind: Kind) -> &'static [u8]
    ensures { result.now ≡ bytes_of (small (word_of_kind kind)) }
{
    match kind {
        Kind::Bool => b"bool",
        Kind::Int8 => b"int8",
        Kind::Int16 => b"int16",
        Kind::Int32 => b"int32",
        Kind::Int64 => b"int64",
        Kind::Uint8 => b"uint8",
        Kind::Uint16 => b"uint16",
        Kind::Uint32 => b"uint32",
        Kind::Uint64 => b"uint64",
        Kind::Text => b"string",
        Kind::Blob => b"blob",
    }
}

/// `true` or `false`.
pub(crate) fn truth_bytes(truth: bool) -> &'static [u8]
    ensures { result.now ≡ bytes_of (ink_of_truth truth) }
{
    if truth { b"true" } else { b"false" }
}

/// What stands before the record set of a join.
pub(crate) fn join_bytes(side: Side) -> &'static [u8]
    ensures { result.now ≡ text_of (space ∷ keyword (word_of_side side) ∷ space
        ∷ keyword w.Outer ∷ space
        ∷ keyword w.Join ∷ space ∷ []) }
{
    match side {
        Side::Left => b" LEFT OUTER JOIN ",
        Side::Right => b" RIGHT OUTER JOIN ",
        Side::Full => b" FULL OUTER JOIN ",
    }
}

/// What a SELECT begins with.
pub(crate) fn select_bytes(distinct: bool) -> &'static [u8]
    ensures { result.now ≡ text_of (keyword w.Select ∷ space ∷ ink_of_distinct distinct) }
{
    if distinct {
        b"SELECT DISTINCT "
    } else {
        b"SELECT "
    }
}

/// The direction behind ORDER BY, or nothing.
pub(crate) fn direction_bytes(descending: bool) -> &'static [u8]
    ensures { result.now ≡ text_of (ink_of_direction descending) }
{
    if descending { b" DESC" } else { b"" }
}

/// What stands between a part and the list or the SELECT that it is looked for in.
pub(crate) fn in_bytes(not: bool) -> &'static [u8]
    ensures { result.now ≡ text_of (space ∷ ink_of_not not ++ (keyword w.In ∷ space ∷ [])) }
{
    if not { b" NOT IN " } else { b" IN " }
}

/// What stands between a part and its bounds.
pub(crate) fn between_bytes(not: bool) -> &'static [u8]
    ensures { result.now ≡ text_of (space ∷ ink_of_not not ++ (keyword w.Between ∷ space ∷ [])) }
{
    if not { b" NOT BETWEEN " } else { b" BETWEEN " }
}

/// What stands behind a part that is compared with NULL.
pub(crate) fn null_bytes(not: bool) -> &'static [u8]
    ensures { result.now ≡ text_of (space ∷ keyword w.Is ∷ space
        ∷ ink_of_not not ++ (keyword w.Null ∷ [])) }
{
    if not { b" IS NOT NULL" } else { b" IS NULL" }
}

/// What stands before an operator with this number.
fn blank_before(index: usize) -> &'static [u8]
    ensures { result.now ≡ text_of (gap_before (space ∷ []) index) }
{
    if index == 0 { b"" } else { b" " }
}

/// What stands before a part of a list with this number.
pub(crate) fn comma_before(index: usize) -> &'static [u8]
    ensures { result.now ≡ text_of (gap_before spec.comma index) }
{
    if index == 0 { b"" } else { b", " }
}

/// Adds the name that AS gives.
pub(crate) fn add_alias(alias: &Option<Boxed<Name>>, out: &mut Bytes) -> Result<(), NoMemory>
    ensures ok { OnOk result (out.new ≡ out.old ++ text_of (ink_of_alias alias.now)) }
    ensures grows { Grows out.old out.new }
{
    match alias {
        Some(name) => {
            put(b" AS ", out)?;
            put(name.get().as_slice(), out)?;
            Ok(())
        }
        None => Ok(()),
    }
}

/// Adds a column, with its table where that is written.
pub(crate) fn add_column_ref(
    table: &Option<Boxed<Name>>,
    column: &Name,
    out: &mut Bytes,
) -> Result<(), NoMemory>
    ensures ok { OnOk result (out.new ≡ out.old ++ text_of (ink_of_column table.now column.now)) }
    ensures grows { Grows out.old out.new }
{
    match table {
        Some(table) => {
            put(table.get().as_slice(), out)?;
            put(b".", out)?;
            put(column.as_slice(), out)?;
            Ok(())
        }
        None => put(column.as_slice(), out),
    }
}

/// Adds operators before a part.
pub(crate) fn add_ops(ops: &[UnOp], out: &mut Bytes) -> Result<(), NoMemory>
    ensures ok { OnOk result (out.new ≡ out.old ++ text_of (ink_of_ops ops.now)) }
    ensures grows { Grows out.old out.new }
{
    'ops: for (i, op) in ops.iter().enumerate() {
        put(blank_before(i), out)?;
        put(prefix_bytes(*op), out)?;
    }
    Ok(())
}
