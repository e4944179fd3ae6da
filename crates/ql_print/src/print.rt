//! Printing of expressions and of SELECTs.
#![tactic(auto, using(crate::proofs::Growth::text_append))]

ghost use Rattle.std.specs.Prelude.{◌≡◌, ◌++◌, OnOk, OnErr, flat_map, map, option_map, Option};
ghost use Rattle.ql_lex.specs.declared.words.Word.TheVariants as w;
ghost use Rattle.ql_syntax.specs.Ink.{bracketed, listed, text_of, Grows};
ghost use Rattle.ql_syntax.specs.Printing.{Inks, behind, ink_of_direction, ink_of_distinct, ink_of_expr, ink_of_field, ink_of_fields, ink_of_groups, ink_of_join, ink_of_keys, ink_of_link, ink_of_one_join, ink_of_select, ink_of_set, ink_of_sets, ink_of_source};
ghost use Rattle.ql_syntax.specs.StatementPrinting.{ink_of_option};
ghost use Rattle.ql_syntax.specs.StoredParts.{ExprsReadBack};

use crate::spelling::{
    add_alias, add_column_ref, add_ops, between_bytes, comma_before, direction_bytes, in_bytes,
    join_bytes, kind_bytes, null_bytes, operator_bytes, put, select_bytes, truth_bytes,
};
use ql_edge::{Boxed, Bytes, NoMemory};
use ql_syntax::{
    Expr, Exprs, Field, Fields, FromSet, FromSets, Join, Link, Links, Select, SetSource,
};
use ql_value::{print_number, print_text};

/// Adds what an expression prints, and memory may run out behind a front of it.
#[cycle(print)]
pub(crate) fn add_expr(expr: &Expr, out: &mut Bytes) -> Result<(), NoMemory>
    ensures ok { OnOk result (out.new ≡ out.old ++ text_of (ink_of_expr expr.now)) }
    ensures grows { Grows out.old out.new }
{
    match expr {
        Expr::Chain { first, rest } => {
            add_expr(first.get(), out)?;
            add_links(rest.get(), out)?;
            Ok(())
        }
        Expr::Unary { ops, part } => {
            add_ops(ops.get().as_slice(), out)?;
            add_expr(part.get(), out)?;
            Ok(())
        }
        Expr::Number(number) => print_number(*number, out),
        Expr::Text(text) => print_text(text.as_slice(), out),
        Expr::Truth(truth) => put(truth_bytes(*truth), out),
        Expr::Null => put(b"NULL", out),
        Expr::Column { table, column } => add_column_ref(table, column.get(), out),
        Expr::Paren(part) => add_enclosed(part, out),
        Expr::Call {
            function,
            parts,
            ..
        } => {
            put(function.name(), out)?;
            add_list(parts, out)?;
            Ok(())
        }
        Expr::Convert { kind, part } => {
            put(kind_bytes(*kind), out)?;
            add_enclosed(part, out)?;
            Ok(())
        }
        Expr::IsIn { not, part, list } => {
            add_expr(part.get(), out)?;
            put(in_bytes(*not), out)?;
            add_list(list.get(), out)?;
            Ok(())
        }
        Expr::IsInSelect { not, part, query } => {
            add_expr(part.get(), out)?;
            put(in_bytes(*not), out)?;
            add_query(query, out)?;
            Ok(())
        }
        Expr::IsBetween {
            not,
            part,
            low,
            high,
        } => {
            add_expr(part.get(), out)?;
            put(between_bytes(*not), out)?;
            add_expr(low.get(), out)?;
            put(b" AND ", out)?;
            add_expr(high.get(), out)?;
            Ok(())
        }
        Expr::IsNull { not, part } => {
            add_expr(part.get(), out)?;
            put(null_bytes(*not), out)?;
            Ok(())
        }
    }
}

/// Adds a part in brackets.
#[cycle(print)]
fn add_enclosed(part: &Boxed<Expr>, out: &mut Bytes) -> Result<(), NoMemory>
    ensures ok { OnOk result (out.new ≡ out.old ++ text_of (bracketed (ink_of_expr part.now))) }
    ensures grows { Grows out.old out.new }
{
    put(b"(", out)?;
    add_expr(part.get(), out)?;
    put(b")", out)?;
    Ok(())
}

/// Adds a list of expressions in brackets.
#[cycle(print)]
fn add_list(exprs: &Exprs, out: &mut Bytes) -> Result<(), NoMemory>
    ensures ok { OnOk result (out.new ≡ out.old
        ++ text_of (bracketed (listed (map ink_of_expr exprs.now)))) }
    ensures grows { Grows out.old out.new }
{
    put(b"(", out)?;
    add_exprs(exprs, out)?;
    put(b")", out)?;
    Ok(())
}

/// Adds expressions with commas between them.
#[cycle(print)]
pub(crate) fn add_exprs(exprs: &Exprs, out: &mut Bytes) -> Result<(), NoMemory>
    ensures ok { OnOk result (out.new ≡ out.old ++ text_of (listed (map ink_of_expr exprs.now))) }
    ensures grows { Grows out.old out.new }
{
    'exprs: for (i, expr) in exprs.as_slice().iter().enumerate() {
        put(comma_before(i), out)?;
        add_expr(expr, out)?;
    }
    Ok(())
}

/// Adds the links of a chain.
#[cycle(print)]
fn add_links(links: &Links, out: &mut Bytes) -> Result<(), NoMemory>
    ensures ok { OnOk result (out.new ≡ out.old
        ++ text_of (flat_map (λ (link : Inks). link) (map ink_of_link links.now))) }
    ensures grows { Grows out.old out.new }
{
    'links: for link in links.as_slice() {
        add_link(link, out)?;
    }
    Ok(())
}

/// Adds an operator between blanks, and the part behind it.
#[cycle(print)]
fn add_link(link: &Link, out: &mut Bytes) -> Result<(), NoMemory>
    ensures ok { OnOk result (out.new ≡ out.old ++ text_of (ink_of_link link.now)) }
    ensures grows { Grows out.old out.new }
{
    put(b" ", out)?;
    put(operator_bytes(link.op), out)?;
    put(b" ", out)?;
    add_expr(&link.part, out)?;
    Ok(())
}

/// Adds a SELECT in brackets.
#[cycle(print)]
fn add_query(query: &Boxed<Select>, out: &mut Bytes) -> Result<(), NoMemory>
    ensures ok { OnOk result (out.new ≡ out.old ++ text_of (bracketed (ink_of_select query.now))) }
    ensures grows { Grows out.old out.new }
{
    put(b"(", out)?;
    add_select(query.get(), out)?;
    put(b")", out)?;
    Ok(())
}

/// Adds a SELECT.
#[cycle(print)]
pub(crate) fn add_select(select: &Select, out: &mut Bytes) -> Result<(), NoMemory>
    ensures ok { OnOk result (out.new ≡ out.old ++ text_of (ink_of_select select.now)) }
    ensures grows { Grows out.old out.new }
{
    put(select_bytes(select.distinct), out)?;
    add_fields(&select.fields, out)?;
    add_sets(&select.sets, out)?;
    add_join(&select.join, out)?;
    add_filter(&select.filter, out)?;
    add_groups(&select.groups, out)?;
    add_keys(&select.keys, select.descending, out)?;
    add_limit(&select.limit, out)?;
    add_offset(&select.offset, out)?;
    Ok(())
}

/// Adds what a SELECT shows.
#[cycle(print)]
fn add_fields(fields: &Fields, out: &mut Bytes) -> Result<(), NoMemory>
    ensures ok { OnOk result (out.new ≡ out.old
        ++ text_of (ink_of_fields (map ink_of_field fields.now))) }
    ensures grows { Grows out.old out.new }
{
    if fields.is_empty() {
        return put(b"*", out);
    }
    'fields: for (i, field) in fields.as_slice().iter().enumerate() {
        put(comma_before(i), out)?;
        add_field(field, out)?;
    }
    Ok(())
}

/// Adds a field.
#[cycle(print)]
fn add_field(field: &Field, out: &mut Bytes) -> Result<(), NoMemory>
    ensures ok { OnOk result (out.new ≡ out.old ++ text_of (ink_of_field field.now)) }
    ensures grows { Grows out.old out.new }
{
    add_expr(&field.expr, out)?;
    add_alias(&field.alias, out)?;
    Ok(())
}

/// Adds FROM and the record sets, where there are any.
#[cycle(print)]
fn add_sets(sets: &FromSets, out: &mut Bytes) -> Result<(), NoMemory>
    ensures ok { OnOk result (out.new ≡ out.old
        ++ text_of (ink_of_sets (map ink_of_set sets.now))) }
    ensures grows { Grows out.old out.new }
{
    if sets.is_empty() {
        return Ok(());
    }
    put(b" FROM ", out)?;
    'sets: for (i, set) in sets.as_slice().iter().enumerate() {
        put(comma_before(i), out)?;
        add_set(set, out)?;
    }
    Ok(())
}

/// Adds a record set.
#[cycle(print)]
fn add_set(set: &FromSet, out: &mut Bytes) -> Result<(), NoMemory>
    ensures ok { OnOk result (out.new ≡ out.old ++ text_of (ink_of_set set.now)) }
    ensures grows { Grows out.old out.new }
{
    add_source(&set.source, out)?;
    add_alias(&set.alias, out)?;
    Ok(())
}

/// Adds what a record set is made of.
#[cycle(print)]
fn add_source(source: &SetSource, out: &mut Bytes) -> Result<(), NoMemory>
    ensures ok { OnOk result (out.new ≡ out.old ++ text_of (ink_of_source source.now)) }
    ensures grows { Grows out.old out.new }
{
    match source {
        SetSource::Table(table) => {
            put(table.get().as_slice(), out)?;
            Ok(())
        }
        SetSource::Query(query) => {
            add_query(query, out)?;
            Ok(())
        }
    }
}

/// Adds a join, where there is one.
#[cycle(print)]
fn add_join(join: &Option<Boxed<Join>>, out: &mut Bytes) -> Result<(), NoMemory>
    ensures ok { OnOk result (out.new ≡ out.old
        ++ text_of (ink_of_join (option_map ink_of_one_join join.now))) }
    ensures grows { Grows out.old out.new }
{
    let Some(join) = join else {
        return Ok(());
    };
    add_one_join(join.get(), out)?;
    Ok(())
}

/// Adds the join of a record set, with the blank before it.
#[cycle(print)]
fn add_one_join(join: &Join, out: &mut Bytes) -> Result<(), NoMemory>
    ensures ok { OnOk result (out.new ≡ out.old ++ text_of (ink_of_one_join join.now)) }
    ensures grows { Grows out.old out.new }
{
    put(join_bytes(join.side), out)?;
    add_set(&join.set, out)?;
    put(b" ON ", out)?;
    add_expr(&join.on, out)?;
    Ok(())
}

/// Adds WHERE and its condition, where there is one.
#[cycle(print)]
pub(crate) fn add_filter(filter: &Option<Boxed<Expr>>, out: &mut Bytes) -> Result<(), NoMemory>
    ensures ok { OnOk result (out.new ≡ out.old
        ++ text_of (behind w.Where (ink_of_option filter.now))) }
    ensures grows { Grows out.old out.new }
{
    let Some(filter) = filter else {
        return Ok(());
    };
    put(b" WHERE ", out)?;
    add_expr(filter.get(), out)?;
    Ok(())
}

/// Adds GROUP BY and its columns, where there are any.
#[cycle(print)]
fn add_groups(groups: &Exprs, out: &mut Bytes) -> Result<(), NoMemory>
    ensures ok { OnOk result (out.new ≡ out.old
        ++ text_of (ink_of_groups (map ink_of_expr groups.now))) }
    ensures grows { Grows out.old out.new }
{
    if groups.is_empty() {
        return Ok(());
    }
    put(b" GROUP BY ", out)?;
    add_exprs(groups, out)?;
    Ok(())
}

/// Adds ORDER BY, its expressions and its direction, where there are any.
#[cycle(print)]
fn add_keys(keys: &Exprs, descending: bool, out: &mut Bytes) -> Result<(), NoMemory>
    ensures ok { OnOk result (out.new ≡ out.old
        ++ text_of (ink_of_keys (map ink_of_expr keys.now) descending)) }
    ensures grows { Grows out.old out.new }
{
    if keys.is_empty() {
        return Ok(());
    }
    put(b" ORDER BY ", out)?;
    add_exprs(keys, out)?;
    put(direction_bytes(descending), out)?;
    Ok(())
}

/// Adds LIMIT and its expression, where there is one.
#[cycle(print)]
fn add_limit(limit: &Option<Boxed<Expr>>, out: &mut Bytes) -> Result<(), NoMemory>
    ensures ok { OnOk result (out.new ≡ out.old
        ++ text_of (behind w.Limit (ink_of_option limit.now))) }
    ensures grows { Grows out.old out.new }
{
    let Some(limit) = limit else {
        return Ok(());
    };
    put(b" LIMIT ", out)?;
    add_expr(limit.get(), out)?;
    Ok(())
}

/// Adds OFFSET and its expression, where there is one.
#[cycle(print)]
fn add_offset(offset: &Option<Boxed<Expr>>, out: &mut Bytes) -> Result<(), NoMemory>
    ensures ok { OnOk result (out.new ≡ out.old
        ++ text_of (behind w.Offset (ink_of_option offset.now))) }
    ensures grows { Grows out.old out.new }
{
    let Some(offset) = offset else {
        return Ok(());
    };
    put(b" OFFSET ", out)?;
    add_expr(offset.get(), out)?;
    Ok(())
}

/// Adds an expression at the end of `out`. A refusal leaves `out` as before.
pub fn print_expr(expr: &Expr, out: &mut Bytes) -> Result<(), NoMemory>
    ensures ok { OnOk result (out.new ≡ out.old ++ text_of (ink_of_expr expr.now)) }
    ensures err { OnErr result (out.new ≡ out.old) }

    // An expression that was read, once printed, is read as that very expression, but that
    // `count(*)` is read as `count()`.
    ensures read_back { ExprsReadBack }
{
    let before = out.len();
    match add_expr(expr, out) {
        Ok(()) => Ok(()),
        Err(fault) => {
            out.truncate(before);
            Err(fault)
        }
    }
}
