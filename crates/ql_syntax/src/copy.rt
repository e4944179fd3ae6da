ghost use Rattle.std.specs.Prelude.{◌≡◌, Ok, IfOk};

use crate::syntax::{
    Expr, Exprs, Field, Fields, FromSet, FromSets, Join, Link, Links, Select, SetSource,
};
use ql_edge::{Boxed, Bytes, Name, NoMemory};
use ql_value::UnOps;
use std::alloc::Global;

/// Both parts, where both could be made.
fn both<A: Drop, B: Drop>(
    a: Result<A, NoMemory>,
    b: Result<B, NoMemory>,
) -> Result<(A, B), NoMemory>
    ensures { IfOk result (λ pair. (a ≡ Ok pair.0) × (b ≡ Ok pair.1)) }
{
    let a = a?;
    let b = b?;
    Ok((a, b))
}

fn copy_ops(alloc: Global, ops: &Boxed<UnOps>) -> Result<Boxed<UnOps>, NoMemory>
    ensures { IfOk result (λ copy. copy ≡ ops.now) }
{
    let copy = UnOps::from_slice(alloc, ops.get().as_slice())?;
    Boxed::new(alloc, copy)
}

fn copy_name(alloc: Global, name: &Boxed<Name>) -> Result<Boxed<Name>, NoMemory>
    ensures { IfOk result (λ copy. copy ≡ name.now) }
{
    let copy = Name::new(alloc, name.get().as_slice())?;
    Boxed::new(alloc, copy)
}

fn copy_alias(alloc: Global, alias: &Option<Boxed<Name>>) -> Result<Option<Boxed<Name>>, NoMemory>
    ensures { IfOk result (λ copy. copy ≡ alias.now) }
{
    match alias {
        Some(name) => Ok(Some(copy_name(alloc, name)?)),
        None => Ok(None),
    }
}

#[cycle(copy)]
fn copy_boxed(alloc: Global, part: &Boxed<Expr>) -> Result<Boxed<Expr>, NoMemory>
    ensures { IfOk result (λ copy. copy ≡ part.now) }
{
    let copy = copy_expr(alloc, part.get())?;
    Boxed::new(alloc, copy)
}

#[cycle(copy)]
fn copy_query(alloc: Global, query: &Boxed<Select>) -> Result<Boxed<Select>, NoMemory>
    ensures { IfOk result (λ copy. copy ≡ query.now) }
{
    let copy = copy_select(alloc, query.get())?;
    Boxed::new(alloc, copy)
}

#[cycle(copy)]
fn copy_link(alloc: Global, link: &Link) -> Result<Link, NoMemory>
    ensures { IfOk result (λ copy. copy ≡ link.now) }
{
    let part = copy_expr(alloc, &link.part)?;
    Ok(Link { op: link.op, part })
}

#[cycle(copy)]
fn copy_links(alloc: Global, links: &Boxed<Links>) -> Result<Boxed<Links>, NoMemory>
    ensures { IfOk result (λ copy. copy ≡ links.now) }
{
    let links = links.get();
    let mut copy = Links::with_capacity(alloc, links.len())?;
    'links: for link in links.as_slice() {
        copy.push(copy_link(alloc, link)?)?;
    }
    Boxed::new(alloc, copy)
}

#[cycle(copy)]
fn copy_exprs(alloc: Global, exprs: &Exprs) -> Result<Exprs, NoMemory>
    ensures { IfOk result (λ copy. copy ≡ exprs.now) }
{
    let mut copy = Exprs::with_capacity(alloc, exprs.len())?;
    'exprs: for expr in exprs.as_slice() {
        copy.push(copy_expr(alloc, expr)?)?;
    }
    Ok(copy)
}

#[cycle(copy)]
fn copy_list(alloc: Global, exprs: &Boxed<Exprs>) -> Result<Boxed<Exprs>, NoMemory>
    ensures { IfOk result (λ copy. copy ≡ exprs.now) }
{
    let copy = copy_exprs(alloc, exprs.get())?;
    Boxed::new(alloc, copy)
}

#[cycle(copy)]
fn copy_option(alloc: Global, expr: &Option<Boxed<Expr>>) -> Result<Option<Boxed<Expr>>, NoMemory>
    ensures { IfOk result (λ copy. copy ≡ expr.now) }
{
    match expr {
        Some(expr) => {
            let copy = copy_expr(alloc, expr.get())?;
            Ok(Some(Boxed::new(alloc, copy)?))
        }
        None => Ok(None),
    }
}

#[cycle(copy)]
fn copy_field(alloc: Global, field: &Field) -> Result<Field, NoMemory>
    ensures { IfOk result (λ copy. copy ≡ field.now) }
{
    let alias = copy_alias(alloc, &field.alias)?;
    let expr = copy_expr(alloc, &field.expr)?;
    Ok(Field { expr, alias })
}

#[cycle(copy)]
fn copy_fields(alloc: Global, fields: &Fields) -> Result<Fields, NoMemory>
    ensures { IfOk result (λ copy. copy ≡ fields.now) }
{
    let mut copy = Fields::with_capacity(alloc, fields.len())?;
    'fields: for field in fields.as_slice() {
        copy.push(copy_field(alloc, field)?)?;
    }
    Ok(copy)
}

#[cycle(copy)]
fn copy_source(alloc: Global, source: &SetSource) -> Result<SetSource, NoMemory>
    ensures { IfOk result (λ copy. copy ≡ source.now) }
{
    match source {
        SetSource::Table(name) => Ok(SetSource::Table(copy_name(alloc, name)?)),
        SetSource::Query(query) => Ok(SetSource::Query(copy_query(alloc, query)?)),
    }
}

#[cycle(copy)]
fn copy_set(alloc: Global, set: &FromSet) -> Result<FromSet, NoMemory>
    ensures { IfOk result (λ copy. copy ≡ set.now) }
{
    let alias = copy_alias(alloc, &set.alias)?;
    let source = copy_source(alloc, &set.source)?;
    Ok(FromSet { source, alias })
}

#[cycle(copy)]
fn copy_sets(alloc: Global, sets: &FromSets) -> Result<FromSets, NoMemory>
    ensures { IfOk result (λ copy. copy ≡ sets.now) }
{
    let mut copy = FromSets::with_capacity(alloc, sets.len())?;
    'sets: for set in sets.as_slice() {
        copy.push(copy_set(alloc, set)?)?;
    }
    Ok(copy)
}

#[cycle(copy)]
fn copy_join(alloc: Global, join: &Option<Boxed<Join>>) -> Result<Option<Boxed<Join>>, NoMemory>
    ensures { IfOk result (λ copy. copy ≡ join.now) }
{
    let Some(join) = join else {
        return Ok(None);
    };
    let join = join.get();
    let (set, on) = both(copy_set(alloc, &join.set), copy_expr(alloc, &join.on))?;
    let copy = Join {
        side: join.side,
        set,
        on,
    };
    Ok(Some(Boxed::new(alloc, copy)?))
}

#[cycle(copy)]
fn copy_select(alloc: Global, select: &Select) -> Result<Select, NoMemory>
    ensures { IfOk result (λ copy. copy ≡ select.now) }
{
    let shown = both(
        copy_fields(alloc, &select.fields),
        copy_sets(alloc, &select.sets),
    );
    let tests = both(
        copy_join(alloc, &select.join),
        copy_option(alloc, &select.filter),
    );
    let order = both(
        copy_exprs(alloc, &select.groups),
        copy_exprs(alloc, &select.keys),
    );
    let counts = both(
        copy_option(alloc, &select.limit),
        copy_option(alloc, &select.offset),
    );
    let (front, back) = both(both(shown, tests), both(order, counts))?;
    let ((fields, sets), (join, filter)) = front;
    let ((groups, keys), (limit, offset)) = back;
    Ok(Select {
        distinct: select.distinct,
        fields,
        sets,
        join,
        filter,
        groups,
        keys,
        descending: select.descending,
        limit,
        offset,
    })
}

/// A copy of an expression.
#[cycle(copy)]
pub fn copy_expr(alloc: Global, expr: &Expr) -> Result<Expr, NoMemory>
    ensures { IfOk result (λ copy. copy ≡ expr.now) }
{
    match expr {
        Expr::Chain { first, rest } => {
            let (first, rest) = both(copy_boxed(alloc, first), copy_links(alloc, rest))?;
            Ok(Expr::Chain { first, rest })
        }
        Expr::Unary { ops, part } => {
            let (ops, part) = both(copy_ops(alloc, ops), copy_boxed(alloc, part))?;
            Ok(Expr::Unary { ops, part })
        }
        Expr::Number(number) => Ok(Expr::Number(*number)),
        Expr::Text(text) => Ok(Expr::Text(Bytes::from_slice(alloc, text.as_slice())?)),
        Expr::Truth(truth) => Ok(Expr::Truth(*truth)),
        Expr::Null => Ok(Expr::Null),
        Expr::Column { table, column } => {
            let (table, column) = both(copy_alias(alloc, table), copy_name(alloc, column))?;
            Ok(Expr::Column { table, column })
        }
        Expr::Paren(part) => Ok(Expr::Paren(copy_boxed(alloc, part)?)),
        Expr::Call {
            function,
            star,
            parts,
        } => Ok(Expr::Call {
            function: *function,
            star: *star,
            parts: copy_exprs(alloc, parts)?,
        }),
        Expr::Convert { kind, part } => Ok(Expr::Convert {
            kind: *kind,
            part: copy_boxed(alloc, part)?,
        }),
        Expr::IsIn { not, part, list } => {
            let (part, list) = both(copy_boxed(alloc, part), copy_list(alloc, list))?;
            Ok(Expr::IsIn {
                not: *not,
                part,
                list,
            })
        }
        Expr::IsInSelect { not, part, query } => {
            let (part, query) = both(copy_boxed(alloc, part), copy_query(alloc, query))?;
            Ok(Expr::IsInSelect {
                not: *not,
                part,
                query,
            })
        }
        Expr::IsBetween {
            not,
            part,
            low,
            high,
        } => {
            let bounds = both(copy_boxed(alloc, low), copy_boxed(alloc, high));
            let (part, (low, high)) = both(copy_boxed(alloc, part), bounds)?;
            Ok(Expr::IsBetween {
                not: *not,
                part,
                low,
                high,
            })
        }
        Expr::IsNull { not, part } => Ok(Expr::IsNull {
            not: *not,
            part: copy_boxed(alloc, part)?,
        }),
    }
}
