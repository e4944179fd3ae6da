//! What an expression prints, with brackets that show how it is read.
use ql_edge::{Boxed, Bytes, NoMemory};
use ql_print::{operator_bytes, prefix_bytes, print_expr};
use ql_syntax::{Expr, Exprs, Links};
use ql_value::UnOps;
use std::alloc::Global;

/// Adds operators before a part, with blanks between them.
fn add_ops(ops: &UnOps, out: &mut Bytes) -> Result<(), NoMemory> {
    for (i, op) in ops.as_slice().iter().enumerate() {
        if i > 0 {
            out.push(b' ')?;
        }
        out.extend(prefix_bytes(*op))?;
    }
    Ok(())
}

/// What an expression prints.
fn printed(alloc: Global, expr: &Expr) -> Result<Bytes, NoMemory> {
    let mut text = Bytes::new(alloc);
    print_expr(expr, &mut text)?;
    Ok(text)
}

/// Adds what an expression prints before its first bracket.
fn add_head(alloc: Global, expr: &Expr, out: &mut Bytes) -> Result<(), NoMemory> {
    let text = printed(alloc, expr)?;
    let mut pieces = text.as_slice().split(|b| *b == b'(');
    out.extend(pieces.next().unwrap_or(b""))
}

/// Adds what an expression prints behind its first part.
fn add_behind(alloc: Global, expr: &Expr, part: &Expr, out: &mut Bytes) -> Result<(), NoMemory> {
    let text = printed(alloc, expr)?;
    let front = printed(alloc, part)?;
    out.extend(text.as_slice().get(front.len()..).unwrap_or(b""))
}

/// What stands round the shape of an expression.
fn brackets(expr: &Expr) -> (&'static [u8], &'static [u8]) {
    match expr {
        Expr::Chain { .. }
        | Expr::Unary { .. }
        | Expr::IsIn { .. }
        | Expr::IsInSelect { .. }
        | Expr::IsBetween { .. }
        | Expr::IsNull { .. } => (b"[", b"]"),
        _ => (b"", b""),
    }
}

/// Adds the shape of an expression: what it prints, with square brackets round each chain, each run of operators before
/// a part and each predicate. A SELECT within it is printed as it is.
#[cycle(shape)]
pub fn add_shape(alloc: Global, expr: &Expr, out: &mut Bytes) -> Result<(), NoMemory> {
    let (open, close) = brackets(expr);
    out.extend(open)?;
    match expr {
        Expr::Chain { first, rest } => {
            add_shape(alloc, first.get(), out)?;
            add_links(alloc, rest.get(), out)?;
        }
        Expr::Unary { ops, part } => {
            add_ops(ops.get(), out)?;
            add_shape(alloc, part.get(), out)?;
        }
        Expr::Paren(part) => add_enclosed(alloc, part, out)?,
        Expr::Call { parts, .. } => {
            add_head(alloc, expr, out)?;
            add_list(alloc, parts, out)?;
        }
        Expr::Convert { part, .. } => {
            add_head(alloc, expr, out)?;
            add_enclosed(alloc, part, out)?;
        }
        Expr::IsIn { not, part, list } => {
            add_shape(alloc, part.get(), out)?;
            out.extend(if *not { b" NOT IN " } else { b" IN " })?;
            add_list(alloc, list.get(), out)?;
        }
        Expr::IsBetween {
            not,
            part,
            low,
            high,
        } => {
            add_shape(alloc, part.get(), out)?;
            out.extend(if *not { b" NOT BETWEEN " } else { b" BETWEEN " })?;
            add_shape(alloc, low.get(), out)?;
            out.extend(b" AND ")?;
            add_shape(alloc, high.get(), out)?;
        }
        Expr::IsInSelect { part, .. } | Expr::IsNull { part, .. } => {
            add_shape(alloc, part.get(), out)?;
            add_behind(alloc, expr, part.get(), out)?;
        }
        _ => print_expr(expr, out)?,
    }
    out.extend(close)
}

/// Adds the operators and parts of a chain behind its first part.
#[cycle(shape)]
fn add_links(alloc: Global, links: &Links, out: &mut Bytes) -> Result<(), NoMemory> {
    for link in links.as_slice() {
        out.push(b' ')?;
        out.extend(operator_bytes(link.op))?;
        out.push(b' ')?;
        add_shape(alloc, &link.part, out)?;
    }
    Ok(())
}

/// Adds the shape of a part in brackets.
#[cycle(shape)]
fn add_enclosed(alloc: Global, part: &Boxed<Expr>, out: &mut Bytes) -> Result<(), NoMemory> {
    out.push(b'(')?;
    add_shape(alloc, part.get(), out)?;
    out.push(b')')
}

/// Adds the shapes of expressions in brackets.
#[cycle(shape)]
fn add_list(alloc: Global, exprs: &Exprs, out: &mut Bytes) -> Result<(), NoMemory> {
    out.push(b'(')?;
    for (i, expr) in exprs.as_slice().iter().enumerate() {
        if i > 0 {
            out.extend(b", ")?;
        }
        add_shape(alloc, expr, out)?;
    }
    out.push(b')')
}
