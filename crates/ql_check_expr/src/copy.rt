//! Copies of resolved expressions.

ghost use Rattle.std.specs.Prelude.{◌≡◌, IfOk};

use ql_edge::{Boxed, NoMemory};
use ql_syntax::{Typed, TypedLink, TypedLinks, Typeds};
use ql_value::{UnOps, copy_value};
use std::alloc::Global;

/// A copy of a resolved expression.
#[cycle(copy)]
pub(crate) fn copy_typed(alloc: Global, tree: &Typed) -> Result<Typed, NoMemory>
    ensures { IfOk result (λ copy. copy ≡ tree.now) }
{
    match tree {
        Typed::Constant(value) => Ok(Typed::Constant(copy_value(alloc, value)?)),
        Typed::Place { at } => Ok(Typed::Place { at: *at }),
        Typed::Chain { first, rest } => {
            let rest = copy_links(alloc, rest)?;
            let first = copy_boxed(alloc, first)?;
            Ok(Typed::Chain { first, rest })
        }
        Typed::Unary { ops, part } => {
            let ops = UnOps::from_slice(alloc, ops.as_slice())?;
            let part = copy_boxed(alloc, part)?;
            Ok(Typed::Unary { ops, part })
        }
        Typed::Convert { kind, part } => {
            let part = copy_boxed(alloc, part)?;
            Ok(Typed::Convert { kind: *kind, part })
        }
        Typed::Narrow { kind, part } => {
            let part = copy_boxed(alloc, part)?;
            Ok(Typed::Narrow { kind: *kind, part })
        }
        Typed::Call { function, parts } => {
            let parts = copy_typeds(alloc, parts)?;
            Ok(Typed::Call {
                function: *function,
                parts,
            })
        }
        Typed::Aggregate {
            function,
            kind,
            part,
        } => {
            let mut copy = None;
            if let Some(part) = part {
                copy = Some(copy_boxed(alloc, part)?);
            }
            Ok(Typed::Aggregate {
                function: *function,
                kind: *kind,
                part: copy,
            })
        }
        Typed::IsIn { part, list } => {
            let list = copy_typeds(alloc, list)?;
            let part = copy_boxed(alloc, part)?;
            Ok(Typed::IsIn { part, list })
        }
        Typed::IsNull { part } => {
            let part = copy_boxed(alloc, part)?;
            Ok(Typed::IsNull { part })
        }
    }
}

#[cycle(copy)]
fn copy_boxed(alloc: Global, part: &Boxed<Typed>) -> Result<Boxed<Typed>, NoMemory>
    ensures { IfOk result (λ copy. copy ≡ part.now) }
{
    let copy = copy_typed(alloc, part.get())?;
    Boxed::new(alloc, copy)
}

#[cycle(copy)]
fn copy_typeds(alloc: Global, parts: &Typeds) -> Result<Typeds, NoMemory>
    ensures { IfOk result (λ copy. copy ≡ parts.now) }
{
    let mut copy = Typeds::new(alloc);
    'parts: for part in parts.as_slice() {
        copy.push(copy_typed(alloc, part)?)?;
    }
    Ok(copy)
}

#[cycle(copy)]
fn copy_link(alloc: Global, link: &TypedLink) -> Result<TypedLink, NoMemory>
    ensures { IfOk result (λ copy. copy ≡ link.now) }
{
    let part = copy_typed(alloc, &link.part)?;
    Ok(TypedLink { op: link.op, part })
}

#[cycle(copy)]
fn copy_links(alloc: Global, links: &TypedLinks) -> Result<TypedLinks, NoMemory>
    ensures { IfOk result (λ copy. copy ≡ links.now) }
{
    let mut copy = TypedLinks::new(alloc);
    'links: for link in links.as_slice() {
        copy.push(copy_link(alloc, link)?)?;
    }
    Ok(copy)
}
