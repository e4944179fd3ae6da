//! Whether an aggregate stands in a resolved expression.

ghost use Rattle.std.specs.Prelude.{◌≡◌, map};
ghost use Rattle.ql_syntax.specs.Aggregates as spec;

use ql_syntax::{Typed, TypedLink, TypedLinks, Typeds};

/// Whether an aggregate stands in a resolved expression.
#[cycle(aggregate)]
pub fn has_aggregate(tree: &Typed) -> bool
    ensures { result ≡ spec.has_aggregate tree.now }
{
    match tree {
        Typed::Constant(_) => false,
        Typed::Place { .. } => false,
        Typed::Chain { first, rest } => has_aggregate(first.get()) || links_have_one(rest),
        Typed::Unary { part, .. } => has_aggregate(part.get()),
        Typed::Convert { part, .. } => has_aggregate(part.get()),
        Typed::Narrow { part, .. } => has_aggregate(part.get()),
        Typed::Call { parts, .. } => parts_have_one(parts),
        Typed::Aggregate { .. } => true,
        Typed::IsIn { part, list } => has_aggregate(part.get()) || parts_have_one(list),
        Typed::IsNull { part } => has_aggregate(part.get()),
    }
}

/// Whether one stands in one of several expressions.
#[cycle(aggregate)]
fn parts_have_one(parts: &Typeds) -> bool
    ensures { result ≡ spec.any_aggregate parts.now }
{
    'parts: for part in parts.as_slice() {
        if has_aggregate(part) {
            return true;
        }
    }
    false
}

/// Whether one stands in a link of a chain.
#[cycle(aggregate)]
fn link_has_one(link: &TypedLink) -> bool
    ensures { result ≡ spec.link_has_aggregate link.now }
{
    has_aggregate(&link.part)
}

/// Whether one stands in one of the links of a chain.
#[cycle(aggregate)]
fn links_have_one(links: &TypedLinks) -> bool
    ensures { result ≡ spec.is_any (map spec.link_has_aggregate links.now) }
{
    'links: for link in links.as_slice() {
        if link_has_one(link) {
            return true;
        }
    }
    false
}
