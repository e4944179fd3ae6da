//! The columns that the values of a statement are for.

ghost use Rattle.std.specs.Prelude.{◌≡◌, ℕ, [], ◌∷◌, ◌++◌, List, length, IfOk, OnOk};
ghost use Rattle.ql_value.specs.Kinds as kinds;
ghost use Rattle.ql_syntax.specs.Typing as types;
ghost use Rattle.ql_rel.specs.Targets as spec;
ghost use Rattle.ql_check_expr.specs.Gives.{Gives};
ghost use Rattle.ql_check.specs.NameSets.{HoldsNames};

use crate::names::add_name;
use ql_check_expr::{CheckFault, meet_type, require_type};
use ql_edge::{Items, Name, Names, NoMemory, Numbers};
use ql_rel::Target;
use ql_syntax::{Checked, CheckedList, ColumnDef, Typed, Typeds, Typing};
use ql_value::{AMBIGUOUS, COUNT, Kind, NO_COLUMN, Refusal};
use std::alloc::Global;
use std::collections::BTreeSet;

/// Columns that values are for, in the order of the values.
pub(crate) type Targets = Items<Target>;

/// The column with a name.
fn target_named(name: &[u8], columns: &[ColumnDef]) -> Option<Target>
    ensures { result ≡ spec.target_named name.now 0 columns.now }
{
    'columns: for (at, column) in columns.iter().enumerate() {
        if column.name.as_slice() == name {
            return Some(Target {
                at: at as u64,
                kind: column.kind,
            });
        }
    }
    None
}

/// A column that is there.
fn target_there(alloc: Global, columns: &[ColumnDef], name: &[u8]) -> Result<Target, CheckFault>
    ensures { Gives (spec.target_there name.now (spec.target_named name.now 0 columns.now)) result }
{
    match target_named(name, columns) {
        Some(target) => Ok(target),
        None => Err(CheckFault::Refused(Refusal::with_name(alloc, NO_COLUMN, name)?)),
    }
}

/// A column that is named behind others, which its name is added to.
fn named_once<'a>(
    alloc: Global,
    names: &mut BTreeSet<&'a [u8]>,
    name: &'a [u8],
) -> Result<(), CheckFault>
    ensures once { (before : List (List ℕ)) → HoldsNames names.old before
        → Gives (spec.named_once name.now before) result }
    ensures names { (before : List (List ℕ)) → HoldsNames names.old before
        → OnOk result (HoldsNames names.new (before ++ name.now ∷ [])) }
{
    if !add_name(names, name)? {
        return Err(CheckFault::Refused(Refusal::with_name(alloc, AMBIGUOUS, name)?));
    }
    Ok(())
}

/// A column that values are for, named behind others.
pub(crate) fn new_target<'a>(
    alloc: Global,
    names: &mut BTreeSet<&'a [u8]>,
    columns: &[ColumnDef],
    name: &'a Name,
) -> Result<Target, CheckFault>
    ensures new { (before : List (List ℕ)) → HoldsNames names.old before
        → Gives (spec.new_target columns.now before name.now) result }
    ensures names { (before : List (List ℕ)) → HoldsNames names.old before
        → OnOk result (HoldsNames names.new (before ++ name.now ∷ [])) }
{
    let target = target_there(alloc, columns, name.as_slice())?;
    named_once(alloc, names, name.as_slice())?;
    Ok(target)
}

/// All columns of a table, in their order.
fn all_targets(alloc: Global, columns: &[ColumnDef]) -> Result<Targets, NoMemory>
    ensures { IfOk result (λ targets. targets ≡ spec.all_targets 0 columns.now) }
{
    let mut targets = Targets::with_capacity(alloc, columns.len())?;
    'columns: for (at, column) in columns.iter().enumerate() {
        targets.push(Target {
            at: at as u64,
            kind: column.kind,
        })?;
    }
    Ok(targets)
}

/// Columns that are named, in the order of their names.
fn named_targets(
    alloc: Global,
    columns: &[ColumnDef],
    named: &[Name],
) -> Result<Targets, CheckFault>
    ensures { Gives (spec.named_targets columns.now [] named.now) result }
{
    let mut names = BTreeSet::new(alloc);
    let mut targets = Targets::new(alloc);
    'named: for name in named {
        targets.push(new_target(alloc, &mut names, columns, name)?)?;
    }
    Ok(targets)
}

/// The columns of an INSERT.
pub(crate) fn targets_of(
    alloc: Global,
    columns: &[ColumnDef],
    names: &Names,
) -> Result<Targets, CheckFault>
    ensures { Gives (spec.targets_of columns.now names.now) result }
{
    if names.len() == 0 {
        return Ok(all_targets(alloc, columns)?);
    }
    named_targets(alloc, columns, names.as_slice())
}

/// The numbers of the columns.
pub(crate) fn numbers_of(alloc: Global, targets: &[Target]) -> Result<Numbers, NoMemory>
    ensures { IfOk result (λ numbers. numbers ≡ spec.numbers_of targets.now) }
{
    let mut numbers = Numbers::with_capacity(alloc, targets.len())?;
    'targets: for target in targets {
        numbers.push(target.at)?;
    }
    Ok(numbers)
}

/// The type, where its kind is this one.
fn among_kind(kind: Kind, typing: Typing) -> Typing
    ensures { result ≡ types.among (kinds.same_kind kind) typing }
{
    match typing {
        Typing::OfKind(other) => {
            if kind == other {
                Typing::OfKind(other)
            } else {
                Typing::Ill
            }
        }
        other => other,
    }
}

/// A value for a column of a kind.
pub(crate) fn for_kind(alloc: Global, kind: Kind, checked: Checked) -> Result<Typed, CheckFault>
    ensures { Gives (spec.for_kind kind checked) result }
{
    let met = meet_type(alloc, Typing::OfKind(kind), checked)?;
    require_type(alloc, among_kind(kind, met.typing))?;
    Ok(met.tree)
}

/// Values for columns, of which there are as many.
fn for_targets(alloc: Global, targets: &[Target], parts: CheckedList) -> Result<Typeds, CheckFault>
    requires { length parts ≡ length targets.now }
    ensures { Gives (spec.for_targets targets.now parts) result }
{
    let mut trees = Typeds::with_capacity(alloc, targets.len())?;
    let mut at = 0;
    'parts: for part in parts.into_vec() {
        trees.push(for_kind(alloc, targets[at].kind, part)?)?;
        at += 1;
    }
    Ok(trees)
}

/// As many values as columns.
pub(crate) fn counted_for(
    alloc: Global,
    targets: &[Target],
    parts: CheckedList,
) -> Result<Typeds, CheckFault>
    ensures { Gives (spec.counted_for targets.now parts) result }
{
    if parts.len() != targets.len() {
        return Err(CheckFault::Refused(Refusal::new(alloc, COUNT)));
    }
    for_targets(alloc, targets, parts)
}
