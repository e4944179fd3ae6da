//! Rows as text.

ghost use Rattle.std.specs.Prelude.{◌≡◌, ◌++◌, map, OnOk, IfOk};
ghost use Rattle.ql_value.specs.declared.value.Value.TheVariants as v;
ghost use Rattle.ql_rel.specs.Rows as spec;
ghost use Rattle.ql_rel.specs.SelectRows as select;

use ql_edge::{Bytes, Names0, NoMemory};
use ql_value::{Value, print_text, print_value};
use std::alloc::Global;

/// Adds values, each behind a comma and a space.
fn add_more(row: &[Value], out: &mut Bytes) -> Result<(), NoMemory>
    ensures { OnOk result (out.new ≡ out.old ++ spec.more_values row.now) }
{
    for value in row {
        out.extend(b", ")?;
        print_value(value, out)?;
    }
    Ok(())
}

/// Adds the values of a row.
fn add_values(row: &[Value], out: &mut Bytes) -> Result<(), NoMemory>
    ensures { OnOk result (out.new ≡ out.old ++ spec.values_text row.now) }
{
    let Some((first, more)) = row.split_first() else {
        return Ok(());
    };
    print_value(first, out)?;
    add_more(more, out)
}

/// Adds a row, as it is shown.
pub(crate) fn add_line(row: &[Value], out: &mut Bytes) -> Result<(), NoMemory>
    ensures { OnOk result (out.new ≡ out.old ++ spec.row_line row.now) }
{
    add_values(row, out)?;
    out.push(b'\n')
}

/// Adds names as strings, each behind a comma and a space.
fn add_more_names(names: &[Bytes], out: &mut Bytes) -> Result<(), NoMemory>
    ensures { OnOk result (out.new ≡ out.old ++ spec.more_values (map v.Text names.now)) }
{
    for name in names {
        out.extend(b", ")?;
        print_text(name.as_slice(), out)?;
    }
    Ok(())
}

/// Adds the names of fields as a row of strings.
fn add_names(names: &[Bytes], out: &mut Bytes) -> Result<(), NoMemory>
    ensures { OnOk result (out.new ≡ out.old ++ spec.row_line (map v.Text names.now)) }
{
    if let Some((first, more)) = names.split_first() {
        print_text(first.as_slice(), out)?;
        add_more_names(more, out)?;
    }
    out.push(b'\n')
}

/// What stands before the rows of a SELECT: the names of its fields, where they are asked for.
pub fn heading(alloc: Global, with_names: bool, names: &Names0) -> Result<Bytes, NoMemory>
    ensures { IfOk result (λ text. text ≡ select.heading with_names names.now) }
{
    let mut text = Bytes::new(alloc);
    if with_names {
        add_names(names.as_slice(), &mut text)?;
    }
    Ok(text)
}
