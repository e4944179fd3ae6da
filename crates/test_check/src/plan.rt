use ql_edge::{Bytes, NoMemory};
use ql_rel::Plan;
use ql_syntax::{Typed, Typeds};
use ql_value::print_number;

/// Adds the place of the row at which an expression is the value.
fn add_place(expr: &Typed, out: &mut Bytes) -> Result<(), NoMemory> {
    if let Typed::Place { at } = expr {
        out.push(b'@')?;
        print_number(*at as u64, out)?;
    }
    Ok(())
}

/// Adds a name, or `-` where there is none.
fn add_name(name: &[u8], out: &mut Bytes) -> Result<(), NoMemory> {
    out.extend(if name.is_empty() { b"-" } else { name })
}

/// Adds what stands before a part of a list.
fn add_gap(i: usize, out: &mut Bytes) -> Result<(), NoMemory> {
    out.extend(if i > 0 { b", " } else { b" " })
}

/// Adds the fields of a plan.
fn add_fields(plan: &Plan, out: &mut Bytes) -> Result<(), NoMemory> {
    let names = plan.names.as_slice();
    for (i, (field, name)) in plan.fields.as_slice().iter().zip(names).enumerate() {
        add_gap(i, out)?;
        add_name(name.as_slice(), out)?;
        add_place(field, out)?;
    }
    Ok(())
}

/// Adds expressions without names.
fn add_parts(parts: &Typeds, out: &mut Bytes) -> Result<(), NoMemory> {
    for (i, part) in parts.as_slice().iter().enumerate() {
        add_gap(i, out)?;
        add_name(b"", out)?;
        add_place(part, out)?;
    }
    Ok(())
}

/// Adds the columns of an INSERT by their numbers.
fn add_targets(plan: &Plan, out: &mut Bytes) -> Result<(), NoMemory> {
    out.extend(b" INTO")?;
    for (i, target) in plan.targets.as_slice().iter().enumerate() {
        add_gap(i, out)?;
        print_number(*target, out)?;
    }
    Ok(())
}

/// Adds how many rows an INSERT has.
fn add_rows(plan: &Plan, out: &mut Bytes) -> Result<(), NoMemory> {
    out.extend(b" ROWS ")?;
    print_number(plan.rows.len() as u64, out)
}

/// Adds the columns of an UPDATE by their numbers, each with its new value.
fn add_sets(plan: &Plan, out: &mut Bytes) -> Result<(), NoMemory> {
    out.extend(b" SET")?;
    let fields = plan.fields.as_slice();
    for (i, (target, field)) in plan.targets.as_slice().iter().zip(fields).enumerate() {
        add_gap(i, out)?;
        print_number(*target, out)?;
        out.extend(b" = -")?;
        add_place(field, out)?;
    }
    Ok(())
}

/// Adds the fields of a SELECT, by what it groups, and by what it orders.
fn add_select(plan: &Plan, out: &mut Bytes) -> Result<(), NoMemory> {
    add_fields(plan, out)?;
    if plan.grouped {
        out.extend(b" GROUP")?;
        add_parts(&plan.groups, out)?;
    }
    if plan.keys.len() > 0 {
        out.extend(b" ORDER")?;
        add_parts(&plan.keys, out)?;
    }
    Ok(())
}

/// Adds a plan.
pub fn add_plan(plan: &Plan, out: &mut Bytes) -> Result<(), NoMemory> {
    out.extend(b"ok")?;
    if plan.rows.len() > 0 {
        add_targets(plan, out)?;
        return add_rows(plan, out);
    }
    if plan.targets.len() == 0 {
        return add_select(plan, out);
    }
    if plan.names.len() == 0 {
        return add_sets(plan, out);
    }
    add_targets(plan, out)?;
    out.extend(b" SELECT")?;
    add_select(plan, out)
}
