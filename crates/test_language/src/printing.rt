//! Printed statements, expressions and numbers.
use ql_edge::{Boxed, Bytes, Name, NoMemory};
use ql_print::{print_column, print_expr, print_item, print_statement};
use ql_syntax::{ColumnDef, ColumnDefs, Expr, Item, Link, Links, Statement};
use ql_value::{BinOp, Kind, UnOp, UnOps, Value, print_number, print_text, print_value};
use std::alloc::Global;
use std::test::Fail;

/// The column `a int64` of a table.
fn number_column(alloc: Global) -> Result<ColumnDef, NoMemory> {
    Ok(ColumnDef {
        name: Name::new(alloc, b"a")?,
        kind: Kind::Int64,
        not_null: false,
        rule: None,
        default: None,
    })
}

/// The column `s string NOT NULL DEFAULT "x"` of a table.
fn text_column(alloc: Global) -> Result<ColumnDef, NoMemory> {
    let name = Name::new(alloc, b"s")?;
    Ok(ColumnDef {
        name,
        kind: Kind::Text,
        not_null: true,
        rule: None,
        default: Some(Boxed::new(alloc, Expr::Text(Bytes::from_slice(alloc, b"x")?))?),
    })
}

/// `CREATE TABLE t` with both columns.
fn table(alloc: Global) -> Result<Statement, NoMemory> {
    let table = Name::new(alloc, b"t")?;
    let mut columns = ColumnDefs::new(alloc);
    columns.push(number_column(alloc)?)?;
    columns.push(text_column(alloc)?)?;
    Ok(Statement::CreateTable {
        quiet: false,
        table,
        columns,
    })
}

#[test]
fn prints_a_table(rt: HostRuntime) -> Result<(), Fail> {
    let statement = table(rt.alloc())?;
    let mut out = Bytes::new(rt.alloc());
    print_statement(&statement, &mut out)?;
    let want = b"CREATE TABLE t (a int64, s string NOT NULL DEFAULT \"x\")";
    assert_eq!(rt; out.as_slice(), want.as_slice());
    Ok(())
}

#[test]
fn prints_a_column_and_an_item(rt: HostRuntime) -> Result<(), Fail> {
    let mut out = Bytes::new(rt.alloc());
    print_column(&text_column(rt.alloc())?, &mut out)?;
    out.push(b';')?;
    print_item(&Item::Column(Name::new(rt.alloc(), b"a")?), &mut out)?;
    out.push(b';')?;
    print_item(&Item::Id, &mut out)?;
    let want = b"s string NOT NULL DEFAULT \"x\";a;id()";
    assert_eq!(rt; out.as_slice(), want.as_slice());
    Ok(())
}

/// `- -(5)`.
fn negation(alloc: Global) -> Result<Expr, NoMemory> {
    let mut ops = UnOps::new(alloc);
    ops.push(UnOp::Minus)?;
    ops.push(UnOp::Minus)?;
    let ops = Boxed::new(alloc, ops)?;
    let part = Boxed::new(alloc, Expr::Paren(Boxed::new(alloc, Expr::Number(5))?))?;
    Ok(Expr::Unary { ops, part })
}

/// `- -(5) != NULL`.
fn comparison(alloc: Global) -> Result<Expr, NoMemory> {
    let mut rest = Links::new(alloc);
    rest.push(Link {
        op: BinOp::Ne,
        part: Expr::Null,
    })?;
    let first = Boxed::new(alloc, negation(alloc)?)?;
    let rest = Boxed::new(alloc, rest)?;
    Ok(Expr::Chain { first, rest })
}

#[test]
fn prints_an_expression(rt: HostRuntime) -> Result<(), Fail> {
    let expr = comparison(rt.alloc())?;
    let mut out = Bytes::new(rt.alloc());
    print_expr(&expr, &mut out)?;
    print_text(b" \"\x01", &mut out)?;
    print_number(18446744073709551615, &mut out)?;
    let want = b"- -(5) != NULL\" \\\"\\x01\"18446744073709551615";
    assert_eq!(rt; out.as_slice(), want.as_slice());
    Ok(())
}

#[test]
fn prints_numbers(rt: HostRuntime) -> Result<(), Fail> {
    let mut out = Bytes::new(rt.alloc());
    for number in [0, -1, 42, 18446744073709551615, -9223372036854775808] {
        print_value(&Value::Int(Kind::Int64, number), &mut out)?;
        out.push(b' ')?;
    }
    let want = b"0 -1 42 18446744073709551615 -9223372036854775808 ";
    assert_eq!(rt; out.as_slice(), want.as_slice());
    Ok(())
}
