//! Plans and refusals of a few statements.

use ql_check::{CheckFault, Plan, check};
use ql_edge::{Boxed, NoMemory};
use ql_rel::{Indexes, Schema, TableSchemas};
use ql_syntax::{Expr, Exprs, Field, Fields, FromSets, Link, Links, Select, Statement, Statements};
use ql_value::{BinOp, CONSTANT_RANGE, Kind, TYPE};
use std::alloc::Global;
use std::test::Fail;

/// `1 + part`
fn one_plus(alloc: Global, part: Expr) -> Result<Expr, NoMemory> {
    let mut rest = Links::new(alloc);
    rest.push(Link {
        op: BinOp::Add,
        part,
    })?;
    let first = Boxed::new(alloc, Expr::Number(1))?;
    let rest = Boxed::new(alloc, rest)?;
    Ok(Expr::Chain { first, rest })
}

/// `SELECT expr`
fn select(alloc: Global, expr: Expr) -> Result<Statement, NoMemory> {
    let mut fields = Fields::new(alloc);
    fields.push(Field { expr, alias: None })?;
    let select = Select {
        distinct: false,
        fields,
        sets: FromSets::new(alloc),
        join: None,
        filter: None,
        groups: Exprs::new(alloc),
        keys: Exprs::new(alloc),
        descending: false,
        limit: None,
        offset: None,
    };
    Ok(Statement::Query(Boxed::new(alloc, select)?))
}

/// A schema without tables.
fn no_tables(alloc: Global) -> Schema {
    Schema {
        tables: TableSchemas::new(alloc),
        indexes: Indexes::new(alloc),
    }
}

/// The number of a refusal, 0 for a plan, and 255 where memory ran out.
fn number_of(answer: &Result<Plan, CheckFault>) -> u8 {
    match answer {
        Ok(_) => 0,
        Err(CheckFault::Refused(refusal)) => refusal.number,
        Err(CheckFault::NoMemory) => 255,
    }
}

/// What a statement comes to over no tables.
fn outcome(alloc: Global, statement: &Statement) -> u8 {
    let schema = no_tables(alloc);
    number_of(&check(alloc, statement, &schema))
}

/// `SELECT expr` as a script.
fn script(alloc: Global, expr: Expr) -> Result<Statements, NoMemory> {
    let mut statements = Statements::new(alloc);
    statements.push(select(alloc, expr)?)?;
    Ok(statements)
}

/// What `SELECT expr` comes to.
fn outcome_of(alloc: Global, expr: Expr) -> Result<u8, NoMemory> {
    let statements = script(alloc, expr)?;
    match statements.as_slice().first() {
        Some(statement) => Ok(outcome(alloc, statement)),
        None => Ok(254),
    }
}

/// What `SELECT 1 + part` comes to.
fn outcome_of_sum(alloc: Global, part: Expr) -> Result<u8, NoMemory> {
    outcome_of(alloc, one_plus(alloc, part)?)
}

/// What `SELECT uint8(number)` comes to.
fn outcome_of_byte(alloc: Global, number: u64) -> Result<u8, NoMemory> {
    let part = Boxed::new(alloc, Expr::Number(number))?;
    outcome_of(
        alloc,
        Expr::Convert {
            kind: Kind::Uint8,
            part,
        },
    )
}

#[test]
fn sums(rt: HostRuntime) -> Result<(), Fail> {
    assert_eq!(rt; outcome_of_sum(rt.alloc(), Expr::Number(2))?, 0);
    assert_eq!(rt; outcome_of_sum(rt.alloc(), Expr::Truth(true))?, TYPE);
    Ok(())
}

#[test]
fn literals(rt: HostRuntime) -> Result<(), Fail> {
    assert_eq!(rt; outcome_of_byte(rt.alloc(), 255)?, 0);
    assert_eq!(rt; outcome_of_byte(rt.alloc(), 256)?, CONSTANT_RANGE);
    Ok(())
}
