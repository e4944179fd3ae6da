//! Scripts on standard input, carried out.
ghost use Rattle.std.specs.Prelude.{◌<◌};

use crate::made::{Left, bytes, failing, leaves, sound};
use ql_edge::{Bytes, MemMachine, NoMemory};
use std::alloc::Global;
use std::process::Abort;
use std::test::Fail;

const TWO_ROWS: &[u8] =
    b"CREATE TABLE t (a int64); INSERT INTO t VALUES (1), (2); SELECT * FROM t;";

/// A script, what it shows and warns, and the exit status.
struct Row {
    script: &'static [u8],
    shown: &'static [u8],
    warned: &'static [u8],
    status: u8,
}

const ROWS: [Row; 13] = [
    Row {
        script: TWO_ROWS,
        shown: b"1\n2\n",
        warned: b"",
        status: 0,
    },
    Row {
        script: b"",
        shown: b"",
        warned: b"",
        status: 0,
    },
    Row {
        script: b"SELECT * FROM u;",
        shown: b"",
        warned: b"ql: statement 1: 1 NoTable u\n",
        status: 1,
    },
    Row {
        script: b"CREATE TABLE t (a int64); CREATE TABLE t (b int64);",
        shown: b"",
        warned: b"ql: statement 2: 4 Exists t\n",
        status: 1,
    },
    Row {
        script: b"CREATE TABLE t (a int64); INSERT INTO t VALUES (1, 2);",
        shown: b"",
        warned: b"ql: statement 2: 6 Count\n",
        status: 1,
    },
    Row {
        script: b"SELECT * FROM t WHERE nosuch;",
        shown: b"",
        warned: b"ql: statement 1: 1 NoTable t\n",
        status: 1,
    },
    Row {
        script: b"/* one */ create table t (a int,); INSERT INTO t VALUES (0x10),; SELECT * FROM t, -- two",
        shown: b"16\n",
        warned: b"",
        status: 0,
    },
    Row {
        script: b"CREATE TABLE t (a int64); ; SELECT * FROM t; INSERT INTO u VALUES (9223372036854775808);",
        shown: b"",
        warned: b"ql: statement 3: 1 NoTable u\n",
        status: 1,
    },
    Row {
        script: b"SELECT #",
        shown: b"",
        warned: b"ql: byte 7: bad byte\n",
        status: 1,
    },
    Row {
        script: b"SELECT 18446744073709551616;",
        shown: b"",
        warned: b"ql: byte 7: bad literal\n",
        status: 1,
    },
    Row {
        script: b"SELECT \"a",
        shown: b"",
        warned: b"ql: byte 7: unclosed\n",
        status: 1,
    },
    Row {
        script: b"SELECT FROM t;",
        shown: b"",
        warned: b"ql: byte 7: unexpected\n",
        status: 1,
    },
    Row {
        script: b"CREATE TABLE t (a int64); SELECT * FROM ",
        shown: b"",
        warned: b"ql: byte 40: unexpected\n",
        status: 1,
    },
];

const LEVEL_ROWS: [Row; 6] = [
    Row {
        script: LEVELS,
        shown: LEVELS_SHOW,
        warned: b"",
        status: 0,
    },
    Row {
        script: b"CREATE TABLE t (a int64); BEGIN TRANSACTION; INSERT INTO t VALUES (1), (2); ROLLBACK; INSERT INTO t VALUES (3); SELECT id(), a FROM t;",
        shown: b"1, 3\n",
        warned: b"",
        status: 0,
    },
    Row {
        script: b"CREATE TABLE t (a int64); INSERT INTO t VALUES (7); BEGIN TRANSACTION; DROP TABLE t; ROLLBACK; SELECT * FROM t;",
        shown: b"7\n",
        warned: b"",
        status: 0,
    },
    Row {
        script: b"BEGIN TRANSACTION; COMMIT; ROLLBACK;",
        shown: b"",
        warned: b"ql: statement 3: 40 NoTransaction\n",
        status: 1,
    },
    Row {
        script: b"BEGIN TRANSACTION; SELECT 1;",
        shown: b"1\n",
        warned: b"ql: statement 3: 42 Unbalanced\n",
        status: 1,
    },
    Row {
        script: b"BEGIN TRANSACTION; BEGIN TRANSACTION; SELECT 1; SELECT * FROM u;",
        shown: b"1\n",
        warned: b"ql: statement 4: 1 NoTable u\n",
        status: 1,
    },
];

const EXPRESSIONS: [Row; 15] = [
    Row {
        script: b"SELECT -7 / 2, -7 % 2, -9223372036854775808 / -1;",
        shown: b"-3, -1, -9223372036854775808\n",
        warned: b"",
        status: 0,
    },
    Row {
        script: b"SELECT int8(127) + 1, uint8(0) - 1;",
        shown: b"-128, 255\n",
        warned: b"",
        status: 0,
    },
    Row {
        script: b"SELECT 18446744073709551615 + 1;",
        shown: b"0\n",
        warned: b"",
        status: 0,
    },
    Row {
        script: b"SELECT NULL && false, NULL || true, NULL == NULL;",
        shown: b"false, true, <nil>\n",
        warned: b"",
        status: 0,
    },
    Row {
        script: b"SELECT int8(100) + 100, uint8(1) << 8, int8(-128) >> 9;",
        shown: b"-56, 0, -1\n",
        warned: b"",
        status: 0,
    },
    Row {
        script: b"SELECT coalesce(NULL, 3), 5 NOT IN (1, NULL);",
        shown: b"3, <nil>\n",
        warned: b"",
        status: 0,
    },
    Row {
        script: b"SELECT \"a\" + \"b\" AS c, blob(\"\\x80\"), len(\"abc\");",
        shown: b"\"ab\", blob(\"\\x80\"), 3\n",
        warned: b"",
        status: 0,
    },
    Row {
        script: b"SELECT 1 / 0;",
        shown: b"",
        warned: b"ql: statement 1: 20 Divide\n",
        status: 1,
    },
    Row {
        script: b"SELECT uint8(300);",
        shown: b"",
        warned: b"ql: statement 1: 7 ConstantRange\n",
        status: 1,
    },
    Row {
        script: b"SELECT int8(1) + (100 + 100);",
        shown: b"",
        warned: b"ql: statement 1: 21 Range\n",
        status: 1,
    },
    Row {
        script: b"SELECT 1 << -1;",
        shown: b"",
        warned: b"ql: statement 1: 22 NegativeCount\n",
        status: 1,
    },
    Row {
        script: b"SELECT 1; SELECT (1 + \"a\") + nosuch;",
        shown: b"1\n",
        warned: b"ql: statement 2: 5 Type\n",
        status: 1,
    },
    Row {
        script: b"SELECT count(), nosuch;",
        shown: b"",
        warned: b"ql: statement 1: 2 NoColumn nosuch\n",
        status: 1,
    },
    Row {
        script: b"SELECT *;",
        shown: b"",
        warned: b"ql: statement 1: 6 Count\n",
        status: 1,
    },
    Row {
        script: b"SELECT id();",
        shown: b"",
        warned: b"ql: statement 1: 2 NoColumn id\n",
        status: 1,
    },
];

/// Runs a machine without words, and compares what is left.
fn leaves_alone(rt: &(impl Abort + Alloc<A = Global>), machine: MemMachine, want: &Left<'_>) {
    leaves(rt, &Vec::new(rt.alloc()), machine, want);
}

/// Carries out a script, and compares what is left.
fn carry_out(
    rt: &(impl Abort + Alloc<A = Global>),
    script: &[u8],
    want: &Left<'_>,
) -> Result<(), NoMemory> {
    leaves_alone(rt, sound(rt.alloc(), script)?, want);
    Ok(())
}

fn carry_out_row(rt: &(impl Abort + Alloc<A = Global>), row: &Row) -> Result<(), NoMemory> {
    let want = Left {
        shown: row.shown,
        warned: row.warned,
        status: row.status,
        faults: 0,
    };
    carry_out(rt, row.script, &want)
}

#[test]
fn carries_out_scripts(rt: HostRuntime) -> Result<(), Fail> {
    for row in &ROWS {
        carry_out_row(&rt, row)?;
    }
    Ok(())
}

#[test]
fn carries_out_levels(rt: HostRuntime) -> Result<(), Fail> {
    for row in &LEVEL_ROWS {
        carry_out_row(&rt, row)?;
    }
    Ok(())
}

#[test]
fn evaluates_expressions(rt: HostRuntime) -> Result<(), Fail> {
    for row in &EXPRESSIONS {
        carry_out_row(&rt, row)?;
    }
    Ok(())
}

/// Carries out the two rows where these device calls fail, and compares what is left.
fn carry_out_failing(
    rt: &(impl Abort + Alloc<A = Global>),
    calls: &[u64],
    want: &Left<'_>,
) -> Result<(), NoMemory> {
    leaves_alone(rt, failing(rt.alloc(), TWO_ROWS, calls, 1000, None)?, want);
    Ok(())
}

/// A run that stopped at a device fault, which it could tell.
const STOPPED: Left<'static> = Left {
    shown: b"",
    warned: b"ql: device fault\n",
    status: 3,
    faults: 1,
};

/// The same where the line failed too.
const STOPPED_SILENTLY: Left<'static> = Left {
    shown: b"",
    warned: b"",
    status: 3,
    faults: 2,
};

fn stops_at(rt: &(impl Abort + Alloc<A = Global>), call: u64) -> Result<(), NoMemory>
    requires { call < 100 }
{
    carry_out_failing(rt, &[call], &STOPPED)?;
    carry_out_failing(rt, &[call, call + 1], &STOPPED_SILENTLY)
}

#[test]
fn stops_at_a_fault(rt: HostRuntime) -> Result<(), Fail> {
    for call in 0..3 {
        stops_at(&rt, call)?;
    }
    Ok(())
}

#[test]
fn makes_three_calls(rt: HostRuntime) -> Result<(), Fail> {
    let want = Left {
        shown: b"1\n2\n",
        warned: b"",
        status: 0,
        faults: 0,
    };
    carry_out_failing(&rt, &[3], &want)?;
    Ok(())
}

#[test]
fn shows_what_there_is_room_for(rt: HostRuntime) -> Result<(), Fail> {
    let script = b"CREATE TABLE t (a int64); INSERT INTO t VALUES (1), (2), (3); SELECT * FROM t;";
    let want = Left {
        shown: b"1\n2",
        warned: b"ql: device fault\n",
        status: 3,
        faults: 1,
    };
    leaves_alone(&rt, failing(rt.alloc(), script, &[], 1000, Some(3))?, &want);
    Ok(())
}

const LEVELS: &[u8] =
    b"BEGIN TRANSACTION; CREATE TABLE t (a int64); INSERT INTO t VALUES (10), (20); SELECT * FROM t; COMMIT; SELECT 30;";

const LEVELS_SHOW: &[u8] = b"10\n20\n30\n";

/// Carries out a script with levels on a machine that fails at a byte of its text.
fn stops_inside_levels_at(
    rt: &(impl Abort + Alloc<A = Global>),
    room: usize,
) -> Result<(), NoMemory>
    requires { room < 9 }
{
    let want = Left {
        shown: &LEVELS_SHOW[..room],
        warned: b"ql: device fault\n",
        status: 3,
        faults: 1,
    };
    leaves_alone(
        rt,
        failing(rt.alloc(), LEVELS, &[], 1000, Some(room as u64))?,
        &want,
    );
    Ok(())
}

#[test]
fn stops_inside_levels(rt: HostRuntime) -> Result<(), Fail> {
    for room in 0..9 {
        stops_inside_levels_at(&rt, room)?;
    }
    Ok(())
}

#[test]
fn keeps_its_status_where_the_line_fails(rt: HostRuntime) -> Result<(), Fail> {
    let want = Left {
        shown: b"",
        warned: b"",
        status: 1,
        faults: 1,
    };
    leaves_alone(
        &rt,
        failing(rt.alloc(), b"SELECT * FROM u", &[2], 1000, None)?,
        &want,
    );
    Ok(())
}

/// What is left of a script that shows nothing.
const NOTHING: Left<'static> = Left {
    shown: b"",
    warned: b"",
    status: 0,
    faults: 0,
};

/// What is left of a script that is refused with this line.
fn refused(warned: &[u8]) -> Left<'_> {
    Left {
        shown: b"",
        warned,
        status: 1,
        faults: 0,
    }
}

/// A script that makes so many tables.
fn tables(alloc: Global, count: u32) -> Result<Bytes, Fail> {
    let mut script = Bytes::new(alloc);
    for number in 0..count {
        let line = format!(in alloc; "CREATE TABLE t{number} (a int64);\n")?;
        script.extend(line.as_bytes())?;
    }
    Ok(script)
}

#[test]
fn makes_4096_tables(rt: HostRuntime) -> Result<(), Fail> {
    let script = tables(rt.alloc(), 4096)?;
    carry_out(&rt, script.as_slice(), &NOTHING)?;
    Ok(())
}

#[test]
fn makes_4096_tables_at_most(rt: HostRuntime) -> Result<(), Fail> {
    let mut script = tables(rt.alloc(), 4096)?;
    script.extend(b"CREATE TABLE u (a int64);")?;
    let want = refused(b"ql: statement 4097: 36 TableLimit\n");
    carry_out(&rt, script.as_slice(), &want)?;
    Ok(())
}

/// `SELECT 1`, with the number in so many brackets.
fn nested(alloc: Global, brackets: u32) -> Result<Bytes, NoMemory> {
    let mut script = bytes(alloc, b"SELECT ")?;
    for _ in 0..brackets {
        script.push(b'(')?;
    }
    script.push(b'1')?;
    for _ in 0..brackets {
        script.push(b')')?;
    }
    Ok(script)
}

#[test]
fn opens_200_brackets(rt: HostRuntime) -> Result<(), Fail> {
    let script = nested(rt.alloc(), 200)?;
    let want = Left {
        shown: b"1\n",
        warned: b"",
        status: 0,
        faults: 0,
    };
    carry_out(&rt, script.as_slice(), &want)?;
    Ok(())
}

#[test]
fn opens_200_brackets_at_most(rt: HostRuntime) -> Result<(), Fail> {
    let script = nested(rt.alloc(), 201)?;
    let want = refused(b"ql: byte 207: too nested\n");
    carry_out(&rt, script.as_slice(), &want)?;
    Ok(())
}

/// A script that makes the rows from 0 up to a number, and shows them.
fn rows(alloc: Global, count: u32) -> Result<Bytes, Fail> {
    let mut script = bytes(alloc, b"CREATE TABLE t (a int64); INSERT INTO t VALUES (0)")?;
    for number in 1..count {
        let row = format!(in alloc; ",({number})")?;
        script.extend(row.as_bytes())?;
    }
    script.extend(b"; SELECT * FROM t;")?;
    Ok(script)
}

/// The numbers from 0 up to a number, a line each.
fn lines(alloc: Global, count: u32) -> Result<Bytes, Fail> {
    let mut lines = Bytes::new(alloc);
    for number in 0..count {
        let line = format!(in alloc; "{number}\n")?;
        lines.extend(line.as_bytes())?;
    }
    Ok(lines)
}

#[test]
fn shows_many_rows_in_order(rt: HostRuntime) -> Result<(), Fail> {
    let script = rows(rt.alloc(), 30000)?;
    let shown = lines(rt.alloc(), 30000)?;
    let want = Left {
        shown: shown.as_slice(),
        warned: b"",
        status: 0,
        faults: 0,
    };
    carry_out(&rt, script.as_slice(), &want)?;
    Ok(())
}
