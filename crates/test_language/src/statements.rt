//! Statements that are read, printed and read again.
use ql_edge::Bytes;
use ql_lex::tokens;
use ql_parse::{BRACKET_LIMIT, ParseFault, script};
use ql_print::print_statement;
use std::alloc::Global;
use std::process::Abort;
use std::test::Fail;

/// A statement as it may be written, and as it prints.
struct Form {
    written: &'static [u8],
    printed: &'static [u8],
}

const FORMS: [Form; 18] = [
    Form {
        written: b"begin transaction",
        printed: b"BEGIN TRANSACTION;",
    },
    Form {
        written: b"commit",
        printed: b"COMMIT;",
    },
    Form {
        written: b"rollback",
        printed: b"ROLLBACK;",
    },
    Form {
        written: b"create table t(a int,s string not null default\"x\",b uint8 b>1)",
        printed: b"CREATE TABLE t (a int64, s string NOT NULL DEFAULT \"x\", b uint8 b > 1);",
    },
    Form {
        written: b"CREATE TABLE IF NOT EXISTS t (a blob,)",
        printed: b"CREATE TABLE IF NOT EXISTS t (a blob);",
    },
    Form {
        written: b"DROP TABLE t; DROP TABLE IF EXISTS t",
        printed: b"DROP TABLE t;DROP TABLE IF EXISTS t;",
    },
    Form {
        written: b"alter table t add b rune; alter table t drop column b",
        printed: b"ALTER TABLE t ADD b int32;ALTER TABLE t DROP COLUMN b;",
    },
    Form {
        written: b"create index x on t(a); create unique index if not exists y on t(id())",
        printed: b"CREATE INDEX x ON t (a);CREATE UNIQUE INDEX IF NOT EXISTS y ON t (id());",
    },
    Form {
        written: b"drop index x; drop index if exists x",
        printed: b"DROP INDEX x;DROP INDEX IF EXISTS x;",
    },
    Form {
        written: b"insert into t values(1,\"a\\x7f\"),(0x10,`b`),",
        printed: b"INSERT INTO t VALUES (1, \"a\\x7f\"), (16, \"b\");",
    },
    Form {
        written: b"insert into t(a,b,)select*from u",
        printed: b"INSERT INTO t (a, b) SELECT * FROM u;",
    },
    Form {
        written: b"update t a=a+1,b=- -a where not_b<>null",
        printed: b"UPDATE t SET a = a + 1, b = - -a WHERE not_b != NULL;",
    },
    Form {
        written: b"delete from t; delete from t where !(a is not null)",
        printed: b"DELETE FROM t;DELETE FROM t WHERE !(a IS NOT NULL);",
    },
    Form {
        written: b"truncate table t",
        printed: b"TRUNCATE TABLE t;",
    },
    Form {
        written: b"select distinct a as x,count(*),t.b from t as u,(select 1;)where a or b and true",
        printed: b"SELECT DISTINCT a AS x, count(), t.b FROM t AS u, (SELECT 1) WHERE a || b && true;",
    },
    Form {
        written: b"select*from t left join u on t.a=u.a group by a,t.b order by a asc limit 1 offset 2",
        printed: b"SELECT * FROM t LEFT OUTER JOIN u ON t.a == u.a GROUP BY a, t.b ORDER BY a LIMIT 1 OFFSET 2;",
    },
    Form {
        written: b"select a in(1,2,),a not in(select b from t),a between 1 and 2 order by a desc",
        printed: b"SELECT a IN (1, 2), a NOT IN (SELECT b FROM t), a BETWEEN 1 AND 2 ORDER BY a DESC;",
    },
    Form {
        written: b"select int(a<<1&^2),hasPrefix(s,\"a\\n\")like null,-a|+b",
        printed: b"SELECT int64(a << 1 &^ 2), hasPrefix(s, \"a\\n\") LIKE NULL, -a | +b;",
    },
];

/// The statements of a source as they print, each with a semicolon.
fn printed(alloc: Global, source: &[u8]) -> Result<Bytes, Fail> {
    let tokens = tokens(alloc, source)?;
    let statements = script(alloc, source, tokens)?;
    let mut out = Bytes::new(alloc);
    for statement in statements.as_slice() {
        print_statement(statement, &mut out)?;
        out.push(b';')?;
    }
    Ok(out)
}

fn reads_back(rt: &(impl Abort + Alloc<A = Global>), form: &Form) -> Result<(), Fail> {
    assert_eq!(rt; printed(rt.alloc(), form.written)?.as_slice(), form.printed);
    assert_eq!(rt; printed(rt.alloc(), form.printed)?.as_slice(), form.printed);
    Ok(())
}

#[test]
fn prints_what_it_reads_back(rt: HostRuntime) -> Result<(), Fail> {
    for form in &FORMS {
        reads_back(&rt, form)?;
    }
    Ok(())
}

/// The number of the first token that a source does not read at, and nothing where it reads.
fn unread(alloc: Global, source: &[u8]) -> Result<Option<ParseFault>, Fail> {
    let tokens = tokens(alloc, source)?;
    Ok(script(alloc, source, tokens).err())
}

#[test]
fn numbers_the_token_of_a_fault(rt: HostRuntime) -> Result<(), Fail> {
    assert_eq!(rt; BRACKET_LIMIT, 200);
    assert_eq!(rt; unread(rt.alloc(), b"SELECT 1;")?, None);
    assert_eq!(rt;
        unread(rt.alloc(), b"SELECT FROM t")?,
        Some(ParseFault::Unexpected(1))
    );
    assert_eq!(rt;
        unread(rt.alloc(), b"SELECT")?,
        Some(ParseFault::Unexpected(1))
    );
    Ok(())
}
