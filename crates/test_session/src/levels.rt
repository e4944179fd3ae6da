//! A session with two transactions, over tables of which one call fails.
ghost use Rattle.std.specs.Prelude.{◌≡◌, [], All, IfSome, IsTrue};
ghost use Rattle.ql_syntax.specs.ReadsBack.{IsReadBack};

use crate::failing::Failing;
use ql_edge::{Bytes, NoMemory};
use ql_lex::tokens;
use ql_parse::script;
use ql_print::print_statement;
use ql_rel::Rel;
use ql_shell::{Session, StepFault};
use ql_syntax::{Statement, Statements};
use std::alloc::Global;
use std::process::Abort;
use std::test::Fail;

/// The last of some statements.
fn last(statements: Statements) -> Option<Statement>
    requires { All IsReadBack statements }
    ensures { IfSome result IsReadBack }
{
    statements.into_vec().pop()
}

/// The last statement of a text. What it prints is read as it again.
fn read(alloc: Global, text: &[u8]) -> Option<Statement>
    ensures { IfSome result IsReadBack }
{
    let Ok(tokens) = tokens(alloc, text) else {
        return None;
    };
    let Ok(statements) = script(alloc, text, tokens) else {
        return None;
    };
    let mut printed = Bytes::new(alloc);
    match print_statement(statements.first()?, &mut printed) {
        Ok(()) => last(statements),
        Err(NoMemory) => None,
    }
}

/// Where a session stopped: nowhere, at a refusal with a number, or for want of memory.
#[derive(Clone, Copy, Debug, PartialEq, Eq)]
enum Stop {
    Nowhere,
    Refused(u8),
    Trouble,
}

fn stop_of(done: Result<(), StepFault>) -> Stop {
    match done {
        Ok(()) => Stop::Nowhere,
        Err(StepFault::Refused(refusal)) => Stop::Refused(refusal.number),
        Err(StepFault::Trouble(_)) => Stop::Trouble,
    }
}

/// The statements of the session.
#[derive(Drop)]
struct Texts {
    begin: Statement,
    create: Statement,
    show: Statement,
    commit: Statement,
}

fn read_all(alloc: Global) -> Option<Texts>
    ensures begin { IfSome result (λ t. IsReadBack t.begin) }
    ensures create { IfSome result (λ t. IsReadBack t.create) }
    ensures show { IfSome result (λ t. IsReadBack t.show) }
    ensures commit { IfSome result (λ t. IsReadBack t.commit) }
{
    Some(Texts {
        begin: read(alloc, b"BEGIN TRANSACTION")?,
        create: read(alloc, b"CREATE TABLE t (a int64)")?,
        show: read(alloc, b"SELECT 7")?,
        commit: read(alloc, b"COMMIT")?,
    })
}

/// Begins, makes a table, shows a row and commits; and begins again, and makes the table once more, which is refused.
fn play(session: &mut Session<Failing>, texts: &Texts) -> Result<(), StepFault>
    requires ready { IsTrue (⟦<Failing as Rel>⟧.is_ready session.old.rel) }
    requires closed { ⟦<Failing as Rel>⟧.saved session.old.rel ≡ [] }
    requires first { session.old.commits ≡ 0 }
    requires base { session.old.base ≡ 0 }
    requires begin { IsReadBack texts.now.begin }
    requires create { IsReadBack texts.now.create }
    requires show { IsReadBack texts.now.show }
    requires commit { IsReadBack texts.now.commit }
{
    session.start()?;
    session.step(&texts.begin)?;
    session.step(&texts.create)?;
    session.step(&texts.show)?;
    session.step(&texts.commit)?;
    session.step(&texts.begin)?;
    session.step(&texts.create)?;
    session.finish()
}

/// What a session leaves where its call of a number fails: where it stopped, what was shown, and how many tables there are.
#[derive(Clone, Copy)]
struct Left {
    fails: u64,
    stop: Stop,
    shown: &'static [u8],
    tables: usize,
}

fn compare(rt: &impl Abort, stop: Stop, rel: &Failing, want: &Left) {
    assert!(rt; stop == want.stop);
    assert_eq!(rt; rel.depth(), 0);
    assert_eq!(rt; rel.shown.as_slice(), want.shown);
    assert_eq!(rt; rel.schema().tables.len(), want.tables);
}

fn leaves(rt: &(impl Abort + Alloc<A = Global>), texts: &Texts, want: &Left)
    requires begin { IsReadBack texts.now.begin }
    requires create { IsReadBack texts.now.create }
    requires show { IsReadBack texts.now.show }
    requires commit { IsReadBack texts.now.commit }
{
    let rel = Failing::new(rt.alloc(), want.fails);
    let mut session = Session::new(rt.alloc(), rel, true, true, false);
    let stop = stop_of(play(&mut session, texts));
    let rel = session.into_rel();
    compare(rt, stop, &rel, want);
}

const WHOLE: &[u8] = b"7\nCOMMIT 1\n";

/// The calls in turn: begin, a new table, the text, the end of the level, its line, begin again. Then the second table is refused.
const LEFT: [Left; 7] = [
    Left {
        fails: 1,
        stop: Stop::Trouble,
        shown: b"",
        tables: 0,
    },
    Left {
        fails: 2,
        stop: Stop::Trouble,
        shown: b"",
        tables: 0,
    },
    Left {
        fails: 3,
        stop: Stop::Trouble,
        shown: b"",
        tables: 0,
    },
    Left {
        fails: 4,
        stop: Stop::Trouble,
        shown: b"7\n",
        tables: 0,
    },
    Left {
        fails: 5,
        stop: Stop::Trouble,
        shown: b"7\n",
        tables: 1,
    },
    Left {
        fails: 6,
        stop: Stop::Trouble,
        shown: WHOLE,
        tables: 1,
    },
    Left {
        fails: 7,
        stop: Stop::Refused(4),
        shown: WHOLE,
        tables: 1,
    },
];

#[test]
fn ends_at_each_call(rt: HostRuntime) -> Result<(), Fail> {
    let texts = read_all(rt.alloc()).expect(&rt, "statements are read");
    for want in &LEFT {
        leaves(&rt, &texts, want);
    }
    Ok(())
}
