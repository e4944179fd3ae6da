//! A run: what the words ask for, carried out and warned of.
ghost use Rattle.std.specs.Prelude.{◌≡◌, ◌⊎◌, ℕ, ◌+◌, ◌<◌, ◌≤◌, All, IsTrue, [], List, length, map, Option, None, Some, Result, Err, IfOk, IfErr, OnOk};
ghost use Rattle.std.specs.String.{string_bytes};
ghost use Rattle.ql_edge.specs.Cause.{Rose};
ghost use Rattle.ql_edge.specs.Frame.{Keeps};
ghost use Rattle.ql_edge.specs.Told.{shown_of, warned_of};
ghost use Rattle.ql_syntax.specs.declared.statement.Statement.{Statement};
ghost use Rattle.ql_syntax.specs.ReadsBack.{IsReadBack};
ghost use Rattle.ql_shell.specs.Cause.{IsCausedReading, IsCausedStatus};
ghost use Rattle.ql_shell.specs.Comes.{Comes, longest_script};
ghost use Rattle.ql_rel.specs.Databases.{empty_db};
ghost use Rattle.ql_rel.specs.Events.{kept_after};
ghost use Rattle.ql_rel.specs.Sessions.{State, session};
ghost use Rattle.ql_shell.specs.Goings.{IsAt, MayGoOn};
ghost use Rattle.ql_shell.specs.Meaning.{Answer, answer_of, answered, course_of, Means};
ghost use Rattle.ql_shell.specs.Pieces.{ShowsText};
ghost use Rattle.ql_shell.specs.Run.{IsFinal, Gives, Warns, IsFrontShown, IsAddedTo, IsShown, IsRefusedWhole, EndsEarly, EndsScript, EndsStatements, IsScript, TellsScript, Takes, TakesAll, TakesAtMost};
ghost use Rattle.ql_shell.specs.Stops.{EndsBy, MayEnd, MayStop, StopsBy};
ghost use Rattle.ql_shell.specs.Words.{command_of, options_of};
ghost use Rattle.ql_shell.specs.declared.options.Options.{Options};
ghost use Rattle.ql_shell.specs.declared.status.ScriptFault.{ScriptFault};
ghost use Rattle.ql_shell.specs.declared.status.ScriptFault.TheVariants as fault;
ghost use Rattle.ql_shell.specs.declared.status.Status.TheVariants as ended;
ghost use Rattle.ql_shell.specs.declared.words.Command.TheVariants as asked;

use crate::fault::StepFault;
use crate::line::warn;
use crate::options::Options;
use crate::pair::Pair;
use crate::parsing::read_statements;
use crate::reading::read_script;
use crate::session::Session;
use crate::status::{ScriptFault, Status};
use crate::words::{Command, read_words};
use lldb_base::Trouble;
use ql_edge::{Bytes, Machine, Shows};
use ql_mem_rel::MemRel;
use ql_rel::{Rel, event_laws, session_laws};
use ql_syntax::Statements;
use std::alloc::Global;

/// How many bytes a script has at most.
pub const SCRIPT_LIMIT: usize = 16_777_216;

/// The status of a run that a trouble ends.
fn trouble_status(trouble: Trouble) -> Status
    requires { MayEnd trouble }
    ensures { EndsBy trouble result }
{
    match trouble {
        Trouble::Failed => Status::Fault,
        Trouble::NoMemory => Status::NoMemory,
        Trouble::Full { .. } => unreachable!(),
        Trouble::Damaged => unreachable!(),
    }
}

/// The status of a run that a statement of this number stopped.
fn stop_status(statement: u64, fault: StepFault) -> Status
    requires { MayStop fault }
    ensures { StopsBy statement fault result }
{
    match fault {
        StepFault::Refused(refusal) => Status::Refused { statement, refusal },
        StepFault::Trouble(trouble) => trouble_status(trouble),
    }
}

/// Carries out statements in turn, up to the first that is refused. Then no level is open.
fn carry_on<R: Rel>(script: &mut Session<R>, statements: Statements) -> Status
    requires at { (st : State) × IsAt (R.db script.old.rel) (R.saved script.old.rel)
        script.old.commits script.old.base st }
    requires on { MayGoOn (R.is_ready script.old.rel) (R.saved script.old.rel) script.old.base }
    requires first { script.old.commits ≡ 0 }
    requires limit { R.limit script.old.rel ≡ None }
    requires read { All IsReadBack statements }

    // Text and status are those of the statements from where the session stands, and so are the tables.
    ensures gives { (st : State) → IsAt (R.db script.old.rel) (R.saved script.old.rel)
        script.old.commits script.old.base st → Gives (answered (session script.old.with_names
        script.old.ack 1 statements st)) result (R.told script.old.rel) (R.told script.new.rel) }
    ensures kept { (st : State) → IsAt (R.db script.old.rel) (R.saved script.old.rel)
        script.old.commits script.old.base st → IsFinal result → R.db script.new.rel
        ≡ Some (kept_after st.kept (session script.old.with_names script.old.ack 1 statements
        st).events) }
    ensures closed { R.saved script.new.rel ≡ [] }
    ensures ends { EndsStatements result }
    ensures frame { Keeps R.left R.fixed script.old.rel script.new.rel }
    ensures cause { IsCausedStatus result (R.faults script.old.rel) (R.faults script.new.rel) }
{
    event_laws();
    session_laws();
    let mut number = 0;
    'statements: for statement in statements.into_vec() {
        number += 1;
        let done = script.step(&statement);
        drop(statement);
        match done {
            Ok(()) => {}
            Err(fault) => return stop_status(number, fault),
        }
    }
    match script.finish() {
        Ok(()) => Status::Done,
        Err(fault) => stop_status(number + 1, fault),
    }
}

/// Carries out statements in turn on tables that tell their database, of which there are none yet, up to the first that is
/// refused.
///
/// The tables are then those of the last outermost commit, unless a device failed or memory ran out.
fn carry_out<R: Rel>(alloc: Global, options: Options, rel: R, statements: Statements) -> (R, Status)
    requires ready { IsTrue (R.is_ready rel) }
    requires closed { R.saved rel ≡ [] }
    requires empty { R.db rel ≡ Some empty_db }
    requires limit { R.limit rel ≡ None }
    requires read { All IsReadBack statements }
    ensures gives { Gives (answered (course_of options statements)) result.1 (R.told rel)
        (R.told result.0) }
    ensures kept { IsFinal result.1 → R.db result.0
        ≡ Some (kept_after empty_db (course_of options statements).events) }
    ensures ended { R.saved result.0 ≡ [] }
    ensures ends { EndsStatements result.1 }
    ensures frame { Keeps R.left R.fixed rel result.0 }
    ensures cause { IsCausedStatus result.1 (R.faults rel) (R.faults result.0) }
{
    let mut script = Session::new(alloc, rel, options.bare, false, options.with_names);
    let status = match script.start() {
        Ok(()) => carry_on(&mut script, statements),
        Err(_) => Status::NoMemory,
    };
    (script.into_rel(), status)
}

/// Carries out statements in turn on tables in memory, whose text the machine shows.
fn carry_out_on<M: Shows>(
    alloc: Global,
    options: Options,
    machine: M,
    statements: Statements,
) -> (M, Status)
    requires { All IsReadBack statements }
    ensures gives { Gives (answered (course_of options statements)) result.1 (M.told machine)
        (M.told result.0) }
    ensures warned { warned_of (M.told result.0) ≡ warned_of (M.told machine) }
    ensures ends { EndsStatements result.1 }
    ensures frame { Keeps M.left M.fixed machine result.0 }
    ensures cause { IsCausedStatus result.1 (M.faults machine) (M.faults result.0) }
{
    let tables = MemRel::new(alloc);
    let (pair, status) = carry_out(alloc, options, Pair { tables, machine }, statements);
    (pair.machine, status)
}

/// Carries out a script that is not too long. Its bytes are let go before its first statement is carried out.
fn answer_script<M: Shows>(
    alloc: Global,
    options: Options,
    machine: M,
    source: Bytes,
) -> (M, Status)
    requires { length source ≤ longest_script }
    ensures gives { (outcome : Result (List Statement) ScriptFault) → Comes source outcome
        → Gives (answer_of options outcome) result.1 (M.told machine) (M.told result.0) }
    ensures means { IsFinal result.1 → (outcome : Result (List Statement) ScriptFault)
        × Comes source outcome × (result.1 ≡ (answer_of options outcome).status) }
    ensures silent { IsRefusedWhole result.1 → M.told result.0 ≡ M.told machine }
    ensures shows { ShowsText (M.told machine) (M.told result.0) }
    ensures warned { warned_of (M.told result.0) ≡ warned_of (M.told machine) }
    ensures ends { EndsScript result.1 }
    ensures frame { Keeps M.left M.fixed machine result.0 }
    ensures cause { IsCausedStatus result.1 (M.faults machine) (M.faults result.0) }
{
    let read = read_statements(alloc, source.as_slice());
    drop(source);
    match read {
        Ok(statements) => carry_out_on(alloc, options, machine, statements),
        Err(status) => (machine, status),
    }
}

/// The text of the words, where it is not too long.
fn short_text(text: Bytes) -> Result<Bytes, Status>
    ensures ok { IfOk result (λ source. (source ≡ text) × (length source ≤ longest_script)) }
    ensures too_long { IfErr result (λ s. (s ≡ ended.Script fault.TooLong)
        × (longest_script < length text)) }
{
    if text.len() > SCRIPT_LIMIT {
        return Err(Status::Script(ScriptFault::TooLong));
    }
    Ok(text)
}

/// Takes the script that a run carries out: the text of the words, or what standard input has.
fn take_script<M: Machine>(
    alloc: Global,
    command: Command,
    machine: &mut M,
) -> Result<Bytes, Status>
    ensures usage { (word : ℕ) → command ≡ asked.Usage word → result ≡ Err (ended.Usage word) }
    ensures script { IfOk result (IsScript command (M.left machine.old)) }
    ensures within { IfOk result (λ source. length source ≤ longest_script) }
    ensures all { OnOk result (TakesAll command (M.left machine.old) (M.left machine.new)) }
    ensures ends { IfErr result (EndsEarly command (M.left machine.old)) }
    ensures takes { IfErr result (λ s. Takes command s (M.left machine.old) (M.left machine.new)) }
    ensures most { TakesAtMost (longest_script + 1) (M.left machine.old) (M.left machine.new) }
    ensures frame { Keeps M.told M.fixed machine.old machine.new }
    ensures cause { IsCausedReading result (M.faults machine.old) (M.faults machine.new) }
{
    match command {
        Command::Usage(word) => Err(Status::Usage { word }),
        Command::Text(text) => short_text(text),
        Command::Input => read_script(alloc, machine),
    }
}

/// Does what the words ask for.
fn answer_command<M: Machine>(
    alloc: Global,
    options: Options,
    command: Command,
    machine: M,
) -> (M, Status)
    ensures gives { (answer : Answer) → Means options command (M.left machine) answer
        → Gives answer result.1 (M.told machine) (M.told result.0) }
    ensures means { TellsScript command (M.left machine) → IsFinal result.1
        → (answer : Answer) × Means options command (M.left machine) answer
        × (result.1 ≡ answer.status) }
    ensures usage { (word : ℕ) → command ≡ asked.Usage word → result.1 ≡ ended.Usage word }
    ensures usage_only { (word : ℕ) → result.1 ≡ ended.Usage word → command ≡ asked.Usage word }
    ensures silent { IsRefusedWhole result.1 → M.told result.0 ≡ M.told machine }
    ensures shows { ShowsText (M.told machine) (M.told result.0) }
    ensures warned { warned_of (M.told result.0) ≡ warned_of (M.told machine) }
    ensures takes { Takes command result.1 (M.left machine) (M.left result.0) }
    ensures most { TakesAtMost (longest_script + 1) (M.left machine) (M.left result.0) }
    ensures fixed { M.fixed result.0 ≡ M.fixed machine }
    ensures cause { IsCausedStatus result.1 (M.faults machine) (M.faults result.0) }
{
    let mut machine = machine;
    match take_script(alloc, command, &mut machine) {
        Ok(source) => answer_script(alloc, options, machine, source),
        Err(status) => (machine, status),
    }
}

/// Reads the words, and does what they ask for.
fn answer<M: Machine>(alloc: Global, words: &[String], machine: M) -> (M, Status)
    ensures gives { (answer : Answer) → Means (options_of (map string_bytes words.now))
        (command_of (map string_bytes words.now)) (M.left machine) answer
        → Gives answer result.1 (M.told machine) (M.told result.0) }
    ensures means { TellsScript (command_of (map string_bytes words.now)) (M.left machine)
        → IsFinal result.1
        → (answer : Answer) × Means (options_of (map string_bytes words.now))
        (command_of (map string_bytes words.now)) (M.left machine) answer
        × (result.1 ≡ answer.status) }
    ensures usage { (word : ℕ) → command_of (map string_bytes words.now) ≡ asked.Usage word
        → (result.1 ≡ ended.Usage word) ⊎ (result.1 ≡ ended.NoMemory) }
    ensures usage_only { (word : ℕ) → result.1 ≡ ended.Usage word
        → command_of (map string_bytes words.now) ≡ asked.Usage word }
    ensures silent { IsRefusedWhole result.1 → M.told result.0 ≡ M.told machine }
    ensures shows { ShowsText (M.told machine) (M.told result.0) }
    ensures warned { warned_of (M.told result.0) ≡ warned_of (M.told machine) }
    ensures takes { Takes (command_of (map string_bytes words.now)) result.1 (M.left machine)
        (M.left result.0) }
    ensures most { TakesAtMost (longest_script + 1) (M.left machine) (M.left result.0) }
    ensures fixed { M.fixed result.0 ≡ M.fixed machine }
    ensures cause { IsCausedStatus result.1 (M.faults machine) (M.faults result.0) }
{
    match read_words(alloc, words) {
        Ok(asked) => answer_command(alloc, asked.options, asked.command, machine),
        Err(_) => (machine, Status::NoMemory),
    }
}

/// Carries out a script, and warns how the run ended. The words are those behind the program's name: they hold the
/// script, or it is what the machine reads.
///
/// The machine comes back with all that happened to it.
pub fn run<M: Machine>(alloc: Global, words: &Vec<String>, machine: M) -> (M, Status)
    // What is shown is a front of the text that the words and the script mean.
    ensures shown { (answer : Answer) → Means (options_of (map string_bytes words.now.items))
        (command_of (map string_bytes words.now.items)) (M.left machine) answer
        → IsFrontShown answer.text (shown_of (M.told machine)) (shown_of (M.told result.0)) }

    // Words and a script that is told always mean something.
    ensures meant { (options : Options) (command : Command) (input : Option (List ℕ))
        → TellsScript command input → (answer : Answer) × Means options command input answer }

    // Without a fault and want of memory, all of the text is shown, and the status is the script's own.
    ensures whole { TellsScript (command_of (map string_bytes words.now.items)) (M.left machine)
        → IsFinal result.1
        → (answer : Answer) × Means (options_of (map string_bytes words.now.items))
        (command_of (map string_bytes words.now.items)) (M.left machine) answer
        × (result.1 ≡ answer.status)
        × IsShown answer.text (shown_of (M.told machine)) (shown_of (M.told result.0)) }
    ensures answered { (answer : Answer) → Means (options_of (map string_bytes words.now.items))
        (command_of (map string_bytes words.now.items)) (M.left machine) answer
        → (result.1 ≡ answer.status) ⊎ (result.1 ≡ ended.Fault) ⊎ (result.1 ≡ ended.NoMemory) }

    // The rest holds of every machine, whatever it tells.
    ensures usage { (word : ℕ) → command_of (map string_bytes words.now.items) ≡ asked.Usage word
        → (result.1 ≡ ended.Usage word) ⊎ (result.1 ≡ ended.NoMemory) }
    ensures usage_only { (word : ℕ) → result.1 ≡ ended.Usage word
        → command_of (map string_bytes words.now.items) ≡ asked.Usage word }
    ensures silent { IsRefusedWhole result.1 → shown_of (M.told result.0)
        ≡ shown_of (M.told machine) }
    ensures warned { Warns result.1 (warned_of (M.told machine)) (warned_of (M.told result.0))
        (M.faults machine) (M.faults result.0) }
    ensures fault { result.1 ≡ ended.Fault → Rose (M.faults machine) (M.faults result.0) }
    ensures reads { Takes (command_of (map string_bytes words.now.items)) result.1 (M.left machine)
        (M.left result.0) }
    ensures most { TakesAtMost (longest_script + 1) (M.left machine) (M.left result.0) }
    ensures grows { IsAddedTo (shown_of (M.told machine)) (shown_of (M.told result.0)) }
    ensures fixed { M.fixed result.0 ≡ M.fixed machine }
{
    let (machine, status) = answer(alloc, words.as_slice(), machine);
    let mut machine = machine;
    let status = warn(alloc, &mut machine, status);
    (machine, status)
}
