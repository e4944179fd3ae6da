//! Lists with commas.

ghost use Rattle.std.specs.Prelude.{◌≡◌};
ghost use Rattle.ql_cursor.specs.Parts.{ListOf, ReadsPart};
ghost use Rattle.ql_cursor.specs.Parses.{Answers};
ghost use Rattle.ql_syntax.specs.Rules as rule;

use crate::cursor::Cursor;
use crate::fault::Fault;
use crate::steps::eat_mark;
use ql_edge::Items;
use ql_lex::Mark;
use std::alloc::Global;

/// A list of the grammar, told by what its members are.
pub trait Listed {
    type Member;

    ghost of: { ListOf Self.Member };

    /// Whether a member can begin at the next token.
    fn begins(cursor: &Cursor<'_>) -> bool
        ensures { result ≡ rule.enters of.rule cursor.now };
}

/// A list with commas between its members, and one comma more or none at its end.
pub fn list<L: Listed, P: Fn(usize, &mut Cursor<'_>) -> Result<L::Member, Fault>>(
    alloc: Global,
    room: usize,
    cursor: &mut Cursor<'_>,
    part: P,
) -> Result<Items<L::Member>, Fault>
where
    L::Member: Drop,
    requires { ReadsPart room L.of.rule L.of.tree (P.pre part room) (P.post part room) }
    ensures { Answers room (rule.list L.of.rule) L.of.items cursor.old result cursor.new }
{
    let mut items = Items::new(alloc);
    items.push(part(room, cursor)?)?;
    'members: while eat_mark(cursor, Mark::Comma) {
        if !L::begins(cursor) {
            break;
        }
        items.push(part(room, cursor)?)?;
    }
    items.shrink_to_fit();
    Ok(items)
}
