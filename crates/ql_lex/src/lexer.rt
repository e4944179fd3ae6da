ghost use Rattle.std.specs.Prelude.{◌≡◌, ◌≢◌, ◌⊎◌, ℕ, List, Ok, Err, All, IfOk, IfErr};
ghost use Rattle.ql_lex.specs.Pieces.{LongestCounts};
ghost use Rattle.ql_lex.specs.Tokens.{Outcome, Reads, IsIn};
ghost use Rattle.ql_lex.specs.declared.token.LexFault.TheVariants as fault;

use crate::bytes::first;
use crate::pieces::{Piece, piece_at};
use crate::{LexFault, Token, Tokens};
use std::alloc::Global;

/// The tokens of a script, in their order.
///
/// Blanks and comments stand between them. A fault is the first one, at the first byte of the piece that is none.
pub fn tokens(alloc: Global, source: &[u8]) -> Result<Tokens, LexFault>
    ensures read { IfOk result (λ ts. Reads source.now (Ok ts)) }
    ensures fault { IfErr result (λ f. f ≢ fault.NoMemory → Reads source.now (Err f)) }
    ensures each { IfOk result (All (IsIn source.now)) }

    // What the script comes to is the answer, unless memory runs out.
    ensures only { (o : Outcome) → Reads source.now o → (result ≡ o)
        ⊎ (result ≡ Err fault.NoMemory) }

    // Three laws of the words above: the longest piece counts, and every script comes to one thing, and to one alone.
    ensures longest { LongestCounts }
    ensures some { (text : List ℕ) → (o : Outcome) × Reads text o }
    ensures one { (o p : Outcome) → Reads source.now o → Reads source.now p → o ≡ p }
{
    let total = source.len();
    let mut found = Tokens::new(alloc);
    let mut z = source;
    'pieces: while let Some((b, rest)) = first(z) {
        let cut = match piece_at(b, rest, z) {
            Ok(cut) => cut,
            Err(flaw) => return Err(flaw.at((total - z.len()) as u64)),
        };
        match cut.piece {
            Piece::Gap => z = cut.rest,
            Piece::Token(kind) => {
                let from = (total - z.len()) as u64;
                let to = (total - cut.rest.len()) as u64;
                found.push(Token { kind, from, to })?;
                z = cut.rest;
            }
        }
    }
    Ok(found)
}
