ghost use Rattle.std.specs.Prelude.{◌≡◌, ℕ, [], List, ◌++◌, codes, MatchOption};
ghost use Rattle.ql_lex.specs.Comments.{ClosesComment, NeverCloses};

use crate::bytes::first;

/// What stands behind `*/`, where the text begins with it.
#[inline]
fn close_at(text: &[u8]) -> Option<&[u8]>
    ensures { MatchOption result
        ((behind : List ℕ) → text.now ≡ codes "*/" ++ behind → ⊥)
        (λ rest. text.now ≡ codes "*/" ++ rest.now) }
{
    let Some((a, rest)) = first(text) else {
        return None;
    };
    if a != b'*' {
        return None;
    }
    let Some((b, behind)) = first(rest) else {
        return None;
    };
    if b != b'/' {
        return None;
    }
    Some(behind)
}

/// What stands behind the next `*/`.
#[tactic(auto, using(crate::proofs::CommentLemmas::goes_on_same, crate::proofs::CommentLemmas::over_byte, crate::proofs::CommentLemmas::at_close, crate::proofs::CommentLemmas::at_end))]
pub fn after_comment(text: &[u8]) -> Option<&[u8]>
    ensures { MatchOption result (NeverCloses text.now) (λ rest. ClosesComment text.now rest.now) }
{
    let mut z = text;
    'bytes: while let Some((_, rest)) = first(z) {
        match close_at(z) {
            Some(behind) => return Some(behind),
            None => z = rest,
        }
    }
    None
}
