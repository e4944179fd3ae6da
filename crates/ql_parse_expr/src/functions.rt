//! The functions that an expression calls, by their names.

ghost use Rattle.std.specs.Prelude.{◌≡◌, true, false, None, ◌||◌, IfSome, IfNone};
ghost use Rattle.ql_syntax.specs.Lexemes.{is_count, is_function};
ghost use Rattle.ql_parse_expr.specs.Functions.{named, is_count_function};
ghost use Rattle.ql_syntax.specs.Trees.{function_named};

use ql_cursor::is_spelled;
use ql_syntax::Function;

/// The function with a name.
pub fn function_of(text: &[u8]) -> Option<Function>
    ensures none { IfNone result ((is_count (named text.now) ≡ false)
        × (is_function (named text.now) ≡ false)) }
    ensures some { IfSome result (λ f. f ≡ function_named text.now) }
    ensures count { IfSome result (λ f. is_count (named text.now) ≡ is_count_function f) }
    ensures other { IfSome result (λ f. is_count (named text.now)
        || is_function (named text.now) ≡ true) }
{
    if is_spelled(text, Function::Id.name()) {
        Some(Function::Id)
    } else if is_spelled(text, Function::Len.name()) {
        Some(Function::Len)
    } else if is_spelled(text, Function::Contains.name()) {
        Some(Function::Contains)
    } else if is_spelled(text, Function::HasPrefix.name()) {
        Some(Function::HasPrefix)
    } else if is_spelled(text, Function::HasSuffix.name()) {
        Some(Function::HasSuffix)
    } else if is_spelled(text, Function::Coalesce.name()) {
        Some(Function::Coalesce)
    } else if is_spelled(text, Function::Count.name()) {
        Some(Function::Count)
    } else if is_spelled(text, Function::Sum.name()) {
        Some(Function::Sum)
    } else if is_spelled(text, Function::Avg.name()) {
        Some(Function::Avg)
    } else if is_spelled(text, Function::Min.name()) {
        Some(Function::Min)
    } else if is_spelled(text, Function::Max.name()) {
        Some(Function::Max)
    } else {
        None
    }
}

/// Whether the function is count, whose part may be `*`.
pub fn is_count(function: Function) -> bool
    ensures { result ≡ is_count_function function }
{
    matches!(function, Function::Count)
}
