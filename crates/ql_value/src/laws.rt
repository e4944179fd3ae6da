//! Laws by which a reader checks the definitions.

ghost use Rattle.ql_value.specs.ArithLaws.{ArithIsExact};
ghost use Rattle.ql_value.specs.KeyLaws.{KeyLaws};
ghost use Rattle.ql_value.specs.KindLaws.{KindLaws};
ghost use Rattle.ql_value.specs.OrderLaws.{OrderLaws};
ghost use Rattle.ql_value.specs.RefusalLaws.{RefusalLaws};
ghost use Rattle.ql_value.specs.RowLaws.{RowLaws};

/// `compare` is a total order, tells two values of one kind apart, and puts NULL first. The call does nothing.
pub fn order_laws()
    ensures { OrderLaws }
{}

/// What `arith` gives on numbers: the kind's only number that is equal to the exact result modulo 2 to the kind's
/// width, quotients rounded toward zero, shifts rounded down, and bits one by one. The call does nothing.
pub fn arith_laws()
    ensures { ArithIsExact }
{}

/// `arith`, `convert` and `fit` give values of the kind that their operands or their argument name. The call does
/// nothing.
pub fn kind_laws()
    ensures { KindLaws }
{}

/// Each number of a refusal has a word, no two have the same, and no other number has one. The
/// call does nothing.
pub fn refusal_laws()
    ensures { RefusalLaws }
{}

/// Bytes spell one row of some kinds at most, and a row has as many bytes as `row_length` says. The call does nothing.
pub fn row_laws()
    ensures { RowLaws }
{}

/// On values of one kind the order of keys is that of the values, also where other bytes stand behind them; equal keys
/// mean equal values; and a key has as many bytes as `key_length` says. The call does nothing.
pub fn key_laws()
    ensures { KeyLaws }
{}
