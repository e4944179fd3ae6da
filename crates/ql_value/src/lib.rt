//! Values: their arithmetic, order, conversions, lengths and printing, and the refusals that a statement may meet.
#![tactic(auto)]

mod arithmetic;
mod conversion;
mod fault;
mod key;
mod laws;
mod length;
mod operator;
mod order;
mod print;
mod refusal;
mod row;
mod row_reading;
mod value;
mod wrapping;

pub use arithmetic::arith;
pub use conversion::{convert, fit};
pub use fault::{RowFault, ValueFault};
pub use key::encode_key;
pub use laws::{arith_laws, key_laws, kind_laws, order_laws, refusal_laws, row_laws};
pub use length::{key_length, row_length};
pub use operator::{BinOp, UnOp, UnOps};
pub use order::compare;
pub use print::{print_number, print_text, print_value};
pub use refusal::{
    AGGREGATE, AMBIGUOUS, CONSTANT_RANGE, COUNT, DIVIDE, EXISTS, IDS_SPENT, KEY_TOO_LONG, LATER,
    NEGATIVE_COUNT, NO_COLUMN, NO_TABLE, RANGE, RESERVED, ROW_TOO_LONG, Refusal,
    TABLE_LIMIT_REFUSAL, TYPE,
};
pub use row::encode_row;
pub use row_reading::{Kinds, decode_row};
pub use value::{Kind, Value, Values, copy_value};
