//! What values print.

ghost use Rattle.std.specs.Prelude.{◌≡◌, ℕ, ◌<◌, ◌≤◌, true, false, ◌++◌, [], ◌∷◌, take, length, decimal, IsTrue, IfOk, OnOk, OnErr};
ghost use Rattle.ql_value.specs.Print.{AddsFront, blob_text, hex_digit, is_hidden, other_byte, printed, quoted, shown_byte, shown_bytes};

use crate::Value;
use itoa::Buffer;
use ql_edge::{Bytes, NoMemory};

/// Adds what the value prints at the end. A refusal leaves `out` as before.
pub fn print_value(value: &Value, out: &mut Bytes) -> Result<(), NoMemory>
    ensures ok { OnOk result (out.new ≡ out.old ++ printed value.now) }
    ensures err { OnErr result (out.new ≡ out.old) }
{
    let before = out.len();
    match add_value(value, out) {
        Ok(()) => Ok(()),
        Err(fault) => {
            out.truncate(before);
            Err(fault)
        }
    }
}

/// Adds a string of these bytes as the value prints, between quotes. A refusal leaves `out` as before.
pub fn print_text(bytes: &[u8], out: &mut Bytes) -> Result<(), NoMemory>
    ensures ok { OnOk result (out.new ≡ out.old ++ quoted false bytes.now) }
    ensures err { OnErr result (out.new ≡ out.old) }
{
    let before = out.len();
    match print_quoted(bytes, false, out) {
        Ok(()) => Ok(()),
        Err(fault) => {
            out.truncate(before);
            Err(fault)
        }
    }
}

/// Adds a number in decimal. A refusal leaves `out` as before.
pub fn print_number(number: u64, out: &mut Bytes) -> Result<(), NoMemory>
    ensures ok { OnOk result (out.new ≡ out.old ++ decimal number) }
    ensures err { OnErr result (out.new ≡ out.old) }
{
    let mut buffer = Buffer::new();
    out.extend(buffer.format(number).as_bytes())
}

/// Adds what the value prints at the end, or a front of it.
fn add_value(value: &Value, out: &mut Bytes) -> Result<(), NoMemory>
    ensures ok { OnOk result (out.new ≡ out.old ++ printed value.now) }
    ensures err { OnErr result (AddsFront out.old out.new (printed value.now)) }
{
    match value {
        Value::Null => out.extend(b"<nil>"),
        Value::Bool(true) => out.extend(b"true"),
        Value::Bool(false) => out.extend(b"false"),
        Value::Int(_, number) => {
            let mut buffer = Buffer::new();
            out.extend(buffer.format(*number).as_bytes())
        }
        Value::Text(bytes) => print_quoted(bytes.as_slice(), false, out),
        Value::Blob(bytes) => print_blob(bytes.as_slice(), out),
    }
}

/// Adds what a blob of these bytes prints.
fn print_blob(bytes: &[u8], out: &mut Bytes) -> Result<(), NoMemory>
    ensures ok { OnOk result (out.new ≡ out.old ++ blob_text bytes.now) }
    ensures err { OnErr result (AddsFront out.old out.new (blob_text bytes.now)) }
{
    out.extend(b"blob(")?;
    print_quoted(bytes, true, out)?;
    out.extend(b")")
}

/// Adds the bytes between quotes, as a string or a blob shows them.
fn print_quoted(bytes: &[u8], in_blob: bool, out: &mut Bytes) -> Result<(), NoMemory>
    ensures ok { OnOk result (out.new ≡ out.old ++ quoted in_blob bytes.now) }
    ensures err { OnErr result (AddsFront out.old out.new (quoted in_blob bytes.now)) }
{
    out.push(b'"')?;
    print_bytes(bytes, in_blob, out)?;
    out.push(b'"')
}

/// Adds the bytes as they are shown between quotes.
fn print_bytes(bytes: &[u8], in_blob: bool, out: &mut Bytes) -> Result<(), NoMemory>
    ensures ok { OnOk result (out.new ≡ out.old ++ shown_bytes in_blob bytes.now) }
    ensures err { OnErr result (AddsFront out.old out.new (shown_bytes in_blob bytes.now)) }
{
    let mut at = 0;
    while at < bytes.len() {
        at += print_run(&bytes[at..], in_blob, out)?;
    }
    Ok(())
}

/// Adds the bytes up to the first that needs an escape, and that one. Tells how many they are.
fn print_run(bytes: &[u8], in_blob: bool, out: &mut Bytes) -> Result<usize, NoMemory>
    requires { 0 < length bytes.now }
    ensures some { IfOk result (λ count. 0 < count) }
    ensures within { IfOk result (λ count. count ≤ length bytes.now) }
    ensures ok { IfOk result (λ count. out.new ≡ out.old ++ shown_bytes in_blob
        (take count bytes.now)) }
    ensures err { OnErr result (AddsFront out.old out.new (shown_bytes in_blob bytes.now)) }
{
    let plain = plain_front(bytes, in_blob);
    out.extend(&bytes[..plain])?;
    if plain == bytes.len() {
        return Ok(plain);
    }
    print_byte(bytes[plain], in_blob, out)?;
    Ok(plain + 1)
}

/// How many bytes at the front show as they are.
fn plain_front(bytes: &[u8], in_blob: bool) -> usize
    ensures within { result ≤ length bytes.now }
    ensures plain { shown_bytes in_blob (take result bytes.now) ≡ take result bytes.now }
{
    for (i, byte) in bytes.iter().enumerate() {
        if !is_plain(*byte, in_blob) {
            return i;
        }
    }
    bytes.len()
}

/// Whether the byte shows as it is.
fn is_plain(byte: u8, in_blob: bool) -> bool
    ensures { IsTrue result → shown_byte in_blob byte ≡ byte ∷ [] }
{
    byte != b'"' && byte != b'\\' && !hides(byte, in_blob)
}

/// Whether the byte is shown by its number.
fn hides(byte: u8, in_blob: bool) -> bool
    ensures { result ≡ is_hidden in_blob byte }
{
    byte < 0x20 || byte == 0x7f || in_blob && byte >= 0x80
}

/// Adds one byte as it is shown between quotes.
fn print_byte(byte: u8, in_blob: bool, out: &mut Bytes) -> Result<(), NoMemory>
    ensures ok { OnOk result (out.new ≡ out.old ++ shown_byte in_blob byte) }
    ensures err { OnErr result (out.new ≡ out.old) }
{
    match byte {
        b'"' => out.extend(b"\\\""),
        b'\\' => out.extend(b"\\\\"),
        b'\n' => out.extend(b"\\n"),
        b'\r' => out.extend(b"\\r"),
        b'\t' => out.extend(b"\\t"),
        _ => print_other(byte, in_blob, out),
    }
}

/// Adds a byte that has no escape of its own.
fn print_other(byte: u8, in_blob: bool, out: &mut Bytes) -> Result<(), NoMemory>
    ensures ok { OnOk result (out.new ≡ out.old ++ other_byte in_blob byte) }
    ensures err { OnErr result (out.new ≡ out.old) }
{
    if hides(byte, in_blob) {
        return out.extend(&[b'\\', b'x', digit(byte / 16), digit(byte % 16)]);
    }
    out.push(byte)
}

/// A digit in base 16.
fn digit(value: u8) -> u8
    requires { value < 16 }
    ensures { result ≡ hex_digit value }
{
    if value < 10 {
        b'0' + value
    } else {
        b'a' - 10 + value
    }
}
