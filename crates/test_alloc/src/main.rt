//! Takes each line of standard input as a call of an allocator over a filer in memory, and writes its answer.
//!
//! `c N` adds N bytes, `r H` reads a handle, `p H N` gives it N bytes, `d H` removes it, `b`, `e` and `k` begin, end and roll back a
//! level, and `o` takes the filer back where no level is open, says how many bytes it has, and opens it again.
#![tactic(auto)]

ghost use Rattle.std.specs.Prelude.{◌≡◌, ◌≤◌, ◌^◌, [], length, IfOk, IfSome};

use lldb_alloc::Allocator;
use lldb_base::{BaseFiler, Heap, MemFiler, Trouble};
use lldb_rollback::RollbackFiler;
use ql_edge::{Bytes, NoMemory};
use std::alloc::Global;
use std::io;
use std::io::{BufRead, BufReader};

/// An allocator over a filer in memory.
type Store = Allocator<RollbackFiler<MemFiler>>;

/// The number that digits spell.
fn number(digits: &[u8]) -> u64 {
    let mut number: u64 = 0;
    for digit in digits.iter() {
        number = number
            .saturating_mul(10)
            .saturating_add((*digit % 16) as u64);
    }
    number
}

/// What stands before the first blank, and what stands behind it.
fn cut(text: &[u8]) -> (&[u8], &[u8]) {
    match text.iter().position(|byte| *byte == b' ') {
        Some(at) => (&text[..at], &text[at + 1..]),
        None => (text, &text[..0]),
    }
}

/// A content of so many bytes, all of which are that number.
fn filled(alloc: Global, count: u64) -> Result<Vec<u8>, NoMemory>
    requires { count ≤ 65787 }
    ensures { IfOk result (λ content. length content.items ≡ count) }
{
    let mut content = Vec::new(alloc);
    content.resize(count as usize, (count % 251) as u8)?;
    Ok(content)
}

/// How long a content is, where its bytes are those that were put there.
fn judged(content: &Bytes) -> u64 {
    let count = content.len() as u64;
    let byte = (count % 251) as u8;
    if content.as_slice().iter().all(|other| *other == byte) {
        count
    } else {
        u64::MAX
    }
}

/// Makes a call, where its conditions hold.
fn take<H: Heap>(
    alloc: Global,
    heap: &mut H,
    letter: u8,
    first: u64,
    second: u64,
) -> Result<u64, Trouble> {
    let open = heap.depth() > 0;
    let ready = heap.ready();
    match letter {
        b'c' if ready && open && first <= 65787 => heap.create(&filled(alloc, first)?),
        b'r' if ready => {
            let mut out = Bytes::new(alloc);
            heap.read(first, &mut out)?;
            Ok(judged(&out))
        }
        b'p' if ready && open && second <= 65787 => {
            heap.replace(first, &filled(alloc, second)?)?;
            Ok(0)
        }
        b'd' if ready && open => {
            heap.remove(first)?;
            Ok(0)
        }
        b'b' if ready && heap.depth() < 9 => {
            heap.begin_update()?;
            Ok(0)
        }
        b'e' if ready && open => {
            heap.end_update()?;
            Ok(0)
        }
        b'k' if open => {
            heap.rollback();
            Ok(0)
        }
        _ => Err(Trouble::Damaged),
    }
}

/// An allocator over a filer, where that can be.
fn opened(alloc: Global, below: MemFiler) -> Option<Store> {
    if !below.sound() || below.size() > 1 << 60 || below.limit() > 1 << 60 {
        return None;
    }
    match Allocator::open_on(alloc, RollbackFiler::new(alloc, below), 1) {
        Ok(store) => Some(store),
        Err(_) => None,
    }
}

/// The filer is taken back, and opened again. It has so many bytes.
fn reopened(alloc: Global, store: Store) -> Option<(Store, u64)> {
    if store.depth() > 0 {
        return None;
    }
    let below = store.into_below().into_below();
    let size = below.size();
    let store = opened(alloc, below)?;
    Some((store, size))
}

fn main(rt: HostRuntime) -> io::Result<()> {
    let alloc = rt.alloc();
    let Some(mut store) = opened(alloc, MemFiler::new(alloc, Bytes::new(alloc), 1 << 40)) else {
        return println!(rt; "not opened");
    };
    for line in BufReader::new(alloc, rt.stdin())?.split(alloc, b'\n') {
        let line = line?;
        let (word, rest) = cut(&line);
        let (first, second) = cut(rest);
        let letter = if word.len() == 1 { word[0] } else { 0 };
        if letter == b'o' {
            let Some((again, size)) = reopened(alloc, store) else {
                return println!(rt; "not opened");
            };
            store = again;
            println!(rt; "{}", size)?;
            continue;
        }
        match take(alloc, &mut store, letter, number(first), number(second)) {
            Ok(answer) => println!(rt; "{}", answer)?,
            Err(_) => println!(rt; "refused")?,
        }
    }
    Ok(())
}
