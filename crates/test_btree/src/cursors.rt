//! A cursor while its tree is changed.

use crate::plot::Plot;
use lldb_base::Trouble;
use lldb_btree::Cursor;
use ql_edge::Bytes;
use std::alloc::Global;
use std::test::Fail;

/// A tree of the even numbers below 200, each a key of one byte.
fn evens(alloc: Global) -> Result<Plot, Trouble> {
    let mut plot = Plot::new(alloc)?;
    for half in 0..100u8 {
        plot.set(&[half * 2], b"")?;
    }
    Ok(plot)
}

/// The key that a cursor gives next.
fn next_key(plot: &mut Plot, cursor: &mut Cursor) -> Result<Option<Bytes>, Trouble> {
    match plot.next(cursor)? {
        Some(pair) => Ok(Some(pair.key)),
        None => Ok(None),
    }
}

/// The keys that a cursor gives when, behind each that it gave, the odd number before it and the one after it are set.
fn keys_while_set(alloc: Global) -> Result<Bytes, Trouble> {
    let mut plot = evens(alloc)?;
    let mut cursor = plot.tree.cursor();
    let mut keys = Bytes::new(alloc);
    for _ in 0..300 {
        let Some(key) = next_key(&mut plot, &mut cursor)? else {
            break;
        };
        keys.extend(key.as_slice())?;
        let last = key.as_slice().first().copied().unwrap_or(0) | 1;
        plot.set(&[last.wrapping_sub(2)], b"")?;
        plot.set(&[last], b"new")?;
    }
    Ok(keys)
}

#[test]
fn changed_behind_and_before(rt: HostRuntime) -> Result<(), Fail> {
    let keys = keys_while_set(rt.alloc())?;
    assert_eq!(rt; keys.len(), 201);
    for (at, key) in keys.as_slice().iter().enumerate() {
        let wanted = if at < 200 { at } else { 255 };
        assert_eq!(rt; *key as usize, wanted);
    }
    Ok(())
}
