//! What no clause says: that calls succeed where memory is ample, and refusals at their limits.
ghost use Rattle.std.specs.Prelude.{◌≡◌, ◌≤◌, [], ◌∷◌, length, true, IsTrue, IfOk};

use super::*;
use ql_edge::{Bytes, NoMemory, Shows, show_all};
use std::alloc::Global;
use std::test::Fail;

/// A filer of the bytes `abcd`.
fn letters(alloc: Global, limit: u64) -> Result<MemFiler, NoMemory>
    requires { limit ≤ 9 }
    ensures size { IfOk result (λ f. ⟦<MemFiler as BaseFiler>⟧.size_of f ≡ 4) }
    ensures sound { IfOk result (λ f. ⟦<MemFiler as BaseFiler>⟧.is_sound f ≡ true) }
    ensures limit { IfOk result (λ f. ⟦<MemFiler as BaseFiler>⟧.limit_of f ≡ limit) }
{
    let bytes = Bytes::from_slice(alloc, b"abcd")?;
    Ok(MemFiler::new(alloc, bytes, limit))
}

/// All bytes of a filer.
fn content<F: BaseFiler>(alloc: Global, filer: &mut F) -> Result<Vec<u8>, Trouble>
    requires { IsTrue (F.is_sound filer.old) }
{
    let mut out = zeros(alloc, filer.size() as usize)?;
    filer.read_at(0, &mut out)?;
    Ok(out)
}

/// So many zeros.
fn zeros(alloc: Global, count: usize) -> Result<Vec<u8>, NoMemory>
    ensures { IfOk result (λ zeros. length zeros.items ≡ count) }
{
    let mut zeros = Vec::new(alloc);
    zeros.resize(count, 0)?;
    Ok(zeros)
}

fn no_piece(alloc: Global) -> Result<Vec<u8>, Trouble> {
    let mut filer = letters(alloc, 4)?;
    filer.commit(&Batch::new(alloc, 4), 0)?;
    content(alloc, &mut filer)
}

fn shorter(alloc: Global) -> Result<Vec<u8>, Trouble> {
    let mut filer = letters(alloc, 4)?;
    let mut batch = Batch::new(alloc, 2);
    batch.push(1, b"X")?;
    filer.commit(&batch, 0)?;
    content(alloc, &mut filer)
}

fn longer(alloc: Global, limit: u64) -> Result<Vec<u8>, Trouble>
    requires { limit ≤ 9 }
{
    let mut filer = letters(alloc, limit)?;
    let mut batch = Batch::new(alloc, 6);
    batch.push(3, b"XYZ")?;
    filer.commit(&batch, 0)?;
    content(alloc, &mut filer)
}

/// A piece, and one that begins where it ends.
fn two_pieces(alloc: Global) -> Result<Batch, NoMemory>
    ensures size { IfOk result (λ b. b.size ≡ 3) }
    ensures pieces { IfOk result (λ b. b.pieces ≡ record { place = 0; bytes = 88 ∷ 89 ∷ [] } ∷
        record { place = 2; bytes = 90 ∷ [] } ∷ []) }
{
    let mut batch = Batch::new(alloc, 3);
    batch.push(0, b"XY")?;
    batch.push(2, b"Z")?;
    Ok(batch)
}

fn touching(alloc: Global) -> Result<Vec<u8>, Trouble> {
    let mut filer = letters(alloc, 9)?;
    filer.commit(&two_pieces(alloc)?, 1)?;
    content(alloc, &mut filer)
}

/// Writes behind the word `magic`, and gives the whole content back.
fn behind(alloc: Global, limit: u64) -> Result<Vec<u8>, Trouble>
    requires low { 5 ≤ limit }
    requires high { limit ≤ 20 }
{
    let bytes = Bytes::from_slice(alloc, b"magicabcd")?;
    let mut filer = InnerFiler::new(MemFiler::new(alloc, bytes, limit), 5);
    let mut batch = Batch::new(alloc, 6);
    batch.push(3, b"XYZ")?;
    filer.commit(&batch, 0)?;
    show_all(&mut filer, b"stored")?;
    content(alloc, &mut filer.into_below())
}

#[test]
fn batches(rt: HostRuntime) -> Result<(), Fail> {
    assert_eq!(rt; no_piece(rt.alloc())?.as_slice(), b"abcd".as_slice());
    assert_eq!(rt; shorter(rt.alloc())?.as_slice(), b"aX".as_slice());
    assert_eq!(rt; longer(rt.alloc(), 6)?.as_slice(), b"abcXYZ".as_slice());
    assert_eq!(rt; touching(rt.alloc())?.as_slice(), b"aXYZ".as_slice());
    assert_eq!(rt;
        behind(rt.alloc(), 11)?.as_slice(),
        b"magicabcXYZ".as_slice()
    );
    Ok(())
}

#[test]
fn limits(rt: HostRuntime) {
    let full = Trouble::Full { need: 6, limit: 5 };
    assert_eq!(rt; longer(rt.alloc(), 5).err(), Some(full));
    assert_eq!(rt; behind(rt.alloc(), 10).err(), Some(full));
}

/// What a heap holds at a handle, or why it says nothing.
fn held<H: Heap>(alloc: Global, heap: &mut H, handle: u64) -> Result<Bytes, Trouble>
    requires { IsTrue (H.is_ready heap.old) }
    ensures ready { H.is_ready heap.new ≡ H.is_ready heap.old }
    ensures saved { H.saved heap.new ≡ H.saved heap.old }
{
    let mut out = Bytes::new(alloc);
    heap.read(handle, &mut out)?;
    Ok(out)
}

/// Two contents in one level: the first goes, the second is changed in a level that is taken back.
fn fill<H: Heap>(heap: &mut H) -> Result<(u64, u64), Trouble>
    requires ready { IsTrue (H.is_ready heap.old) }
    requires depth { H.saved heap.old ≡ [] }
    ensures ready { IfOk result (λ _. IsTrue (H.is_ready heap.new)) }
    ensures depth { IfOk result (λ _. H.saved heap.new ≡ []) }
{
    heap.begin_update()?;
    let first = heap.create(b"one")?;
    let second = heap.create(b"two")?;
    heap.begin_update()?;
    heap.replace(second, b"three")?;
    heap.rollback();
    heap.remove(first)?;
    heap.end_update()?;
    Ok((first, second))
}

/// What a heap answers where it is emptied, filled again and rolled back.
fn empty_again<H: Heap>(heap: &mut H, second: u64) -> Result<(u64, bool), Trouble>
    requires ready { IsTrue (H.is_ready heap.old) }
    requires depth { H.saved heap.old ≡ [] }
    ensures depth { IfOk result (λ _. H.saved heap.new ≡ []) }
    ensures ready { IfOk result (λ _. H.is_ready heap.new ≡ H.is_sound heap.old) }
{
    heap.begin_update()?;
    heap.remove(second)?;
    let handle = heap.create(b"four")?;
    heap.remove(handle)?;
    let empty = heap.is_empty();
    heap.rollback();
    Ok((handle, empty && !heap.is_empty()))
}

/// Whether a heap is ready after a change of a handle that is not live, and after the level is taken back.
fn spoiled<H: Heap>(heap: &mut H, dead: u64) -> Result<(bool, bool), NoMemory>
    requires ready { IsTrue (H.is_ready heap.old) }
    requires depth { H.saved heap.old ≡ [] }
{
    heap.begin_update()?;
    let refused = heap.replace(dead, b"late");
    let ready = heap.ready() && refused.is_err();
    heap.rollback();
    Ok((ready, heap.ready()))
}

#[test]
fn handles(rt: HostRuntime) -> Result<(), Fail> {
    let mut heap = MemHeap::new(rt.alloc());
    assert!(rt; heap.is_empty());
    let (first, second) = fill(&mut heap)?;
    assert_eq!(rt; (first, second), (8, 9));
    assert_eq!(rt;
        held(rt.alloc(), &mut heap, second)?.as_slice(),
        b"two".as_slice()
    );
    assert_eq!(rt;
        held(rt.alloc(), &mut heap, first).err(),
        Some(Trouble::Damaged)
    );
    assert_eq!(rt; heap.reads(), 1);
    assert_eq!(rt; empty_again(&mut heap, second)?, (8, true));
    assert_eq!(rt; spoiled(&mut heap, first)?, (false, true));
    Ok(())
}
