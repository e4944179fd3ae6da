//! Heads by each first byte, the limits of lengths and classes, endings and a table, byte by byte.
ghost use Rattle.std.specs.Prelude.{◌<◌};
ghost use Rattle.lldb_atoms.specs.Heads.{IsValid};

use super::*;
use std::process::Abort;

/// A head with this first byte, and zeros behind it.
fn zeros(first: u8) -> [u8; 32] {
    let mut head = [0; 32];
    head[0] = first;
    head
}

/// A head with this first byte, and sevens behind it.
fn sevens(first: u8) -> [u8; 32] {
    let mut head = [7; 32];
    head[0] = first;
    head
}

/// A head of zeros but for its first byte and one more.
fn with_byte(first: u8, at: usize, byte: u8) -> [u8; 32]
    requires { at < 32 }
{
    let mut head = zeros(first);
    head[at] = byte;
    head
}

/// That a head is read where there is room for its block, and not where there is less.
fn is_read(rt: &impl Abort, head: &[u8; 32], block: Block, atoms: u64) {
    for left in 0..atoms {
        assert_eq!(rt; read_head(head, left), None);
    }
    assert_eq!(rt; read_head(head, atoms), Some(block));
    assert_eq!(rt; read_head(head, u64::MAX), Some(block));
    assert_eq!(rt; atoms_of(&block), atoms);
}

/// That a head is none, however many atoms are left.
fn is_none(rt: &impl Abort, head: &[u8; 32]) {
    for left in 0..4 {
        assert_eq!(rt; read_head(head, left), None);
    }
    assert_eq!(rt; read_head(head, u64::MAX), None);
}

#[test]
fn short_heads(rt: HostRuntime) {
    for length in 0..252u8 {
        let block = Block::Short { length };
        let atoms = (u64::from(length) + 1) / 16 + 1;
        is_read(&rt, &zeros(length), block, atoms);
        is_read(&rt, &sevens(length), block, atoms);
    }
}

#[test]
fn long_heads(rt: HostRuntime) {
    is_read(&rt, &zeros(252), Block::Long { length: 252 }, 16);
    is_read(&rt, &with_byte(252, 2, 48), Block::Long { length: 300 }, 19);
    is_read(&rt, &sevens(252), Block::Long { length: 2051 }, 129);
    let mut greatest = with_byte(252, 1, 255);
    greatest[2] = 255;
    is_read(&rt, &greatest, Block::Long { length: 65_787 }, 4_112);
}

#[test]
fn relocated_heads(rt: HostRuntime) {
    is_read(&rt, &zeros(253), Block::Relocated { target: 0 }, 1);
    is_read(
        &rt,
        &with_byte(253, 7, 11),
        Block::Relocated { target: 11 },
        1,
    );
    is_read(
        &rt,
        &with_byte(253, 16, 9),
        Block::Relocated { target: 0 },
        1,
    );
    is_none(&rt, &with_byte(253, 8, 1));
    is_none(&rt, &with_byte(253, 15, 1));
    is_none(&rt, &sevens(253));
}

#[test]
fn free_heads(rt: HostRuntime) {
    let one = Block::FreeOne { prev: 0, next: 0 };
    is_read(&rt, &with_byte(254, 15, 254), one, 1);
    is_none(&rt, &with_byte(254, 15, 255));
    is_none(&rt, &zeros(254));
    is_none(&rt, &sevens(254));
    let two = Block::Free {
        atoms: 2,
        prev: 0,
        next: 0,
    };
    is_read(&rt, &with_byte(255, 7, 2), two, 2);
    is_none(&rt, &with_byte(255, 7, 1));
    is_none(&rt, &zeros(255));
    let seven = 0x07_0707_0707_0707;
    let large = Block::Free {
        atoms: seven,
        prev: seven,
        next: seven,
    };
    assert_eq!(rt; read_head(&sevens(255), seven), Some(large));
    assert_eq!(rt; read_head(&sevens(255), seven - 1), None);
}

/// The bytes of a head, over sevens, and how many count.
fn written(block: &Block) -> ([u8; 32], u8)
    requires { IsValid block.now }
{
    let mut head = [7; 32];
    let count = write_head(block, &mut head);
    (head, count)
}

/// The bytes of an ending, over sevens, and how many count.
fn ending(block: &Block) -> ([u8; 8], u8)
    requires { IsValid block.now }
{
    let mut out = [7; 8];
    let count = tail(block, &mut out);
    (out, count)
}

#[test]
fn free_atom(rt: HostRuntime) {
    let block = Block::FreeOne {
        prev: 8,
        next: 0x0102,
    };
    let (head, count) = written(&block);
    let bytes = [254, 0, 0, 0, 0, 0, 0, 8, 0, 0, 0, 0, 0, 1, 2, 254];
    assert_eq!(rt; head[..16], bytes[..]);
    assert_eq!(rt; (head[16], count), (7, 16));
    assert_eq!(rt; ending(&block), ([254, 7, 7, 7, 7, 7, 7, 7], 1));
}

#[test]
fn free_atoms(rt: HostRuntime) {
    let block = Block::Free {
        atoms: 3,
        prev: 8,
        next: 9,
    };
    let (head, count) = written(&block);
    let bytes = [
        255, 0, 0, 0, 0, 0, 0, 3, 0, 0, 0, 0, 0, 0, 8, 0, 0, 0, 0, 0, 0, 9,
    ];
    assert_eq!(rt; head[..22], bytes[..]);
    assert_eq!(rt; (head[22], count), (7, 22));
    assert_eq!(rt; ending(&block), ([0, 0, 0, 0, 0, 0, 3, 255], 8));
}

#[test]
fn used(rt: HostRuntime) {
    let (short, one) = written(&Block::Short { length: 251 });
    assert_eq!(rt; (short[0], short[1], one), (251, 7, 1));
    let long = Block::Long { length: 252 };
    let (head, three) = written(&long);
    assert_eq!(rt; head[..4], [252, 0, 0, 7][..]);
    assert_eq!(rt; three, 3);
    assert_eq!(rt; ending(&long), ([0, 7, 7, 7, 7, 7, 7, 7], 1));
    let moved = Block::Relocated { target: 11 };
    let (head, count) = written(&moved);
    let bytes = [253, 0, 0, 0, 0, 0, 0, 11, 0, 0, 0, 0, 0, 0, 0, 0, 7];
    assert_eq!(rt; head[..17], bytes[..]);
    assert_eq!(rt; count, 16);
    assert_eq!(rt; ending(&moved), ([0, 7, 7, 7, 7, 7, 7, 7], 1));
}

#[test]
fn lengths(rt: HostRuntime) {
    assert_eq!(rt; (atoms_for(0), atoms_for(14), atoms_for(15)), (1, 1, 2));
    assert_eq!(rt; (atoms_for(250), atoms_for(251)), (16, 16));
    assert_eq!(rt; (atoms_for(252), atoms_for(253)), (16, 17));
    assert_eq!(rt; (atoms_for(300), atoms_for(65_787)), (19, 4_112));
}

/// How many powers of 2, from 2 to 32,768, are at most a number.
fn powers(atoms: u64) -> usize {
    let powers: [u64; 15] = [
        2, 4, 8, 16, 32, 64, 128, 256, 512, 1024, 2048, 4096, 8192, 16384, 32768,
    ];
    powers.iter().filter(|power| **power <= atoms).count()
}

#[test]
fn classes(rt: HostRuntime) {
    for atoms in 1..65_540 {
        assert_eq!(rt; class_of(atoms) as usize, powers(atoms));
    }
    assert_eq!(rt; class_of(u64::MAX), 15);
}

#[test]
fn tables(rt: HostRuntime) {
    let mut bytes = [0; 128];
    bytes[15] = 8;
    bytes[120] = 1;
    let mut table = FreeTable::read(&bytes);
    assert_eq!(rt; (table.head(0), table.head(1)), (0, 8));
    assert_eq!(rt; table.head(15), 1 << 56);
    table.set(1, 0);
    table.set(0, 258);
    table.write(&mut bytes);
    assert_eq!(rt; (bytes[6], bytes[7], bytes[15], bytes[120]), (1, 2, 0, 1));
    assert_eq!(rt; FreeTable::read(&bytes).head(0), 258);
}
