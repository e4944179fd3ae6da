//! Logs and bits, each call once.
use super::*;
use std::process::Abort;

const FOUND: [Finding; 3] = [
    Finding::Compressed { atom: 10 },
    Finding::BadLink { class: 0, atom: 8 },
    Finding::Unlisted { atom: 9 },
];

#[test]
fn all_findings(rt: HostRuntime) {
    let mut log = AllLog::new(rt.alloc());
    assert_eq!(rt; log.told(), 0);
    for finding in &FOUND {
        assert_eq!(rt; log.tell(finding), Ok(true));
    }
    assert_eq!(rt; log.told(), 3);
    assert_eq!(rt; log.at(1), Some(FOUND[1]));
    assert_eq!(rt; log.at(3), None);
}

#[test]
fn first_finding(rt: HostRuntime) {
    let mut log = FirstLog::new();
    assert_eq!(rt; log.at(0), None);
    assert_eq!(rt; log.tell(&FOUND[2]), Ok(false));
    assert_eq!(rt; log.told(), 1);
    assert_eq!(rt; log.at(0), Some(FOUND[2]));
    assert_eq!(rt; log.at(1), None);
}

#[test]
fn bits_by_number(rt: HostRuntime) {
    let mut bits = Bits::new(rt.alloc(), 17).expect(&rt, "memory");
    assert_eq!(rt; bits.bytes(), 3);
    bits.set(7, true);
    bits.set(16, true);
    bits.set(8, true);
    bits.set(7, false);
    for at in 0..17 {
        assert_eq!(rt; bits.get(at), at == 8 || at == 16);
    }
    bits.clear();
    assert_eq!(rt; bits.get(16), false);
}
