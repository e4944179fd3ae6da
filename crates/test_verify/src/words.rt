//! Findings and answers in words.
use lldb_verify::{Bits, FaultLog, Finding, Stats, VerifyFault};
use ql_edge::NoMemory;
use std::alloc::Global;

/// A finding.
fn finding_words(alloc: Global, finding: &Finding) -> Result<String, NoMemory> {
    match *finding {
        Finding::BadLength { bytes } => Ok(format!(in alloc; "bad length {bytes}")?),
        Finding::BadBlock { atom } => Ok(format!(in alloc; "bad block {atom}")?),
        Finding::Compressed { atom } => Ok(format!(in alloc; "compressed {atom}")?),
        Finding::FreeNeighbours { left, right } => {
            Ok(format!(in alloc; "free neighbours {left} {right}")?)
        }
        Finding::FreeAtEnd { atom } => Ok(format!(in alloc; "free at end {atom}")?),
        Finding::BadTarget { handle, target } => {
            Ok(format!(in alloc; "bad target {handle} {target}")?)
        }
        Finding::BadLink { class, atom } => Ok(format!(in alloc; "bad link {class} {atom}")?),
        Finding::Unlisted { atom } => Ok(format!(in alloc; "unlisted {atom}")?),
    }
}

/// The numbers of a content.
fn stats_words(alloc: Global, stats: &Stats) -> Result<String, NoMemory> {
    let atoms = stats.atoms;
    let used = stats.used;
    let relocated = stats.relocated;
    let free = stats.free;
    Ok(format!(in alloc; "atoms {atoms}, used {used}, relocated {relocated}, free {free}")?)
}

/// What the verifier answered.
fn answer_words(alloc: Global, answer: &Result<Stats, VerifyFault>) -> Result<String, NoMemory> {
    match answer {
        Ok(stats) => stats_words(alloc, stats),
        Err(VerifyFault::Found { count }) => Ok(format!(in alloc; "found {count}")?),
        Err(VerifyFault::Stopped { last }) => {
            let words = finding_words(alloc, last)?;
            Ok(format!(in alloc; "stopped at {}", words.as_str())?)
        }
        Err(VerifyFault::Failed) => Ok(String::from_str(alloc, "failed")?),
        Err(VerifyFault::NoMemory) => Err(NoMemory),
    }
}

/// What a log was told, each finding with a semicolon behind it.
fn told_words(alloc: Global, log: &Box<dyn FaultLog>) -> Result<String, NoMemory> {
    let mut text = String::new(alloc);
    for index in 0..log.told() {
        if let Some(finding) = log.at(index) {
            text.push_str(finding_words(alloc, &finding)?.as_str())?;
            text.push_str("; ")?;
        }
    }
    Ok(text)
}

/// The numbers of the bits that are set, each with a blank before it.
fn bits_words(alloc: Global, bits: &Bits) -> Result<String, NoMemory> {
    let mut text = String::new(alloc);
    for atom in 0..bits.count() {
        if bits.get(atom) {
            text.push_str(format!(in alloc; " {atom}")?.as_str())?;
        }
    }
    Ok(text)
}

/// What a verifier did.
pub(crate) fn describe(
    alloc: Global,
    log: &Box<dyn FaultLog>,
    answer: &Result<Stats, VerifyFault>,
    bits: &Bits,
) -> Result<String, NoMemory> {
    let mut text = told_words(alloc, log)?;
    text.push_str(answer_words(alloc, answer)?.as_str())?;
    text.push_str(format!(in alloc; ", told {}", log.told())?.as_str())?;
    if answer.is_ok() {
        text.push_str(", handles")?;
        text.push_str(bits_words(alloc, bits)?.as_str())?;
    }
    Ok(text)
}
