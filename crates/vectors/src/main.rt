#![tactic(auto)]

use crate::answers::answer;
use crate::cases::{Case, CaseError, KINDS, Kind, Over};
use field::residue::{BabyBear, F17, KoalaBear};
use std::alloc::{AllocError, Global};
use std::collections::BTreeMap;
use std::io;

mod answers;
mod cases;

// Replays the stored cases on standard input, and says how many agree.
fn main(rt: HostRuntime) -> io::Result<()> {
    let text = io::read_to_string(rt.alloc(), rt.stdin())?;
    let mut agree: BTreeMap<Kind, u32> = BTreeMap::new(rt.alloc());
    let mut differ = 0u32;
    for line in text.as_str().lines() {
        if let Some(kind) = replay(rt.alloc(), line)? {
            let count = agree.entry(kind)?.or_insert(0);
            *count = count.saturating_add(1);
        } else {
            differ = differ.saturating_add(1);
            println!(rt; "DIFFERS: {line}")?;
        }
    }
    for kind in KINDS {
        let count = agree.get(&kind).copied().unwrap_or(0);
        println!(rt; "{kind}: {count} agree")?;
    }
    println!(rt; "{differ} differ")
}

// The kind of the case where the library answers what is stored; nothing for another answer or no case.
fn replay(heap: Global, line: &str) -> Result<Option<Kind>, AllocError> {
    let Case {
        kind,
        over,
        given,
        answer: stored,
    } = match Case::read(heap, line) {
        Ok(case) => case,
        Err(CaseError::Form) => return Ok(None),
        Err(CaseError::Memory(error)) => return Err(error),
    };
    let given = given.as_slice();
    let found = match over {
        Over::F17 => answer::<F17>(heap, kind, given)?,
        Over::KoalaBear => answer::<KoalaBear>(heap, kind, given)?,
        Over::BabyBear => answer::<BabyBear>(heap, kind, given)?,
    };
    // where nothing is answered, nothing may be stored
    let agrees = match found {
        Some(found) => found
            .iter()
            .map(|n| i64::from(*n))
            .eq(stored.iter().copied()),
        None => stored.is_empty(),
    };
    Ok(agrees.then_some(kind))
}
