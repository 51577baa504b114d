// Parcels for the tests.
use parcel::questions::check;
use parcel::refusal::Refusal;
use std::alloc::{AllocError, Global};

// What is expected of a parcel, in numbers as the tables of the tests have it: 0 where it is taken, else the refusal's; and the
// line named, 0 for none.
pub fn answer(res: Result<(), Refusal>) -> (u8, u8) {
    match res {
        Ok(()) => (0, 0),
        Err(refusal) => (refusal.number(), refusal.address().unwrap_or(0)),
    }
}

pub fn ask(parcel: &Vec<u8>) -> (u8, u8) {
    answer(check(parcel.as_slice()))
}

// Kinds are bytes, since the tests write wrong ones.
fn length_of(kind: u8) -> u16 {
    if kind == 4 { 34 } else { 256 }
}

// A parcel of zeros with bodies of these kinds, in this order.
pub fn blank(heap: Global, kinds: &[u8]) -> Result<Vec<u8>, AllocError> {
    let mut parcel = Vec::new(heap);
    parcel.push((kinds.len() & 0xff) as u8)?;
    for kind in kinds {
        parcel.push(*kind)?;
        parcel.extend_from_slice(&length_of(*kind).to_le_bytes())?;
    }
    for kind in kinds {
        fill(&mut parcel, usize::from(length_of(*kind)))?;
    }
    Ok(parcel)
}

// So many zeros more.
pub fn fill(parcel: &mut Vec<u8>, count: usize) -> Result<(), AllocError> {
    parcel.resize(parcel.len().saturating_add(count), 0)
}

pub fn put(parcel: &mut Vec<u8>, at: usize, byte: u8) {
    if let Some(place) = parcel.get_mut(at) {
        *place = byte;
    }
}

// Writes a line into a parcel whose bodies are codes, SR1 and SR2 from the byte `from` on.
pub fn put_line(parcel: &mut Vec<u8>, from: usize, line: u8, code: u8, sr1: u8, sr2: u8) {
    let at = from.saturating_add(usize::from(line));
    put(parcel, at, code);
    put(parcel, at.saturating_add(256), sr1);
    put(parcel, at.saturating_add(512), sr2);
}
