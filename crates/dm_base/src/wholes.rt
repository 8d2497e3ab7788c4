// All bytes of a source, and all bytes to a sink. What the object is besides stays as it is.
ghost use Rattle.std.specs.Prelude.{◌≡◌, ◌<◌, List, ℕ, length};
ghost use Rattle.dm_base.specs.Outside.{PutCounts, PutsAll, TakesAll, ReadCounts};

use crate::bytes::Bytes;
use crate::outside::{Failed, Fault, Sink, Source, TakeError};
use std::alloc::Global;

const PIECE: usize = 4096;

/// Puts all of the bytes. After an error a proper prefix of them was put.
pub fn put_all<K: Sink>(out: &mut K, bytes: &[u8]) -> Result<(), Fault>
    ensures bytes { PutsAll (K.got out.old) (K.got out.new) result bytes.now }
    ensures count { PutCounts (K.faults out.old) (K.faults out.new) result }
    ensures source { K.as_source out.new ≡ K.as_source out.old }
{
    let mut at = 0;
    while at < bytes.len() {
        match out.put(&bytes[at..]) {
            Ok(count) => at += count,
            Err(fault) => return Err(fault),
        }
    }
    Ok(())
}

/// Takes all bytes up to the end, where they are at most `limit`. `TooLong` comes exactly where `limit` bytes were
/// taken and another came.
pub fn take_all<S: Source>(alloc: Global, src: &mut S, limit: u64) -> Result<Bytes, TakeError>
    ensures bytes { TakesAll (S.left src.old) (S.left src.new) limit result }
    ensures count { ReadCounts (S.faults src.old) (S.faults src.new) result }
    ensures sink { S.as_sink src.new ≡ S.as_sink src.old }
{
    let limit = limit as usize;
    let mut bytes = Bytes::new(alloc);
    let mut buf = [0u8; PIECE];
    while bytes.len() <= limit {
        let room = (limit - bytes.len()).min(PIECE - 1) + 1;
        match src.take(&mut buf[..room]) {
            Ok(0) => return Ok(bytes),
            Ok(count) => match bytes.extend(&buf[..count]) {
                Ok(()) => {}
                Err(_) => return Err(TakeError::Memory),
            },
            Err(Failed) => return Err(TakeError::Read),
        }
    }
    Err(TakeError::TooLong)
}
