// More bytes of a source, behind those that were taken.
ghost use Rattle.std.specs.Prelude.{◌≡◌, ◌<◌, length};
ghost use Rattle.dm_base.specs.Outside.{PutCounts};
ghost use Rattle.dm_heads.specs.Taking.{AsksUpTo, TakesPiece, TakesUpTo};

use dm_base::{Bytes, Failed, Fault, Source};

/// How many bytes a source is asked for at most.
pub const PIECE: usize = 4096;

/// Takes at most so many bytes behind the others, and says how many; none at the end alone.
pub fn take_piece<S: Source>(
    src: &mut S,
    taken: &mut Bytes,
    buf: &mut [u8; PIECE],
    most: usize,
) -> Result<usize, Fault>
    requires { 0 < most }
    ensures bytes { TakesPiece (S.left src.old) (S.left src.new) taken.old taken.new most result }
    ensures count { PutCounts (S.faults src.old) (S.faults src.new) result }
    ensures sink { S.as_sink src.new ≡ S.as_sink src.old }
{
    let room = most.min(PIECE);
    match src.take(&mut buf[..room]) {
        Ok(count) => match taken.extend(&buf[..count]) {
            Ok(()) => Ok(count),
            Err(_) => Err(Fault::Memory),
        },
        Err(Failed) => Err(Fault::Failed),
    }
}

/// Takes until there are `end` bytes, and says whether there are so many: else the source is at its end.
pub fn take_up_to<S: Source>(src: &mut S, taken: &mut Bytes, end: usize) -> Result<bool, Fault>
    ensures bytes { TakesUpTo (S.left src.old) (S.left src.new) taken.old taken.new end result }
    ensures asked { AsksUpTo (S.left src.old) (S.left src.new) taken.old end result }
    ensures count { PutCounts (S.faults src.old) (S.faults src.new) result }
    ensures sink { S.as_sink src.new ≡ S.as_sink src.old }
{
    let mut buf = [0u8; PIECE];
    'pieces: while taken.len() < end {
        let most = end - taken.len();
        match take_piece(src, taken, &mut buf, most) {
            Ok(0) => return Ok(false),
            Ok(_) => {}
            Err(Fault::Failed) => return Err(Fault::Failed),
            Err(Fault::Memory) => return Err(Fault::Memory),
        }
    }
    Ok(true)
}
