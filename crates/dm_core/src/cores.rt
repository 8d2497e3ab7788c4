// What answers messages, and the kinds of its replies.
ghost use Rattle.std.specs.Prelude.{◌≡◌, List, ℕ, Option, option_map, IfOk, OnErr, OnOk};
ghost use Rattle.dm_core.specs.Machines.{CoreMachine, TellsReply};

use dm_base::{Memory, Nonce};

/// What a message is answered.
#[derive(Clone, Copy, Debug, PartialEq, Eq)]
pub enum ReplyKind {
    /// By the message that was sent last.
    Message,
    /// The session is over.
    Over,
    /// It wasn't taken: no message answers it.
    Bad,
}

/// Something that answers messages, which is seen as its machine.
pub trait Core {
    /// What it answers to the bytes of a message with a nonce, and what becomes of it.
    ghost machine: { CoreMachine Self };

    /// The message sent last, in its bytes.
    ghost sent: { Self → Option (List ℕ) };

    /// Takes the bytes of a message, with the nonce that a challenge may tell. After `Memory` nothing was taken.
    fn take(&mut self, bytes: &[u8], nonce: Nonce) -> Result<ReplyKind, Memory>
        ensures reply { IfOk result (λ kind. TellsReply kind (sent self.new)
            (machine.reply self.old bytes.now nonce.bytes)) }
        ensures ok { OnOk result (self.new ≡ machine.next self.old bytes.now nonce.bytes) }
        ensures err { OnErr result (self.new ≡ self.old) };

    /// The message sent last, in its bytes. None comes where none was sent; after `Message` there is one.
    fn again(&self) -> Option<&[u8]>
        ensures { option_map (λ bytes. bytes.now) result ≡ sent self.now };
}
