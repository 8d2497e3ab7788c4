// What waits to be sent.
ghost use Rattle.std.specs.Prelude.{◌≡◌, ◌<◌, ◌≤◌, ◌+◌, ◌-◌, ◌∷◌, ◌++◌, [], true, false, length, take, drop, map, not};
ghost use Rattle.std.specs.Prelude.{OnOk, OnErr, IfOk, IfSome};
ghost use Rattle.std.specs.List.{AllByRecursion, filter, list_any, list_all};
ghost use Rattle.std.specs.Option.{option_to_list};
ghost use Rattle.dm_base.specs.Limits.{least_room, message_limit};
ghost use Rattle.syncml_types.specs.Canonical.{canonical};
ghost use Rattle.dm_pack.specs.Filling.{fill as fill_of, left_after, IsReadyHeader, CanBeTaken};
ghost use Rattle.dm_service.specs.Messages.{answer_waiting};
ghost use Rattle.dm_service.specs.Packages.{is_of_job, job_waiting};
ghost use Rattle.dm_service.specs.Ready.{IsReadyEntry, AreReadyWaiting};
ghost use Rattle.dm_service.specs.Sending.{goes_out, carried_on};
ghost use Rattle.dm_service.specs.Service.{entries_of};
ghost use Rattle.dm_pack.specs.Entries.{whole_entry};
ghost use Rattle.dm_waiting.specs.Held.{IsSmall, IsNumbered};
ghost use Rattle.dm_waiting.specs.Inside.{IsMessageOf, TellsAt};
ghost use Rattle.dm_waiting.specs.View.{IsNumberedEntry};

use crate::holding::push_held;
use crate::ids::id_at;
use crate::loads::{Load, any_carries, begin, drop_between, drop_front};
use dm_base::{Boxed, List, Memory};
use dm_job::JobEntry;
use dm_pack::{Filled, Queue, fill};
use dm_service::{Carried, Sent};
use std::alloc::Global;
use std::collections::VecDeque;
use std::marker::Model;
use syncml_parts::ids_in;
use syncml_types::{Command, Header};

// An answer carries nothing of the job.
const ANSWER: Load = Load {
    carries: None,
    begun: false,
};

/// The entries that wait to be sent, in order: answers, and commands of the job with their numbers. It takes entries at
/// both ends, and moves the others only where its room has to grow.
#[derive(Drop)]
pub struct WaitingList {
    queue: Queue,
    loads: VecDeque<Load>,
}

impl Model for WaitingList {
    ghost use Rattle.std.specs.Prelude.{List};
    ghost use Rattle.dm_service.specs.Service.{Waiting};

    ghost Value = { List Waiting };

    ghost use Rattle.dm_waiting.specs.Inside.{list_of, AreBeside};

    ghost view = { λ w. list_of w.queue w.loads.items };

    ghost invariant = { λ w. AreBeside w.queue w.loads.items };
}

impl WaitingList {
    /// Nothing waits; it takes no memory.
    pub fn new(alloc: Global) -> WaitingList
        ensures { result ≡ [] }
    {
        WaitingList {
            queue: Queue::new(alloc),
            loads: VecDeque::new(alloc),
        }
    }

    /// How many entries wait.
    pub fn len(&self) -> usize
        ensures { result ≡ length self.now }
    {
        self.queue.len()
    }

    // Adds an entry with what it carries.
    fn push(&mut self, entry: Command, carries: Option<Carried>) -> Result<(), Memory>
        requires small { IfSome carries IsSmall }
        ensures ok { OnOk result (self.new ≡ self.old ++ record { entry = whole_entry entry; carries = carries } ∷ []) }
        ensures err { OnErr result (self.new ≡ self.old) }
    {
        // Room first, so that nothing is to be taken back.
        self.loads.reserve(1)?;
        self.queue.push_back(entry)?;
        self.loads.push_back_reserved(Load {
            carries,
            begun: false,
        });
        Ok(())
    }

    fn push_front(&mut self, answer: Command) -> Result<(), Memory>
        ensures ok { OnOk result (self.new ≡ answer_waiting answer ∷ self.old) }
        ensures err { OnErr result (self.new ≡ self.old) }
    {
        self.loads.reserve(1)?;
        self.queue.push_front(answer)?;
        self.loads.push_front_reserved(ANSWER);
        Ok(())
    }

    /// Adds an answer in front of all others, where there is one, and tells how many it is. After `Memory` the answer
    /// is given up.
    pub fn push_status(&mut self, status: Option<Command>) -> Result<usize, Memory>
        ensures ok { OnOk result (self.new ≡ map answer_waiting (option_to_list status) ++ self.old) }
        ensures count { IfOk result (λ count. count ≡ length (option_to_list status)) }
        ensures err { OnErr result (self.new ≡ self.old) }
    {
        match status {
            None => Ok(0),
            Some(status) => {
                self.push_front(status)?;
                Ok(1)
            }
        }
    }

    /// Adds answers behind all others. After `Memory` some of them may stand there.
    pub fn push_answers(&mut self, answers: List<Command>) -> Result<(), Memory>
        ensures ok { OnOk result (self.new ≡ self.old ++ map answer_waiting answers) }
        ensures err { OnErr result (take (length self.old) self.new ≡ self.old) }
    {
        for answer in answers.into_vec() {
            self.push(answer, None)?;
        }
        Ok(())
    }

    // A copy of an entry of the job goes behind all others.
    fn push_entry(&mut self, alloc: Global, entry: &JobEntry) -> Result<(), Memory>
        requires ready { IsReadyEntry entry.now }
        requires some { 0 < entry.now.number }
        ensures ok { OnOk result (self.new ≡ self.old ++ job_waiting entry.now ∷ []) }
        ensures err { OnErr result (self.new ≡ self.old) }
    {
        let count = u64::from(ids_in(&entry.command));
        // As many commands as that can't be held.
        let Some(_) = entry.number.checked_add(count) else {
            return Err(Memory);
        };
        let command = entry.command.copy(alloc)?;
        self.push(
            command,
            Some(Carried {
                first: entry.number,
                count,
            }),
        )
    }

    /// Adds copies of entries of the job behind all others. After `Memory` some of them may stand there.
    pub fn push_package(&mut self, alloc: Global, entries: &[JobEntry]) -> Result<(), Memory>
        requires ready { AllByRecursion IsReadyEntry entries.now }
        requires some { AllByRecursion IsNumberedEntry entries.now }
        ensures ok { OnOk result (self.new ≡ self.old ++ map job_waiting entries.now) }
        ensures err { OnErr result (take (length self.old) self.new ≡ self.old) }
    {
        for entry in entries {
            self.push_entry(alloc, entry)?;
        }
        Ok(())
    }

    /// Whether an entry of the job waits. It looks at the entries up to the first of the job.
    pub fn has_job(&self) -> bool
        ensures { result ≡ list_any is_of_job self.now }
    {
        any_carries(&self.loads)
    }

    // Puts behind `out` the commands of the job that a message holds.
    fn note(&self, msg: u32, filled: &Filled, out: &mut List<Sent>) -> Result<(), Memory>
        requires { IsMessageOf (entries_of self.now) filled.now }
        ensures ok { OnOk result (out.new ≡ out.old ++ goes_out msg 1 filled.now.whole filled.now.cut self.now) }
        ensures err { OnErr result (take (length out.old) out.new ≡ out.old) }
    {
        let body = filled.message.body().as_slice();
        for at in 0..filled.whole {
            push_held(msg, id_at(body, at), self.loads[at], false, out)?;
        }
        if filled.cut > 0 {
            let at = filled.whole;
            push_held(msg, id_at(body, at), self.loads[at], true, out)?;
        }
        Ok(())
    }

    /// The message that is sent next, out of what waits, in `room` bytes; it ends with Final where nothing is left and
    /// it's this end's turn (`heard`). The commands of the job that it holds under the MsgID `msg` are put behind
    /// `out`. What waits stays as it is. After `Memory` some commands may stand behind `out`.
    pub fn fill(
        &self,
        header: Boxed<Header>,
        room: u64,
        heard: bool,
        msg: u32,
        out: &mut List<Sent>,
    ) -> Result<Filled, Memory>
        requires ready { AreReadyWaiting self.now }
        requires header { IsReadyHeader header }
        requires room { (least_room ≤ room) × (room ≤ message_limit) }
        ensures message { IfOk result (λ f. f.message ≡ (fill_of (entries_of self.now) header room heard).message) }
        ensures bytes { IfOk result (λ f. f.bytes ≡ canonical f.message) }
        ensures whole { IfOk result (λ f. f.whole ≡ (fill_of (entries_of self.now) header room heard).whole) }
        ensures cut { IfOk result (λ f. f.cut ≡ (fill_of (entries_of self.now) header room heard).cut) }
        ensures tail { IfOk result (λ f. f.tail ≡ (fill_of (entries_of self.now) header room heard).tail) }
        ensures taken { IfOk result (λ f. CanBeTaken (entries_of self.now) f.whole f.cut) }
        ensures sent { IfOk result (λ f. out.new ≡ out.old ++ goes_out msg 1 f.whole f.cut self.now) }
        ensures numbered { IfOk result (λ f. AllByRecursion IsNumbered (goes_out msg 1 f.whole f.cut self.now)) }
        ensures err { OnErr result (take (length out.old) out.new ≡ out.old) }
    {
        let filled = fill(&self.queue, header, room, heard)?;
        self.note(msg, &filled, out)?;
        Ok(filled)
    }

    /// Takes off what a message holds: the whole entries, and the part of the next one, which is begun then. It takes
    /// no memory, and moves no Data and no entry that waits.
    pub fn commit(&mut self, filled: &Filled)
        requires { CanBeTaken (entries_of self.old) filled.now.whole filled.now.cut }
        ensures { self.new ≡ carried_on (left_after (entries_of self.old) filled.now.whole filled.now.cut)
            (drop filled.now.whole self.old) }
    {
        self.queue.commit(filled);
        drop_front(&mut self.loads, filled.whole);
        begin(&mut self.loads, filled.cut);
    }

    /// Gives up the first `front` entries, and keeps as many as `count` of those behind them. It takes no memory.
    pub fn keep(&mut self, front: usize, count: usize)
        requires { front ≤ length self.old }
        ensures { self.new ≡ take count (drop front self.old) }
    {
        self.queue.remove(0, front);
        self.queue.cut_to(count);
        drop_front(&mut self.loads, front);
        self.loads.truncate(count);
    }

    fn copy(&self, alloc: Global) -> Result<WaitingList, Memory>
        ensures { IfOk result (λ copied. copied ≡ self.now) }
    {
        let mut loads = VecDeque::new(alloc);
        for at in 0..self.loads.len() {
            loads.push_back(self.loads[at])?;
        }
        Ok(WaitingList {
            queue: self.queue.copy()?,
            loads,
        })
    }

    // Whether the entry at a place is of the job.
    fn is_of_job(&self, at: usize) -> bool
        requires { at < length self.now }
        ensures { TellsAt at self.now result }
    {
        self.loads[at].carries.is_some()
    }

    // Where entries of the job begin behind which no other stands before a place.
    fn start_of_job(&self, end: usize) -> usize
        requires { end ≤ length self.now }
        ensures start { result ≤ end }
        ensures job { list_all is_of_job (drop result (take end self.now)) ≡ true }
        ensures first { 0 < result → TellsAt (result - 1) self.now false }
    {
        let mut start = end;
        while start > 0 && self.is_of_job(start - 1) {
            start -= 1;
        }
        start
    }

    // Gives up the entries between two places.
    fn take_out(&mut self, start: usize, end: usize)
        requires order { start ≤ end }
        requires there { end ≤ length self.old }
        ensures { self.new ≡ take start self.old ++ drop end self.old }
    {
        self.queue.remove(start, end - start);
        drop_between(&mut self.loads, start, end);
    }

    /// A copy without the entries of the job.
    pub fn without_job(&self, alloc: Global) -> Result<WaitingList, Memory>
        ensures { IfOk result (λ left. left ≡ filter (λ w. not (is_of_job w)) self.now) }
    {
        let mut left = self.copy(alloc)?;
        let mut at = self.len();
        while at > 0 {
            if self.is_of_job(at - 1) {
                let start = self.start_of_job(at - 1);
                left.take_out(start, at);
                at = start;
            } else {
                at -= 1;
            }
        }
        Ok(left)
    }
}
