// A command as its tasks.
ghost use Rattle.std.specs.Prelude.{◌≡◌, ◌<◌, ◌+◌, ◌++◌, ◌∷◌, [], length, drop, slice_get, Some, IfOk, OnOk};
ghost use Rattle.std.specs.Prelude.{unwrap_or, option_map};
ghost use Rattle.syncml_types.specs.declared.values.Loc.{Loc as ALoc};
ghost use Rattle.syncml_types.specs.declared.values.Meta.{Meta as AMeta};
ghost use Rattle.dm_atomic.specs.Tasks.{target_text, child_of_either, piece_of, item_post, item_tasks, plain_tasks};
ghost use Rattle.dm_atomic.specs.Tasks.{alert_task, member_tasks, members_tasks, container_post};

use crate::metas::{size_of, take_format, take_media};
use crate::tasks::{Named, Origin, Post, Task, Work};
use dm_base::{Boxed, Bytes, List, Memory};
use dm_objects::Piece;
use std::alloc::Global;
use std::mem;
use syncml_types::copies::copy_bytes;
use syncml_types::{AlertCmd, Block, Item, Loc, Member, Meta, Plain, Step, Verb};

fn target_text(alloc: Global, item: &Item) -> Result<Option<Bytes>, Memory>
    ensures { IfOk result (λ text. text ≡ target_text item.now) }
{
    match &item.target {
        None => Ok(None),
        Some(target) => Ok(Some(target.uri.copy(alloc)?)),
    }
}

fn take_target(alloc: Global, target: &mut Option<Loc>) -> Option<Bytes>
    ensures { result ≡ option_map (λ (l : ALoc). l.uri) target.old }
{
    match target {
        None => None,
        Some(target) => Some(mem::replace(&mut target.uri, Bytes::new(alloc))),
    }
}

fn take_value(alloc: Global, value: &mut Option<Bytes>) -> Bytes
    ensures { result ≡ unwrap_or value.old [] }
{
    match value {
        None => Bytes::new(alloc),
        Some(value) => mem::replace(value, Bytes::new(alloc)),
    }
}

// The step of an item, whose texts and value are moved out of it. The rest is its command's.
fn take_step(
    alloc: Global,
    in_atomic: bool,
    verb: Verb,
    meta: &Option<Boxed<Meta>>,
    correlator: Option<Bytes>,
    item: &mut Item,
) -> Result<Step, Memory>
    ensures { IfOk result (λ step. step ≡ record {
      verb = verb;
      target = target_text item.old;
      format = child_of_either (λ (m : AMeta). m.format) item.old.meta meta.now;
      media = child_of_either (λ (m : AMeta). m.media) item.old.meta meta.now;
      value = unwrap_or item.old.value [];
      correlator = correlator;
      in_atomic = in_atomic;
    }) }
{
    Ok(Step {
        verb,
        target: take_target(alloc, &mut item.target),
        format: take_format(alloc, &mut item.meta, meta)?,
        media: take_media(alloc, &mut item.meta, meta)?,
        value: take_value(alloc, &mut item.value),
        correlator,
        in_atomic,
    })
}

// The piece of the item at this place, whose texts and value are moved out of it.
fn take_piece(
    alloc: Global,
    in_atomic: bool,
    command: &mut Plain,
    place: usize,
) -> Result<Piece, Memory>
    requires there { place < length command.old.items }
    ensures piece { IfOk result (λ piece. Some piece
        ≡ option_map (piece_of in_atomic command.old) (slice_get command.old.items place)) }
    ensures left { drop (place + 1) command.new.items ≡ drop (place + 1) command.old.items }
    ensures count { length command.new.items ≡ length command.old.items }
    ensures others { command.new ≡ record command.old { items = command.new.items } }
{
    let correlator = copy_bytes(alloc, &command.correlator)?;
    match command.items.get_mut(place) {
        None => unreachable!(),
        Some(item) => {
            let size = size_of(&item.meta, &command.meta);
            let more = item.more;
            let step = take_step(
                alloc,
                in_atomic,
                command.verb,
                &command.meta,
                correlator,
                item,
            )?;
            Ok(Piece { step, size, more })
        }
    }
}

/// What the Status of an item at this place answers.
pub(crate) fn item_post(
    alloc: Global,
    origin: Origin,
    command: &Plain,
    place: usize,
    item: &Item,
) -> Result<Post, Memory>
    ensures { IfOk result (λ post. post ≡ item_post origin command.now place item.now) }
{
    let target = if command.items.len() > 1 {
        target_text(alloc, item)?
    } else {
        None
    };
    Ok(Post {
        msg: origin.msg,
        command: command.id,
        place,
        name: Named::Verb(command.verb),
        target,
        quiet: origin.quiet || command.no_resp,
    })
}

/// The task of the item at this place. What it needs of the item is moved out of it.
#[inline(always)]
pub(crate) fn take_task(
    alloc: Global,
    origin: Origin,
    in_atomic: bool,
    command: &mut Plain,
    place: usize,
) -> Result<Task, Memory>
    requires there { place < length command.old.items }
    ensures task { IfOk result (λ task. item_tasks origin in_atomic command.old place (drop place command.old.items)
        ≡ task ∷ item_tasks origin in_atomic command.new (place + 1) (drop (place + 1) command.new.items)) }
    ensures count { length command.new.items ≡ length command.old.items }
{
    let post = item_post(
        alloc,
        origin,
        command,
        place,
        &command.items.as_slice()[place],
    )?;
    let piece = take_piece(alloc, in_atomic, command, place)?;
    Ok(Task {
        post,
        work: Work::Piece(piece),
    })
}

// Puts a task for each item of the command behind the others.
fn put_plain_tasks(
    alloc: Global,
    origin: Origin,
    in_atomic: bool,
    command: &mut Plain,
    tasks: &mut List<Task>,
) -> Result<(), Memory>
    ensures { OnOk result (tasks.new ≡ tasks.old ++ plain_tasks origin in_atomic command.old) }
{
    for place in 0..command.items.len() {
        tasks.push(take_task(alloc, origin, in_atomic, command, place)?)?;
    }
    Ok(())
}

/// An Alert's one task, whatever its items.
pub(crate) fn alert_task(origin: Origin, alert: &AlertCmd) -> Task
    ensures { result ≡ alert_task origin alert.now }
{
    Task {
        post: Post {
            msg: origin.msg,
            command: alert.id,
            place: 0,
            name: Named::Alert,
            target: None,
            quiet: origin.quiet || alert.no_resp,
        },
        work: Work::Alert(alert.code),
    }
}

// Puts the tasks of one command in a container behind the others.
fn put_member_tasks(
    alloc: Global,
    origin: Origin,
    in_atomic: bool,
    member: &mut Member,
    tasks: &mut List<Task>,
) -> Result<(), Memory>
    ensures { OnOk result (tasks.new ≡ tasks.old ++ member_tasks origin in_atomic member.old) }
{
    match member {
        Member::One(command) => put_plain_tasks(alloc, origin, in_atomic, command, tasks),
        Member::Alert(alert) => tasks.push(alert_task(origin, alert)),
    }
}

/// Moves the members of a container out of it.
pub(crate) fn take_members<M>(alloc: Global, block: &mut Block<M>) -> Vec<M>
    ensures { result.items ≡ block.old.members }
{
    mem::replace(&mut block.members, List::new(alloc)).into_vec()
}

/// The tasks of the commands in a container, in order. What they need of the commands is moved out of them.
#[tactic(auto, using(crate::proofs::TasksAhead::next_member))]
pub(crate) fn members_tasks(
    alloc: Global,
    origin: Origin,
    in_atomic: bool,
    members: &mut [Member],
) -> Result<List<Task>, Memory>
    ensures { IfOk result (λ tasks. tasks ≡ members_tasks origin in_atomic members.old) }
{
    let mut tasks = List::with_room(alloc, members.len())?;
    for place in 0..members.len() {
        put_member_tasks(alloc, origin, in_atomic, &mut members[place], &mut tasks)?;
    }
    Ok(tasks)
}

/// What a container's Status answers.
pub(crate) fn container_post(origin: Origin, id: u32, no_resp: bool, name: Named) -> Post
    ensures { result ≡ container_post origin id no_resp name }
{
    Post {
        msg: origin.msg,
        command: id,
        place: 0,
        name,
        target: None,
        quiet: origin.quiet || no_resp,
    }
}
