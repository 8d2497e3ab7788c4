// The servers that are called.
use dm_base::{Bytes, Memory};
use dm_job::Job;
use dm_job::laws::jobs_are_sound;
use dm_server::Server;
use std::alloc::Global;

fn joined(alloc: Global, parts: &[&[u8]]) -> Result<Bytes, Memory> {
    let mut text = Bytes::new(alloc);
    for part in parts {
        text.extend(part)?;
    }
    Ok(text)
}

/// A server with the job whose text these parts are. None comes where memory runs out, or they are no job's text.
pub(crate) fn server_of(alloc: Global, parts: &[&[u8]]) -> Option<Server> {
    // It tells that a job that was read is sound.
    jobs_are_sound();
    let text = joined(alloc, parts).ok()?;
    match Job::parse(alloc, text.as_slice()) {
        Ok(job) => Server::new(alloc, job).ok(),
        Err(_) => None,
    }
}
