// What is told, as a text.
use dm_base::Bytes;
use std::alloc::Global;
use syncml_types::Command;

fn code_of(command: &Command) -> u32 {
    match command {
        Command::Status(status) => status.code,
        Command::Alert(alert) => alert.code,
        _ => 0,
    }
}

/// The codes of Statuses and Alerts, and 0 for other commands, each with a space. None where memory runs out.
pub(crate) fn codes(alloc: Global, entries: &[Command]) -> Option<Bytes> {
    let mut out = Bytes::new(alloc);
    for entry in entries {
        let code = code_of(entry);
        let text = format!(in alloc; "{code} ").ok()?;
        out.extend(text.as_bytes()).ok()?;
    }
    Some(out)
}
