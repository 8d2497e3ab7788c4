// Which command of the job is meant, among those that were sent.
ghost use Rattle.std.specs.Prelude.{◌≡◌, ◌<◌, IfSome, option_and_then};
ghost use Rattle.dm_service.specs.Laws.{AreInOrder};
ghost use Rattle.dm_service.specs.Matching as Spec;
ghost use Rattle.dm_report.specs.Sending.{is_sent_before, AreCommands};

use dm_service::Sent;
use syncml_types::ResultsCmd;

fn is_for(sent: &Sent, msg: u32, command: u32) -> bool
    ensures { result ≡ Spec.is_for msg command sent.now }
{
    sent.msg == msg && sent.command == command
}

fn is_before(sent: &Sent, msg: u32, command: u32) -> bool
    ensures { result ≡ is_sent_before sent.now msg command }
{
    sent.msg < msg || (sent.msg == msg && sent.command < command)
}

/// The command that was sent under a MsgID and a CmdID, which is found by halving.
pub(crate) fn find_sent(sent: &[Sent], msg: u32, command: u32) -> Option<Sent>
    requires in_order { AreInOrder sent.now }
    requires numbered { AreCommands sent.now }
    ensures found { result ≡ Spec.find_sent msg command sent.now }
    ensures number { IfSome result (λ s. 0 < s.number) }
{
    let mut rest = sent;
    while !rest.is_empty() {
        let (front, behind) = rest.split_at(rest.len() / 2);
        let middle = behind[0];
        if is_for(&middle, msg, command) {
            return Some(middle);
        }
        rest = if is_before(&middle, msg, command) {
            &behind[1..]
        } else {
            front
        };
    }
    None
}

/// The command that Results are for.
pub(crate) fn sent_for(sent: &[Sent], results: &ResultsCmd) -> Option<Sent>
    requires in_order { AreInOrder sent.now }
    requires numbered { AreCommands sent.now }
    ensures found { result ≡ option_and_then (λ msg. Spec.find_sent msg results.now.cmd_ref sent.now)
        results.now.msg_ref }
    ensures number { IfSome result (λ s. 0 < s.number) }
{
    match results.msg_ref {
        Some(msg) => find_sent(sent, msg, results.cmd_ref),
        None => None,
    }
}
