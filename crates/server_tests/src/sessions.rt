// Each row's messages are delivered, and what is answered is compared. Where memory runs out, a call is made once more.
use crate::credential_rows::CREDENTIALS;
use crate::job_rows::JOBS;
use crate::order_rows::ORDER;
use crate::rows::{Delivery, Parts, Row};
use crate::servers::server_of;
use crate::value_rows::VALUES;
use dm_base::{Bytes, Memory, Nonce};
use dm_server::{Server, ServerAnswer};
use std::alloc::Global;
use std::test::Fail;

fn deliver(server: &mut Server, bytes: &[u8], nonce: Nonce) -> Result<ServerAnswer, Memory> {
    match server.deliver(bytes, nonce) {
        Err(Memory) => server.deliver(bytes, nonce),
        answer => answer,
    }
}

fn report(server: &Server) -> Result<Bytes, Memory> {
    match server.report() {
        Err(Memory) => server.report(),
        text => text,
    }
}

fn is_made_of(bytes: &[u8], parts: &[&[u8]]) -> bool {
    let mut rest = bytes;
    for part in parts {
        match rest.strip_prefix(*part) {
            Some(behind) => rest = behind,
            None => return false,
        }
    }
    rest.is_empty()
}

// Whether a server answers so, with what it has sent last and its report then.
fn is_as_wanted(
    server: &mut Server,
    delivery: &Delivery,
    sent: Parts,
    wanted: &[u8],
) -> Result<bool, Memory> {
    let nonce = Nonce {
        bytes: [delivery.0; 16],
    };
    let answer = deliver(server, delivery.1, nonce)?;
    let report = report(server)?;
    Ok(
        answer == delivery.2
            && is_made_of(server.again().unwrap_or(&[]), sent)
            && report.as_slice() == wanted,
    )
}

// The number of the first delivery that is answered otherwise.
fn wrong_delivery(server: &mut Server, deliveries: &[Delivery]) -> Result<Option<usize>, Memory> {
    let mut sent: Parts = &[];
    let mut report: &[u8] = b"state waiting\n";
    for (number, delivery) in deliveries.iter().enumerate() {
        if !delivery.3.is_empty() {
            sent = delivery.3;
        }
        if !delivery.4.is_empty() {
            report = delivery.4;
        }
        if !is_as_wanted(server, delivery, sent, report)? {
            return Ok(Some(number));
        }
    }
    Ok(None)
}

fn wrong_in(alloc: Global, row: &Row) -> Result<Option<usize>, Memory> {
    match server_of(alloc, row.0) {
        Some(mut server) => {
            let wrong = wrong_delivery(&mut server, row.1);
            drop(server);
            wrong
        }
        None => Err(Memory),
    }
}

// The number of the first row in which a delivery is answered otherwise, and that delivery's.
fn wrong_row(alloc: Global, rows: &[Row]) -> Result<Option<(usize, usize)>, Memory> {
    for (number, row) in rows.iter().enumerate() {
        if let Some(delivery) = wrong_in(alloc, row)? {
            return Ok(Some((number, delivery)));
        }
    }
    Ok(None)
}

#[test]
fn each_delivery_is_answered(rt: HostRuntime) -> Result<(), Fail> {
    assert_eq!(rt; wrong_row(rt.alloc(), &ORDER)?, None);
    assert_eq!(rt; wrong_row(rt.alloc(), &CREDENTIALS)?, None);
    assert_eq!(rt; wrong_row(rt.alloc(), &JOBS)?, None);
    assert_eq!(rt; wrong_row(rt.alloc(), &VALUES)?, None);
    Ok(())
}
