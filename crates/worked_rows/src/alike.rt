//! A request over a socket, and the same one again after the server began anew.

use crate::serving::status_over;
use dots_edge::FileSocketHost;
use dots_host::MemorySink;
use std::fs;
use std::net::{Ipv4Addr, SocketAddr, UdpSocket};
use std::test::Fail;

const HOST_FILE: &[u8] =
    b"journal worked_rows_alike\nsignal 127.0.0.1:0\npeer 0 127.0.0.1\nevents 1\n";

/// A NON with Message ID 1 and token 4a: PUT of mitigation 123 for 192.0.2.0/24, for 3600 seconds.
const REQUEST: &[u8] = b"\x51\x03\x00\x01\x4a\xbb.well-known\x04dots\x08mitigate\
    \x0d\x0ecuid=dz6pHjaADkaFTbjr0JGBpw\x07mid=123\x12\x01\x0f\
    \xff\xa1\x01\xa1\x02\x81\xa2\x06\x81\x6c192.0.2.0/24\x0e\x19\x0e\x10";

/// 2.01 Created, with the mid and the lifetime.
const REPLY: &[u8] = b"\x51\x41\x00\x01\x4a\xc2\x01\x0f\
    \xff\xa1\x01\xa1\x02\x81\xa2\x05\x18\x7b\x0e\x19\x0e\x10";

/// The filter that stands at the end.
const REPORT: &[u8] = b"scrub net1 dz6pHjaADkaFTbjr0JGBpw 123 192.0.2.0/24 any any\n";

fn sends(client: &UdpSocket, port: u16) -> bool {
    let server = SocketAddr::from((Ipv4Addr::LOCALHOST, port));
    client.send_to(REQUEST, server).is_ok()
}

fn gets(client: &UdpSocket, want: &[u8]) -> bool {
    let mut bytes = [0; 100];
    match client.recv_from(&mut bytes) {
        Ok((count, _)) => &bytes[..count.min(100)] == want,
        Err(_) => false,
    }
}

/// Whether the request, sent before the server begins, stands at the end.
fn stands<'a>(
    rt: &'a HostRuntime,
    client: &UdpSocket,
    host: &mut FileSocketHost<&'a HostRuntime>,
) -> bool {
    let mut report = MemorySink::new(rt.alloc());
    sends(client, host.signal_port())
        && status_over(rt, host, &mut report) == Some(0)
        && report.bytes() == REPORT
}

/// Whether a server that gets the request of the client accepts it.
fn accepts(rt: &HostRuntime, client: &UdpSocket) -> bool {
    match FileSocketHost::open(rt.alloc(), rt, HOST_FILE) {
        Ok(mut host) => {
            let stands = stands(rt, client, &mut host);
            drop(host);
            stands
        }
        Err(_) => false,
    }
}

/// Whether the request, sent before the server begins, gets the reply, and stands at the end.
fn is_answered(rt: &HostRuntime) -> bool {
    match UdpSocket::bind(rt, SocketAddr::from((Ipv4Addr::LOCALHOST, 0))) {
        Ok(client) => accepts(rt, &client) && gets(&client, REPLY),
        Err(_) => false,
    }
}

#[test]
fn a_server_that_begins_anew_answers_alike(rt: HostRuntime) -> Result<(), Fail> {
    for run in 1..3 {
        assert!(rt; is_answered(&rt), "in run {run}");
    }
    fs::remove_file(&rt, "worked_rows_alike")?;
    Ok(())
}
