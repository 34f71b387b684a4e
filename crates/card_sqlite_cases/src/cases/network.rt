use card_ports::{Door, Sink, SinkFault, Source, TcpDoor, write_all};
use std::io::{Read, Write};
use std::net::{Ipv4Addr, OpenStream, Shutdown, TcpStream};
use std::test::Fail;

// Ports of loopback, of which one is free.
const FIRST_PORT: u16 = 41000;

const LAST_PORT: u16 = 41200;

// Listens on the first port that is free.
fn listens<D: Door>(door: &mut D) -> Option<u16> {
    for port in FIRST_PORT..LAST_PORT {
        if door.listen(port).is_ok() {
            return Some(port);
        }
    }
    None
}

// Whether these are the bytes up to the end of what is read.
fn gives<I: Source>(link: &mut I, wanted: &[u8]) -> bool {
    let mut rest = wanted;
    let mut buf = [0; 16];
    for _ in 0..wanted.len() {
        match link.read(&mut buf) {
            Ok(n) if n > 0 => match rest.strip_prefix(&buf[..n]) {
                Some(behind) => rest = behind,
                None => return false,
            },
            _ => break,
        }
    }
    rest.is_empty() && matches!(link.read(&mut buf), Ok(0))
}

fn takes<O: Sink>(link: &mut O, bytes: &[u8]) -> bool {
    let written: Result<(), SinkFault> = write_all(link, bytes);
    written.is_ok()
}

// Accepts a connection, on which these bytes come, answers and closes it.
fn answers<D: Door>(door: &mut D, wanted: &[u8], answer: &[u8]) -> bool {
    let Ok(mut link) = door.accept() else {
        return false;
    };
    let done = gives(&mut link, wanted) && takes(&mut link, answer);
    door.close(link);
    done
}

// A client's bytes come over a connection, and the answer comes back to it.
#[test]
fn a_connection_is_read_and_answered(rt: HostRuntime) -> Result<(), Fail> {
    let mut door = TcpDoor::new(&rt);
    let port = listens(&mut door).unwrap_or(0);
    let mut client = TcpStream::connect(&rt, (Ipv4Addr::LOCALHOST, port))?;
    client.write_all(b"what is asked")?;
    client.shutdown(Shutdown::Write)?;
    assert!(rt; answers(&mut door, b"what is asked", b"an answer"));
    let mut back = Vec::new(rt.alloc());
    client.read_to_end(&mut back)?;
    assert!(rt; back.as_slice() == b"an answer".as_slice());
    Ok(())
}
