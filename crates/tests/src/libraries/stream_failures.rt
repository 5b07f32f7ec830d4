//! Readers and writers that move one byte a call and fail, or are interrupted, at each call in turn.
use crate::fakes::{Drip, Narrow, Tight};
use std::alloc::Global;
use std::io::ErrorKind;
use streams::{ReadError, read_at_most, send_bytes};
use wire_server::{Received, WireError, receive_body, receive_head};

const BYTES: &[u8] = b"mycontent\n";

// Ten bytes and the end take eleven calls; where no more than four bytes are wanted, four are enough.
#[test]
fn readers_that_fail(rt: HostRuntime) {
    for (most, needed, fault) in [
        (100, 11, ErrorKind::Other),
        (4, 4, ErrorKind::Interrupted),
        (100, 11, ErrorKind::Interrupted),
        (100, 11, ErrorKind::OutOfMemory),
    ] {
        for calls in 0..14usize {
            let mut input = Drip {
                rest: BYTES,
                most: 1,
                calls,
                fault,
            };
            let found = read_at_most(rt.alloc(), &mut input, most);
            let is_failed = matches!(&found, Err(ReadError::Input));
            let is_whole = found.is_ok_and(|bytes| BYTES.starts_with(&bytes)
                && bytes.len() == most.min(10));
            assert!(rt; is_whole == (calls >= needed), "{calls} calls for {most}");
            assert!(rt; is_failed == (calls < needed), "{calls} calls for {most}");
        }
    }
}

#[test]
fn writers_that_fail(rt: HostRuntime) {
    for fault in [Some(ErrorKind::Other), None] {
        for calls in 0..12usize {
            let mut output = Narrow {
                written: Vec::new(rt.alloc()),
                most: 1,
                calls,
                fault,
            };
            let is_sent = send_bytes(&mut output, BYTES).is_ok();
            assert!(rt; is_sent == (calls >= 10), "{calls}");
            assert!(rt;
                BYTES.starts_with(&output.written) && output.written.len() == calls.min(10),
                "{calls}"
            );
        }
    }
}

/// Whether the body of the message that a reader gives came whole, if it gives one. Memory is refused for more than
/// some bytes of it.
fn gives_message(alloc: Global, input: &mut Drip, room: usize) -> Result<Option<bool>, WireError> {
    let mut buffer = Vec::new(alloc);
    let Received::Message((head, size)) = receive_head(input, &mut buffer)? else {
        return Ok(None);
    };
    let mut body = Tight {
        held: Vec::new(alloc),
        room,
    };
    Ok(Some(receive_body(input, &buffer, &head, size, &mut body)?))
}

#[test]
fn messages_of_readers_that_fail(rt: HostRuntime) {
    let message = b"POST / HTTP/1.1\r\ncontent-length: 10\r\n\r\n0123456789";
    for fault in [ErrorKind::Other, ErrorKind::OutOfMemory] {
        for calls in 0..message.len() {
            let mut input = Drip {
                rest: message,
                most: 1,
                calls,
                fault,
            };
            let found = gives_message(rt.alloc(), &mut input, 10);
            assert!(rt; matches!(&found, Err(WireError::Read)), "{calls}");
        }
    }
}

// A body that finds no memory ends the reading, and nothing is read beyond one that does.
#[test]
fn bodies_without_memory(rt: HostRuntime) {
    let next = b"GET / HTTP/1.1\r\n\r\n";
    let messages = b"POST / HTTP/1.1\r\ncontent-length: 10\r\n\r\n0123456789GET / HTTP/1.1\r\n\r\n";
    for room in 0..11usize {
        let mut input = Drip {
            rest: messages,
            most: 1,
            calls: 1000,
            fault: ErrorKind::Other,
        };
        let found = gives_message(rt.alloc(), &mut input, room);
        let wanted = if room == 10 {
            Ok(Some(true))
        } else {
            Err(WireError::Memory)
        };
        assert_eq!(rt; found, wanted, "{room}");
        assert!(rt; input.rest.ends_with(next), "{room}");
    }
}
