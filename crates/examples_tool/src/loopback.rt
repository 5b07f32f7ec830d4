//! A caller of `serve_on`: a store is served on a port of this machine.
use policy::{Config, store_dir};
use std::alloc::Global;
use std::io;
use std::io::{Read, Write};
use std::net::{Shutdown, TcpListener, TcpStream};
use std::test::Fail;
use store::Store;
use tables::MemStore;
use tool::serve_on;

/// `bob` is allowed, and nobody else is.
const SETTINGS: &[u8] = b"allowed-users = [\"bob\"]\ntrusted-users = []\n";

/// A listing of the paths, and an add of a text.
const MESSAGES: &[u8] = b"GET /paths HTTP/1.1\r\nstore-user: bob\r\n\r\n\
POST /text HTTP/1.1\r\nstore-user: bob\r\ncontent-length: 10\r\n\r\nname: a\n\nx";

/// What is replied to both in a new store. The path was computed by another program.
const REPLIES: &[u8] = b"HTTP/1.1 200 OK\r\ncontent-type: text/plain\r\ncontent-length: 0\r\n\r\n\
HTTP/1.1 200 OK\r\ncontent-type: text/plain\r\ncontent-length: 46\r\n\r\n\
/nix/store/12wigjpizrn8axaqxj288q1b751qmwya-a\n";

/// A store in memory without an object.
fn new_store(alloc: Global) -> Result<Store<MemStore>, Fail> {
    let config = Config::from_toml(alloc, SETTINGS)?;
    let tables = tables::open_in_memory(alloc, store_dir(&config))?;
    Ok(Store::new(alloc, config, tables))
}

/// Sends messages, and ends the sending.
fn send(client: &mut TcpStream, messages: &[u8]) -> io::Result<()> {
    client.write_all(messages)?;
    client.shutdown(Shutdown::Write)
}

/// Serves a store on the first connection of a listener. How many connections failed, and the faults.
fn accept(
    rt: &HostRuntime,
    listener: &TcpListener,
    store: &mut Store<MemStore>,
) -> io::Result<(u32, Vec<u8>)> {
    let mut errors = Vec::new(rt.alloc());
    let failed = serve_on(rt, rt.alloc(), listener, 1, store, &mut errors)?;
    Ok((failed, errors))
}

/// Serves a new store on the first connection of a listener, without faults.
fn serve_first(rt: &HostRuntime, listener: &TcpListener) -> Result<(), Fail> {
    let mut store = new_store(rt.alloc())?;
    let end = accept(rt, listener, &mut store);
    drop(store.release().release());
    let (failed, errors) = end?;
    if failed == 0 && errors.is_empty() {
        Ok(())
    } else {
        Err(Fail::new("a connection failed"))
    }
}

/// What is received until the other side ends its sending.
fn receive(alloc: Global, client: &mut TcpStream) -> io::Result<Vec<u8>> {
    let mut replies = Vec::new(alloc);
    client.read_to_end(&mut replies)?;
    Ok(replies)
}

// The test is client and server in one thread: what the client sends waits at the listener.
#[test]
fn served_on_loopback(rt: HostRuntime) -> Result<(), Fail> {
    let listener = TcpListener::bind(&rt, "127.0.0.1:0")?;
    let mut client = TcpStream::connect(&rt, listener.local_addr()?)?;
    send(&mut client, MESSAGES)?;
    serve_first(&rt, &listener)?;
    let replies = receive(rt.alloc(), &mut client)?;
    assert!(rt; replies.as_slice() == REPLIES);
    Ok(())
}
