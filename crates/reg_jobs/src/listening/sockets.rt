//! The network of the system: a listener and its connections, over epoll.

use super::network::{Network, Output, Readiness};
use mio::net::{TcpListener, TcpStream};
use mio::{Events, Interest, Poll, Token};
use std::alloc::Global;
use std::io::{self, Read, Write};
use std::net::{self, Net, Shutdown};
use std::rc::Rc;
use std::time::Duration;

/// The token of the listener's events. No connection has this key.
const LISTENER: Token = Token(usize::MAX);

/// One direction of a connection.
#[derive(Drop)]
pub struct Half(Rc<TcpStream>);

impl Read for Half {
    fn read(&mut self, buf: &mut [u8]) -> io::Result<usize> {
        (&*self.0).read(buf)
    }
}

impl Write for Half {
    fn write(&mut self, buf: &[u8]) -> io::Result<usize> {
        (&*self.0).write(buf)
    }

    fn flush(&mut self) -> io::Result<()> {
        Ok(())
    }
}

impl Output for Half {
    fn end(&mut self) -> bool {
        self.0.shutdown(Shutdown::Write).is_ok()
    }
}

/// A listener of the system, and the events of its connections.
#[derive(Drop)]
pub struct Sockets(Global, TcpListener, Poll, Events);

impl Sockets {
    /// The network of a listener. It fails with the system's error, or for want of memory.
    pub fn of<N: Net>(alloc: Global, net: &N, listener: net::TcpListener) -> io::Result<Sockets> {
        listener.set_nonblocking(true)?;
        let (poll, mut listener) = (Poll::new(net)?, TcpListener::from_std(listener));
        let events = Events::with_capacity(alloc, 256)?;
        poll.registry()
            .register(&mut listener, LISTENER, Interest::READABLE)?;
        Ok(Sockets(alloc, listener, poll, events))
    }
}

impl Network<Half, Half> for Sockets {
    fn accept(&mut self, key: usize) -> io::Result<(Half, Half)> {
        let (mut stream, _) = self.1.accept()?;
        let _ = stream.set_nodelay(true);
        let both = Interest::READABLE | Interest::WRITABLE;
        self.2.registry().register(&mut stream, Token(key), both)?;
        let stream = Rc::new(self.0, stream)?;
        Ok((Half(stream.clone()?), Half(stream)))
    }

    fn wait(&mut self, millis: Option<u64>, ready: &mut Vec<Readiness>) -> bool {
        let _ = self.2.poll(&mut self.3, millis.map(Duration::from_millis));
        ready.clear();
        for event in self.3.iter() {
            let has_hung_up = event.is_read_closed() || event.is_error();
            let is_writable = event.is_writable() || event.is_write_closed() || event.is_error();
            let key = event.token().0;
            let _ = ready.push(Readiness::of(key, event.is_readable(), is_writable, has_hung_up));
        }
        self.3.iter().any(|event| event.token() == LISTENER)
    }

    fn close(&mut self, _input: Half, _output: Half) {}
}
