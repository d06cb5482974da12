use std::net::{Ipv4Addr, Net, SocketAddr, TcpListener, TcpStream};
use std::time::Duration;
use std::{io, thread};

/// What opens a port of this machine.
pub trait Binder {
    /// Listens at a port, and tells so.
    fn listen(&self, port: u16) -> io::Result<TcpListener>;

    /// Waits a moment before another try.
    fn pause(&self);
}

/// The system's network. What is at its ports alone, 127.0.0.1, can reach them.
#[derive(Drop)]
pub struct Host<'a, R: Net<Listener = TcpListener, Stream = TcpStream>> {
    net: &'a R,
    host: &'a HostRuntime,
}

impl<'a, R: Net<Listener = TcpListener, Stream = TcpStream>> Host<'a, R> {
    pub fn new(net: &'a R, host: &'a HostRuntime) -> Host<'a, R> {
        Host { net, host }
    }
}

impl<'a, R: Net<Listener = TcpListener, Stream = TcpStream>> Binder for Host<'a, R> {
    /// Standard error tells on which address it listens, or why it doesn't.
    fn listen(&self, port: u16) -> io::Result<TcpListener> {
        match TcpListener::bind(self.net, SocketAddr::from((Ipv4Addr::LOCALHOST, port))) {
            Ok(listener) => {
                let _ = eprintln!(self.host; "listening on http://127.0.0.1:{port}");
                Ok(listener)
            }
            Err(error) => {
                let _ = eprintln!(self.host; "127.0.0.1:{port} can't be listened on: {error}");
                Err(error)
            }
        }
    }

    fn pause(&self) {
        let _ = thread::sleep(self.host, Duration::from_millis(20));
    }
}
