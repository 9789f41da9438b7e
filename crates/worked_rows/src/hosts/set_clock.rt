//! A clock that a test sets.

use std::alloc::Allocator;
use std::cell::Cell;
use std::fs::{File, Files, Metadata, OpenOptions};
use std::io;
use std::io::{Error, ErrorKind};
use std::net::{Net, SocketAddr, TcpListener, TcpStream, UdpSocket};
use std::time::{Clock, Duration};

/// The files and the network of the runtime, as far as a host needs them, and its time until a test sets another.
#[derive(Drop)]
pub struct SetClock<'a> {
    rt: &'a HostRuntime,
    seconds: Cell<Option<u64>>,
    /// By how many seconds the wall clock is ahead of the other.
    ahead: Cell<u64>,
}

impl<'a> SetClock<'a> {
    pub fn new(rt: &'a HostRuntime) -> SetClock<'a> {
        SetClock {
            rt,
            seconds: Cell::new(None),
            ahead: Cell::new(0),
        }
    }

    pub fn set(&self, seconds: u64) {
        self.seconds.set(Some(seconds));
    }

    pub fn set_wall(&self, ahead: u64) {
        self.ahead.set(ahead);
    }
}

impl Clock for SetClock<'_> {
    fn monotonic(&self) -> io::Result<Duration> {
        match self.seconds.get() {
            Some(seconds) => Ok(Duration::from_secs(seconds)),
            None => self.rt.monotonic(),
        }
    }

    fn since_1970(&self) -> io::Result<Duration> {
        match self.seconds.get() {
            Some(seconds) => Ok(Duration::from_secs(seconds.saturating_add(self.ahead.get()))),
            None => self.rt.since_1970(),
        }
    }
}

fn none<T>() -> io::Result<T> {
    Err(Error::from(ErrorKind::Unsupported))
}

impl Net for SetClock<'_> {
    type Stream = TcpStream;

    type Listener = TcpListener;

    fn bind(&self, _addr: SocketAddr) -> io::Result<TcpListener> {
        none()
    }

    fn connect(&self, _addr: SocketAddr) -> io::Result<TcpStream> {
        none()
    }

    fn bind_udp(&self, addr: SocketAddr) -> io::Result<UdpSocket> {
        self.rt.bind_udp(addr)
    }
}

impl Files for SetClock<'_> {
    type File = File;

    type Dir = File;

    fn open_file(&self, how: &OpenOptions, path: &str) -> io::Result<File> {
        self.rt.open_file(how, path)
    }

    fn open_dir(&self, _path: &str) -> io::Result<File> {
        none()
    }

    fn metadata(&self, path: &str) -> io::Result<Metadata> {
        self.rt.metadata(path)
    }

    fn symlink_metadata(&self, _path: &str) -> io::Result<Metadata> {
        none()
    }

    fn copy(&self, _from: &str, _to: &str) -> io::Result<u64> {
        none()
    }

    fn rename(&self, _from: &str, _to: &str) -> io::Result<()> {
        none()
    }

    fn remove_file(&self, _path: &str) -> io::Result<()> {
        none()
    }

    fn create_dir(&self, _path: &str) -> io::Result<()> {
        none()
    }

    fn remove_dir(&self, _path: &str) -> io::Result<()> {
        none()
    }

    fn remove_dir_all<B: Allocator>(&self, _alloc: B, _path: &str) -> io::Result<()> {
        none()
    }
}
