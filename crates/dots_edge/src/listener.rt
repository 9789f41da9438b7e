//! A socket for connections.

ghost use Rattle.std.specs.Prelude.{◌≡◌};
ghost use Rattle.dots_edge.specs.Accepts.{HasTaken};

use crate::answer::Answer;
use crate::socket_log::SocketLog;
use mio::net::{TcpListener, TcpStream};
use std::io::ErrorKind;
use std::net::SocketAddr;

/// What an accept gives.
#[derive(Drop)]
pub enum Accepted {
    Stream { stream: TcpStream, from: SocketAddr },
    /// No connection waits at any socket.
    Nothing,
    /// The one that waited is gone.
    Again,
    /// One waits that can't be accepted now, as for want of descriptors.
    Stuck,
}

/// A socket for connections.
#[derive(Drop)]
pub struct Listener {
    socket: TcpListener,
    /// What it answered. No bytes come to it.
    came: SocketLog,
}

impl Listener {
    /// The socket, of which nothing was asked yet.
    pub fn new(socket: TcpListener) -> Listener {
        Listener {
            socket,
            came: SocketLog::new(),
        }
    }

    /// The socket itself.
    pub fn socket(&self) -> &TcpListener {
        &self.socket
    }

    /// Accepts a connection that waits.
    pub fn accept(&mut self) -> Accepted
        ensures accepted { HasTaken result self.old.came self.new.came }
    {
        match self.socket.accept() {
            Ok((stream, from)) => {
                self.came.note(Answer::Went(0), &[]);
                Accepted::Stream { stream, from }
            }
            Err(error) => match error.kind() {
                ErrorKind::WouldBlock => {
                    self.came.note(Answer::Nothing, &[]);
                    Accepted::Nothing
                }
                ErrorKind::Interrupted | ErrorKind::ConnectionAborted => {
                    self.came.note(Answer::Again, &[]);
                    Accepted::Again
                }
                _ => {
                    self.came.note(Answer::Failed, &[]);
                    Accepted::Stuck
                }
            },
        }
    }
}
