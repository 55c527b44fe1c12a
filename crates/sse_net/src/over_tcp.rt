use client_places::OverTcp;
use client_stream_link::{TcpLink, tcp_link};
use std::io;
use std::net::TcpStream;

/// Links to a server.
#[derive(Drop)]
pub(crate) struct ServerOverTcp;

impl OverTcp for ServerOverTcp {
    type Link = TcpLink;

    fn link(&self, stream: TcpStream) -> io::Result<TcpLink> {
        tcp_link(stream)
    }
}
