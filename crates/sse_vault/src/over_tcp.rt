use client_places::OverTcp;
use std::io;
use std::net::TcpStream;
use vault_stream_link::{TcpVault, tcp_vault};

/// Links to a vault.
#[derive(Drop)]
pub(crate) struct VaultOverTcp;

impl OverTcp for VaultOverTcp {
    type Link = TcpVault;

    fn link(&self, stream: TcpStream) -> io::Result<TcpVault> {
        tcp_vault(stream)
    }
}
