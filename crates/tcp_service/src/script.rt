ghost use Rattle.std.specs.Prelude.{◌≡◌, length, reverse, IfOk};
ghost use Rattle.tcp_service.specs.Scripts.{AreMade};

use crate::Duplex;
use sse_outside::{MemSink, MemSource};
use std::alloc::{AllocError, Global};

/// What comes in over a connection in memory, and which of its reads and writes fail, counted from 0.
#[derive(Drop)]
pub struct Script {
    pub input: Vec<u8>,
    pub read_fails: Vec<u64>,
    pub write_fails: Vec<u64>,
}

/// The connections of scripts, the last one first.
pub fn connections(
    alloc: Global,
    scripts: Vec<Script>,
) -> Result<Vec<Duplex<MemSource, MemSink>>, AllocError>
    ensures count { IfOk result (λ conns. length conns.items ≡ length scripts.items) }
    ensures made { IfOk result (λ conns. AreMade (reverse conns.items) scripts.items) }
{
    let mut scripts = scripts;
    let mut conns = Vec::with_capacity(alloc, scripts.len())?;
    while let Some(script) = scripts.pop() {
        conns.push_reserved(Duplex {
            source: MemSource::new(script.input, script.read_fails),
            sink: MemSink::new(alloc, script.write_fails),
        });
    }
    Ok(conns)
}
