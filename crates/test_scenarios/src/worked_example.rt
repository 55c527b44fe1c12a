use keyed_fn::Real;
use sse_client::run_on_bytes;
use sse_outside::{SteadySink, SteadySource};
use std::test::Fail;

/// Two documents, their setup, and a search: examples/first.sse.
const SCRIPT: &[u8] = b"key 0000000000000000000000000000000000000000000000000000000000000000
doc 3 a b
doc 9 a
setup 4 4
find a
";

/// Client and server in one call: the lines alone.
#[test]
fn the_worked_example_in_memory(rt: HostRuntime) -> Result<(), Fail> {
    let alloc = rt.alloc();
    let words = vec![in alloc; String::from_str(alloc, "run")?]?;
    let mut source = SteadySource::new(Vec::from_slice(alloc, SCRIPT)?);
    let mut sink = SteadySink::new(alloc);
    let status = run_on_bytes(alloc, &words, &Real, &mut source, &mut sink);
    assert_eq!(rt; status, 0);
    assert_eq!(rt;
        sink.bytes(),
        b"set up 2 words 0 blocks\nfound 2: 3 9\n".as_slice()
    );
    Ok(())
}
