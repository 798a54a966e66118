//! How much a call puts at a time.
use super::calls::{INSERTED, call, files_of};
use redl_app::Status;
use redl_io::{Failed, NullSink, Sink, SureShelf};
use std::alloc::Global;
use std::test::Fail;

// A sink that notes how many bytes come with each put.
#[derive(Drop)]
struct NotingSink {
    puts: Vec<usize>,
}

impl Sink for NotingSink {
    ghost use Rattle.std.specs.Prelude.{None, []};

    ghost told = { λ _. None };

    ghost faults = { λ _. 0 };

    ghost settled = { λ _. 0 };

    ghost lenders = { λ _. [] };

    ghost settled_within = { λ _. tt };

    fn put(&mut self, bytes: &[u8]) -> Result<(), Failed> {
        let _noted = self.puts.push(bytes.len());
        Ok(())
    }
}

fn noting_sink(alloc: Global) -> NotingSink {
    NotingSink {
        puts: Vec::new(alloc),
    }
}

#[test]
fn output_goes_out_4096_bytes_at_a_time(rt: HostRuntime) -> Result<(), Fail> {
    let alloc = rt.alloc();
    let mut body = String::new(alloc);
    for _ in 0..200 {
        body.push_str(INSERTED)?;
    }
    let files = files_of(alloc, body.as_str(), "200", ["", "", ""])?;
    let mut shelf = SureShelf::new(files);
    let mut out = noting_sink(alloc);
    let line = "settle accept P";
    let status = call(alloc, line, &mut shelf, &mut out, &mut NullSink)?;
    // 419 bytes around 200 paragraphs of 34 bytes each
    let puts = out.puts.as_slice();
    let is_wanted = puts == [4096, 3123].as_slice();
    assert!(rt; is_wanted && status == Status::Done, "{status:?}: {puts:?}");
    Ok(())
}
