//! What no clause says: that calls succeed with ample memory, and what the system's own files and streams do.

use redl_io::{
    Failed, FileShelf, MemShelf, MemSink, Shelf, Sink, Staged, StdSink, Stream, SureShelf, Text,
    put_piece, put_pieces, put_text,
};
use std::alloc::{AllocError, Global};
use std::io::{ErrorKind, Write};
use std::test::Fail;
use std::{fs, io};

// Bytes that tell their place.
fn pattern(alloc: Global, count: usize) -> Result<Vec<u8>, AllocError> {
    let mut bytes = Vec::with_capacity(alloc, count)?;
    for i in 0..count {
        bytes.push((i % 251) as u8)?;
    }
    Ok(bytes)
}

// Whether a text of `count` bytes has them, and a copy of it too.
fn is_kept(alloc: Global, count: usize) -> Result<bool, AllocError> {
    let bytes = pattern(alloc, count)?;
    let text = Text::copy_of(alloc, &bytes)?;
    let copy = text.copy(alloc)?;
    Ok(text.as_bytes() == bytes.as_slice() && copy.as_bytes() == bytes.as_slice())
}

#[test]
fn a_text_is_the_bytes_that_it_was_made_of(rt: HostRuntime) -> Result<(), Fail> {
    for count in [0, 1, 7, 14, 15, 16, 17, 31, 32, 4096] {
        assert!(rt; is_kept(rt.alloc(), count)?, "{count} bytes");
    }
    Ok(())
}

fn add_file(
    alloc: Global,
    files: &mut Vec<(Text, Vec<u8>)>,
    name: &[u8],
    text: &[u8],
) -> Result<(), AllocError> {
    let name = Text::copy_of(alloc, name)?;
    let text = Vec::from_slice(alloc, text)?;
    files.push((name, text))?;
    Ok(())
}

// Two pairs have the name `P`.
fn files(alloc: Global) -> Result<Vec<(Text, Vec<u8>)>, AllocError> {
    let mut files = Vec::new(alloc);
    add_file(alloc, &mut files, b"P", b"abcd")?;
    add_file(alloc, &mut files, b"E", b"")?;
    add_file(alloc, &mut files, b"P", b"wxyz")?;
    Ok(files)
}

// Whether a fetch gives this text, or fails where there is none.
fn is_fetched<F: Shelf>(
    alloc: Global,
    shelf: &mut F,
    name: &str,
    cap: usize,
    want: Option<&str>,
) -> bool {
    match (shelf.fetch(alloc, name, cap), want) {
        (Ok(bytes), Some(want)) => bytes.as_slice() == want.as_bytes(),
        (Err(_), None) => true,
        _ => false,
    }
}

#[test]
fn the_first_file_with_the_name_counts(rt: HostRuntime) -> Result<(), Fail> {
    let alloc = rt.alloc();
    let mut sure = SureShelf::new(files(alloc)?);
    let mut shelf = MemShelf::new(files(alloc)?, Vec::new(alloc));
    for (name, cap, want) in [
        ("P", 0, Some("")),
        ("P", 3, Some("abc")),
        ("P", 9, Some("abcd")),
        ("E", 9, Some("")),
        ("PP", 9, None),
    ] {
        let same = is_fetched(alloc, &mut sure, name, cap, want)
            && is_fetched(alloc, &mut shelf, name, cap, want);
        assert!(rt; same, "{name} up to {cap}");
    }
    Ok(())
}

// A sink with room for this and no more, of which these puts fail.
fn sink(alloc: Global, room: usize, fails: &[(u64, u64)]) -> Result<MemSink, AllocError> {
    let fails = Vec::from_slice(alloc, fails)?;
    MemSink::new(alloc, room, fails)
}

// What a piece and a text come to where this put fails, and whether the sink then has these bytes.
fn put_both(
    alloc: Global,
    text: &Text,
    fails: u64,
    told: &str,
) -> Result<(Result<(), Failed>, Result<(), Failed>, bool), AllocError> {
    let mut sink = sink(alloc, 9, &[(fails, 1)])?;
    let first = put_piece(b"ab", &mut sink);
    let second = put_text(text, &mut sink);
    Ok((first, second, sink.bytes() == told.as_bytes()))
}

#[test]
fn pieces_go_out_until_one_fails(rt: HostRuntime) -> Result<(), Fail> {
    let alloc = rt.alloc();
    let text = Text::copy_of(alloc, b"cd")?;
    for (fails, first, second, told) in [
        (0, Ok(()), Ok(()), "abcd"),
        (1, Err(Failed { taken: 1 }), Ok(()), "acd"),
        (2, Ok(()), Err(Failed { taken: 1 }), "abc"),
    ] {
        let got = put_both(alloc, &text, fails, told)?;
        assert!(rt;
            got == (first, second, true),
            "where {fails} fails: {got:?}"
        );
    }
    Ok(())
}

// What two pieces come to where this put fails, and whether the sink then has these bytes.
fn put_of_several(
    alloc: Global,
    fails: u64,
    told: &str,
) -> Result<(Result<(), Failed>, bool), AllocError> {
    let mut sink = sink(alloc, 9, &[(fails, 1)])?;
    let got = put_pieces(&[b"ab".as_slice(), b"cd"], &mut sink);
    Ok((got, sink.bytes() == told.as_bytes()))
}

#[test]
fn of_several_pieces_the_last_put_is_told(rt: HostRuntime) -> Result<(), Fail> {
    for (fails, want, told) in [
        (0, Ok(()), "abcd"),
        (1, Err(Failed { taken: 1 }), "a"),
        (2, Err(Failed { taken: 1 }), "abc"),
    ] {
        let got = put_of_several(rt.alloc(), fails, told)?;
        assert!(rt; got == (want, true), "where {fails} fails: {got:?}");
    }
    Ok(())
}

fn put_twice(front: &[u8], back: &[u8], sink: &mut MemSink) -> Result<(), Failed> {
    let mut staged = Staged::new(sink);
    staged.put(front)?;
    staged.put(back)?;
    staged.finish()
}

// Whether `count` bytes in two puts, the first one of `first` bytes, go out in their order.
fn is_passed_on(alloc: Global, count: usize, first: usize) -> Result<bool, AllocError> {
    let text = pattern(alloc, count)?;
    let (front, back) = text.split_at(first.min(text.len()));
    let mut sink = sink(alloc, 30_000, &[])?;
    let ends = put_twice(front, back, &mut sink);
    Ok(ends.is_ok() && sink.bytes() == text.as_slice())
}

#[test]
fn a_stage_passes_on_all_in_order(rt: HostRuntime) -> Result<(), Fail> {
    for (count, first) in [
        (0, 0),
        (1, 1),
        (4096, 4095),
        (4097, 1),
        (8192, 4096),
        (8194, 4097),
        (20_000, 10_000),
    ] {
        assert!(rt;
            is_passed_on(rt.alloc(), count, first)?,
            "{first} of {count}"
        );
    }
    Ok(())
}

// A sink that notes how many bytes come with each put.
#[derive(Drop)]
struct Recorder {
    puts: Vec<usize>,
}

impl Sink for Recorder {
    ghost use Rattle.std.specs.Prelude.{None, []};

    ghost told = { λ _. None };

    ghost faults = { λ _. 0 };

    ghost settled = { λ _. 0 };

    ghost lenders = { λ _. [] };

    ghost settled_within = { λ _. tt };

    fn put(&mut self, bytes: &[u8]) -> Result<(), Failed> {
        let _noted = self.puts.push(bytes.len());
        Ok(())
    }
}

// Puts a piece ten times through a stage.
fn put_ten_times(piece: &[u8], sink: &mut Recorder) -> Result<(), Failed> {
    let mut staged = Staged::new(sink);
    for _ in 0..10 {
        staged.put(piece)?;
    }
    staged.finish()
}

#[test]
fn a_stage_passes_on_4096_bytes_at_a_time(rt: HostRuntime) -> Result<(), Fail> {
    let alloc = rt.alloc();
    let piece = pattern(alloc, 1000)?;
    let mut sink = Recorder {
        puts: Vec::new(alloc),
    };
    let put = put_ten_times(&piece, &mut sink);
    let puts = sink.puts.as_slice();
    let same = put.is_ok() && puts == [4096, 4096, 1808].as_slice();
    assert!(rt; same, "{puts:?}");
    Ok(())
}

// How many bytes of so many a stage passes on before it is dropped, if they are the first ones.
fn front_of_dropped(alloc: Global, count: usize) -> Result<Option<usize>, AllocError> {
    let text = pattern(alloc, count)?;
    let mut sink = sink(alloc, 30_000, &[])?;
    let put = Staged::new(&mut sink).put(&text);
    let same = put.is_ok() && text.starts_with(sink.bytes());
    Ok(same.then_some(sink.bytes().len()))
}

#[test]
fn a_dropped_stage_leaves_a_front(rt: HostRuntime) -> Result<(), Fail> {
    for (count, most) in [(0, 0), (4096, 0), (4097, 4096), (10_000, 10_000)] {
        let got = front_of_dropped(rt.alloc(), count)?;
        assert!(rt; got == Some(most), "{count}: {got:?}");
    }
    Ok(())
}

fn put_and_finish(text: &[u8], sink: &mut MemSink) -> (Result<(), Failed>, Result<(), Failed>) {
    let mut staged = Staged::new(sink);
    let put = staged.put(text);
    (put, staged.finish())
}

// What 5000 bytes come to where these puts fail, and how many went out, if they are the first ones.
fn staged_to(
    alloc: Global,
    fails: &[(u64, u64)],
) -> Result<((Result<(), Failed>, Result<(), Failed>), Option<usize>), AllocError> {
    let text = pattern(alloc, 5000)?;
    let mut sink = sink(alloc, 30_000, fails)?;
    let got = put_and_finish(&text, &mut sink);
    let told = sink.bytes();
    Ok((got, text.starts_with(told).then_some(told.len())))
}

#[test]
fn a_stage_keeps_what_a_failing_sink_did_not_take(rt: HostRuntime) -> Result<(), Fail> {
    let all = Err(Failed { taken: 4096 });
    for (fails, put, finish, told) in [
        ([(9, 0), (9, 0)], Ok(()), Ok(()), 5000),
        ([(1, 0), (9, 0)], all, Ok(()), 4096),
        ([(1, 100), (9, 0)], all, Ok(()), 4096),
        ([(1, 9999), (9, 0)], all, Ok(()), 4096),
        ([(2, 10), (9, 0)], Ok(()), Err(Failed { taken: 10 }), 4106),
        ([(1, 100), (2, 50)], all, Err(Failed { taken: 50 }), 150),
    ] {
        let got = staged_to(rt.alloc(), &fails)?;
        assert!(rt; got == ((put, finish), Some(told)), "{fails:?}: {got:?}");
    }
    Ok(())
}

#[test]
fn files_are_read_up_to_the_cap(rt: HostRuntime) -> Result<(), Fail> {
    fs::write(&rt, "P", "some text")?;
    let mut shelf = FileShelf::new(&rt);
    for (name, cap, want) in [
        ("P", 0, Some("")),
        ("P", 4, Some("some")),
        ("P", 9, Some("some text")),
        ("P", 400, Some("some text")),
        ("Q", 4, None),
        (".", 4, None),
        ("", 4, None),
    ] {
        let same = is_fetched(rt.alloc(), &mut shelf, name, cap, want);
        assert!(rt; same, "{name} up to {cap}");
    }
    fs::remove_file(&rt, "P")?;
    Ok(())
}

// A stream that is interrupted `interrupts` times, and then takes `step` bytes a call while there is room.
#[derive(Drop)]
struct Slow {
    interrupts: u32,
    step: usize,
    room: usize,
    broken: bool,
}

impl Write for Slow {
    fn write(&mut self, buf: &[u8]) -> io::Result<usize> {
        if self.interrupts > 0 {
            self.interrupts -= 1;
            return Err(io::Error::from(ErrorKind::Interrupted));
        }
        let count = buf.len().min(self.step).min(self.room);
        if self.broken && count == 0 {
            return Err(io::Error::from(ErrorKind::BrokenPipe));
        }
        self.room -= count;
        Ok(count)
    }

    fn flush(&mut self) -> io::Result<()> {
        Ok(())
    }
}

impl Stream for Slow {
    ghost steady = { λ _ _ known. known };
}

fn put_slowly(stream: Slow, piece: &str) -> Result<(), Failed> {
    StdSink::new(stream).put(piece.as_bytes())
}

#[test]
fn a_stream_gets_all_or_fails_where_it_stops(rt: HostRuntime) {
    for (interrupts, step, room, broken, piece, want) in [
        (0, 9, 9, false, "abcdefg", Ok(())),
        (0, 2, 9, false, "abcdefg", Ok(())),
        (3, 2, 7, false, "abcdefg", Ok(())),
        (0, 2, 5, false, "abcdefg", Err(Failed { taken: 5 })),
        (1, 2, 5, true, "abcdefg", Err(Failed { taken: 5 })),
        (0, 2, 0, false, "a", Err(Failed { taken: 0 })),
        (0, 2, 0, true, "a", Err(Failed { taken: 0 })),
        (0, 2, 0, true, "", Ok(())),
    ] {
        let stream = Slow {
            interrupts,
            step,
            room,
            broken,
        };
        let got = put_slowly(stream, piece);
        assert!(rt; got == want, "{piece} at {step} with room {room}: {got:?}");
    }
}

#[test]
fn a_vector_has_what_was_put(rt: HostRuntime) -> Result<(), Fail> {
    let mut sink = StdSink::new(Vec::new(rt.alloc()));
    assert_eq!(rt; sink.put(b"abc"), Ok(()));
    assert_eq!(rt; sink.put(b"de"), Ok(()));
    assert_eq!(rt; sink.into_stream().as_slice(), b"abcde".as_slice());
    Ok(())
}
