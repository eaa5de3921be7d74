// `run`, of which no clause says what it prints, on a runtime in memory.
use super::*;
use std::alloc::Allocator;
use std::cell::Cell;
use std::fmt::Display;
use std::io::{BufRead, ErrorKind, Lines};
use std::test::Fail;

// Prints its input.
struct Same;

impl Filter for Same {
    fn print(input: &[u8], text: &mut [u8; 900000]) -> usize {
        let count = input.len().min(text.len());
        text[..count].copy_from_slice(&input[..count]);
        count
    }
}

// A runtime that has an input, and takes a text and no other; it counts how often, if printing does not fail.
#[derive(Drop)]
struct Memory<'a> {
    input: &'a [u8],
    text: &'a [u8],
    prints: Cell<usize>,
    fails: Option<ErrorKind>,
}

impl<'a> Input for Memory<'a> {
    type Reader = &'a [u8];

    fn read_line<A: Allocator + Clone>(&self, line: &mut String<A>) -> io::Result<usize> {
        self.reader().read_line(line)
    }

    fn lines<A: Allocator>(&self, alloc: A) -> Lines<&'a [u8], A> {
        self.reader().lines(alloc)
    }

    fn reader(&self) -> &'a [u8] {
        self.input
    }
}

impl Print for Memory<'_> {
    fn print<D: Display + Drop>(&self, _value: D) -> io::Result<()> {
        Err(ErrorKind::Unsupported.into())
    }

    fn println<D: Display + Drop>(&self, _value: D) -> io::Result<()> {
        Err(ErrorKind::Unsupported.into())
    }

    fn write_all(&self, bytes: &[u8]) -> io::Result<()> {
        if let Some(kind) = self.fails {
            return Err(kind.into());
        }
        if bytes != self.text {
            return Err(ErrorKind::InvalidData.into());
        }
        self.prints.set(self.prints.get().wrapping_add(1));
        Ok(())
    }
}

// The front of a longer input is printed.
#[test]
fn prints_the_input(rt: HostRuntime) -> Result<(), Fail> {
    let long = [7; 65538];
    for (input, text) in [
        (b"".as_slice(), b"".as_slice()),
        (b"a line\n", b"a line\n"),
        (&long[..65537], &long[..65537]),
        (&long, &long[..65537]),
    ] {
        let memory = Memory {
            input,
            text,
            prints: Cell::new(0),
            fails: None,
        };
        run::<Same>(&memory)?;
        assert_eq!(rt; memory.prints.get(), 1, "of {} bytes", input.len());
    }
    Ok(())
}

#[test]
fn tells_of_a_failed_write(rt: HostRuntime) {
    let memory = Memory {
        input: b"a line\n",
        text: b"a line\n",
        prints: Cell::new(0),
        fails: Some(ErrorKind::StorageFull),
    };
    let failed = run::<Same>(&memory).err().map(|error| error.kind());
    assert_eq!(rt; failed, Some(ErrorKind::StorageFull));
}
