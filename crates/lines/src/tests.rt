// Lines of a standard input in memory, and what is printed of them.
use crate::{each_byte_line, each_line};
use std::alloc::{Allocator, Global};
use std::fmt::Display;
use std::io;
use std::io::{BufRead, Lines, Write};

// Standard input, and a standard output that takes these bytes alone, in one write.
#[derive(Clone, Copy)]
struct Console<'a> {
    input: &'a [u8],
    output: &'a [u8],
    alloc: Global,
}

impl Alloc for Console<'_> {
    type A = Global;

    fn alloc(&self) -> Global {
        self.alloc
    }
}

impl<'a> Input for Console<'a> {
    type Reader = &'a [u8];

    fn read_line<A: Allocator + Clone>(&self, buf: &mut String<A>) -> io::Result<usize> {
        self.reader().read_line(buf)
    }

    fn lines<A: Allocator>(&self, alloc: A) -> Lines<&'a [u8], A> {
        self.reader().lines(alloc)
    }

    fn reader(&self) -> &'a [u8] {
        self.input
    }
}

impl Print for Console<'_> {
    fn print<D: Display + Drop>(&self, _value: D) -> io::Result<()> {
        Err(io::Error::from(io::ErrorKind::Unsupported))
    }

    fn println<D: Display + Drop>(&self, _value: D) -> io::Result<()> {
        Err(io::Error::from(io::ErrorKind::Unsupported))
    }

    fn write_all(&self, bytes: &[u8]) -> io::Result<()> {
        if bytes == self.output {
            Ok(())
        } else {
            Err(io::Error::from(io::ErrorKind::InvalidInput))
        }
    }
}

// What is answered to the lines of an input where they are text, and where they are whatever bytes: each in brackets.
fn answers(alloc: Global, input: &[u8], text: &[u8], bytes: &[u8]) -> [io::Result<()>; 2] {
    let console = |output| Console {
        input,
        output,
        alloc,
    };
    [
        each_line(&console(text), |out, line| write!(out, "[{line}]")),
        each_byte_line(&console(bytes), |out, line| {
            out.write_all(b"[")?;
            out.write_all(line)?;
            out.write_all(b"]")
        }),
    ]
}

#[test]
fn answers_each_line(rt: HostRuntime) {
    for (input, text, bytes) in [
        (
            b"one\n\ntwo\r\nthree".as_slice(),
            b"[one][][two][three]".as_slice(),
            b"[one][][two\r][three]".as_slice(),
        ),
        (b"one\n", b"[one]", b"[one][]"),
        (b"", b"", b"[]"),
    ] {
        for result in answers(rt.alloc(), input, text, bytes) {
            assert!(rt; result.is_ok(), "of {} bytes", input.len());
        }
    }
}

#[test]
fn refuses_what_is_no_text(rt: HostRuntime) {
    let [text, bytes] = answers(rt.alloc(), b"one\n\xFF\ntwo", b"", b"[one][\xFF][two]");
    assert!(rt; text.is_err_and(|e| e.kind() == io::ErrorKind::InvalidData));
    assert!(rt; bytes.is_ok());
}

// The first line's answer fails, and not what stands behind it, which isn't read by then.
#[test]
fn answers_before_it_reads_on(rt: HostRuntime) {
    let console = Console {
        input: b"one\n\xFF\n",
        output: b"",
        alloc: rt.alloc(),
    };
    let result = each_line(
        &console,
        |_, _| Err(io::Error::from(io::ErrorKind::InvalidInput)),
    );
    assert!(rt; result.is_err_and(|e| e.kind() == io::ErrorKind::InvalidInput));
}

#[test]
fn tells_a_write_that_fails(rt: HostRuntime) {
    for result in answers(rt.alloc(), b"one\n", b"[two]", b"[two]") {
        assert!(rt; result.is_err_and(|e| e.kind() == io::ErrorKind::InvalidInput));
    }
}
