use super::*;
use std::alloc::Allocator;
use std::cell::Cell;
use std::env::FillError;
use std::fmt::Display;
use std::fs;
use std::io::{BufRead, ErrorKind, Lines, Read};
use std::rt::Env;

/// The schedule without steps.
const EMPTY: &[u8] =
    br#"{"plan":{"latency":[0],"names":["A"],"offset":[[0]],"pair":[0],"rtt":[[0]],"total":0,"version":1},"steps":[]}"#;

const REPORT: &[u8] = b"site 0 time 0 log 0 pending 0\n";

const USAGE: &[u8] = b"usage: helios COMMAND [WORDS]\n";

/// The plan of one site.
const ALONE: &[u8] =
    br#"{"latency":[0],"names":["A"],"offset":[[0]],"pair":[0],"rtt":[[0]],"total":0,"version":1}"#;

/// The dump of a journal that holds nothing.
const NO_RECORDS: &[u8] = b"{\"records\":[],\"site\":0}\n";

/// A plan of two sites whose latencies are too small.
const SHORT: &[u8] =
    br#"{"latency":[0,0],"names":["A","B"],"offset":[[0,-1],[-1,0]],"pair":[1,0],"rtt":[[0,1],[1,0]],"total":0,"version":1}"#;

/// What is typed into a process. No byte of a broken input can be read.
#[derive(Clone, Copy)]
struct Typed {
    bytes: &'static [u8],
    is_broken: bool,
}

impl Read for Typed {
    fn read(&mut self, buf: &mut [u8]) -> io::Result<usize> {
        if self.is_broken {
            return Err(ErrorKind::BrokenPipe.into());
        }
        self.bytes.read(buf)
    }
}

impl BufRead for Typed {
    fn fill_buf(&mut self) -> io::Result<&[u8]> {
        Err(ErrorKind::Unsupported.into())
    }

    fn consume(&mut self, _amount: usize) {}
}

/// A process that was started with these words, the program's name among them, and this input. Its
/// output takes the text that is due, a byte a write, and fails at each other write.
#[derive(Drop)]
struct Process {
    words: &'static [&'static [u8]],
    typed: Typed,
    due: &'static [u8],
    writes: Cell<usize>,
}

fn started(words: &'static [&'static [u8]], typed: Typed, due: &'static [u8]) -> Process {
    Process {
        words,
        typed,
        due,
        writes: Cell::new(0),
    }
}

/// The status of the process's run over its streams, and over the files of the folder that the test runs in.
fn status_of(
    rt: &HostRuntime,
    over: &(impl Input + Print + AllocGlobal),
    all: io::Result<env::Args>,
) -> u8 {
    let mut input = StdSource::over(over);
    let mut output = StdSink::over(over);
    run_command_line(rt, over.alloc(), all, &mut input, &mut output)
}

impl Env for Process {
    fn arg(&self, i: usize, buf: &mut [u8]) -> Result<usize, FillError> {
        match self.words.get(i) {
            None => Err(FillError::NotPresent),
            Some(word) if word.len() > buf.len() => Err(FillError::TooLong),
            Some(word) => {
                buf[..word.len()].copy_from_slice(word);
                Ok(word.len())
            }
        }
    }

    fn var(&self, _name: &str, _buf: &mut [u8]) -> Result<usize, FillError> {
        Err(FillError::NotPresent)
    }

    fn var_at(&self, _i: usize, _buf: &mut [u8]) -> Result<usize, FillError> {
        Err(FillError::NotPresent)
    }
}

impl Input for Process {
    type Reader = Typed;

    fn read_line<A: Allocator + Clone>(&self, buf: &mut String<A>) -> io::Result<usize> {
        self.reader().read_line(buf)
    }

    fn lines<A: Allocator>(&self, alloc: A) -> Lines<Typed, A> {
        self.reader().lines(alloc)
    }

    fn reader(&self) -> Typed {
        self.typed
    }
}

impl Print for Process {
    fn print<D: Display + Drop>(&self, _value: D) -> io::Result<()> {
        Err(ErrorKind::Unsupported.into())
    }

    fn println<D: Display + Drop>(&self, _value: D) -> io::Result<()> {
        Err(ErrorKind::Unsupported.into())
    }

    fn write_all(&self, _bytes: &[u8]) -> io::Result<()> {
        Err(ErrorKind::Unsupported.into())
    }

    fn write_some(&self, bytes: &[u8]) -> io::Result<usize> {
        let writes = self.writes.get();
        self.writes.set(writes.saturating_add(1));
        if bytes.is_empty() || self.due.get(writes) != bytes.first() {
            return Err(ErrorKind::InvalidInput.into());
        }
        Ok(1)
    }
}

#[test]
fn ends_as_the_words_and_the_input_ask(rt: HostRuntime) {
    let cases: [(&[&[u8]], &[u8], u8, &[u8]); 9] = [
        (&[b"helios", b"replay"], EMPTY, 0, REPORT),
        (&[b"helios", b"check"], b"", 5, b"refused not-json\n"),
        (&[b"helios", b"check"], SHORT, 9, b"short 0 1\n"),
        (&[b"helios", b"plan"], EMPTY, 5, b"refused bad-shape\n"),
        (&[b"helios"], EMPTY, 1, USAGE),
        (&[b"replay"], EMPTY, 1, USAGE),
        (&[b"helios", b"replay"], EMPTY, 3, b"site 0 tim"),
        // A word that is no text: no line is written.
        (&[b"helios", b"repl\xffay"], EMPTY, 1, b""),
        (&[b"helios", b"replay", b"\x80"], EMPTY, 1, b""),
    ];
    for (words, bytes, status, due) in cases {
        let typed = Typed {
            bytes,
            is_broken: false,
        };
        let over = (started(words, typed, due), rt.alloc());
        assert_eq!(rt; status_of(&rt, &over, env::args(&over)), status);
        let failed = usize::from(status == 3);
        assert_eq!(rt; over.0.writes.get(), due.len().saturating_add(failed));
    }
}

#[test]
fn ends_by_faults(rt: HostRuntime) {
    let broken = Typed {
        bytes: EMPTY,
        is_broken: true,
    };
    let unread = (
        started(&[b"helios", b"check"], broken, b"fault read\n"),
        rt.alloc(),
    );
    assert_eq!(rt; status_of(&rt, &unread, env::args(&unread)), 2);
    assert_eq!(rt; unread.0.writes.get(), 11);
    let wordless = (started(&[], broken, b""), rt.alloc());
    assert_eq!(rt;
        status_of(&rt, &wordless, Err(ErrorKind::OutOfMemory.into())),
        4
    );
    assert_eq!(rt; wordless.0.writes.get(), 0);
}

/// The status of these words over the plan of one site, and how many bytes of the line were written.
fn run_on_plan(
    rt: &HostRuntime,
    words: &'static [&'static [u8]],
    due: &'static [u8],
) -> (u8, usize) {
    let typed = Typed {
        bytes: ALONE,
        is_broken: false,
    };
    let over = (started(words, typed, due), rt.alloc());
    let status = status_of(rt, &over, env::args(&over));
    (status, over.0.writes.get())
}

/// The length of the file of the journal, where there is one.
fn journal_length(rt: &HostRuntime) -> Option<u64> {
    match fs::metadata(rt, JOURNAL) {
        Ok(metadata) => Some(metadata.len()),
        Err(_) => None,
    }
}

#[test]
fn only_a_dump_opens_the_journal(rt: HostRuntime) {
    let _earlier = fs::remove_file(&rt, JOURNAL);
    // The words, their status and their line, and the length of the file behind them. The file is made before the words
    // are looked at, and holds one byte once it was read.
    let cases: [(&[&[u8]], u8, &[u8], Option<u64>); 6] = [
        (&[b"helios", b"check"], 0, b"optimal 0\n", None),
        (&[b"helios", b"audit", b"dump"], 1, USAGE, None),
        (&[b"helios", b"dump"], 1, USAGE, Some(0)),
        (
            &[b"helios", b"dump", b"1"],
            5,
            b"refused no-such-site 1\n",
            Some(0),
        ),
        (&[b"helios", b"dump", b"0"], 0, NO_RECORDS, Some(1)),
        (&[b"helios", b"dump", b"0"], 0, NO_RECORDS, Some(1)),
    ];
    for (words, status, due, length) in cases {
        let got = run_on_plan(&rt, words, due);
        assert_eq!(rt; got, (status, due.len()));
        assert_eq!(rt; journal_length(&rt), length);
    }
}

#[test]
fn a_journal_that_is_no_file_is_a_fault_without_a_line(rt: HostRuntime) {
    let _earlier = fs::remove_file(&rt, JOURNAL);
    let _made = fs::create_dir(&rt, JOURNAL);
    let dumped = run_on_plan(&rt, &[b"helios", b"dump", b"0"], b"");
    let checked = run_on_plan(&rt, &[b"helios", b"check"], b"optimal 0\n");
    let _removed = fs::remove_dir(&rt, JOURNAL);
    assert_eq!(rt; dumped, (6, 0));
    assert_eq!(rt; checked, (0, 10));
}
