// Tests of the printed lines and of the words of arguments.
use crate::args::asked_word;
use crate::compositions::cycle_refusal;
use crate::run::run;
use std::alloc::Global;
use std::env::{Env, FillError};
use std::io;
use std::io::Write;
use std::process::Abort;
use wac_graph::EncodeError;

const README: &str =
    "0061736d0d00010004080061736d0d000100050401000000060601010000016104080061736d0d00010005080100010101620100\n";

const PLUG: &str =
    "0061736d0d00010004080061736d0d000100050401000000060601010000016104080061736d0d000100050801000101016101000608010100010372756e0b0901000372756e010100\n";

// The line of `plug`, and the match that is passed over.
const PRECEDENCE: &str =
    "0061736d0d00010004080061736d0d000100050401000000060601010000016104080061736d0d000100050801000101016101000608010100010372756e0b0901000372756e010100\npassed over: my:second a a\n";

const PROCESSOR: &str =
    "0061736d0d000100001d0970726f647563657273010c70726f6365737365642d62790101780131\n";

const FUNCTION: &str =
    "0061736d0d000100070501400001000a060100017801000b070100017901000000160e636f6d706f6e656e742d6e616d650105010100016e\n";

const RESOURCE: &str =
    "0061736d0d000100071a01420404000172030101690001400101780101000400016601020a0a0100056e3a702f690500\n";

const DEPENDENCY: &str =
    "0061736d0d000100073b014105014202016d010161040001740300000300056e3a702f6a05000203000001740142020203020101040001740300000400056e3a702f6905020b0701000164030000\n";

const CYCLE: &str = "the graph contains a cycle and cannot be encoded\n";

const UNKNOWN: &str = "unknown composition\n";

// A word, the line printed for it, and the status.
const WORDS: &[(&str, &str, u8)] = &[
    ("empty", "0061736d0d000100\n", 0),
    ("processor", PROCESSOR, 0),
    ("function", FUNCTION, 0),
    ("readme", README, 0),
    ("cycle", CYCLE, 1),
    ("plug", PLUG, 0),
    ("resource", RESOURCE, 0),
    ("dependency", DEPENDENCY, 0),
    ("precedence", PRECEDENCE, 0),
    ("", UNKNOWN, 2),
    ("Readme", UNKNOWN, 2),
    ("readme ", UNKNOWN, 2),
];

fn assert_row(rt: &impl Abort, holds: bool, row: &str) {
    assert!(rt; holds, "{row}");
}

// What is printed where memory was refused.
const REFUSALS: &[&str] = &[
    "out of memory\n",
    "OutOfMemory\n",
    "memory allocation failed\n",
];

// Whether memory was refused, or room for what is printed.
fn is_refused(status: u8, out: &[u8]) -> bool {
    for text in REFUSALS {
        if status == 1 && out == text.as_bytes() {
            return true;
        }
    }
    status == 3
}

// Whether a word is answered by this line and this status; asked once more where memory was refused.
fn is_answered(alloc: Global, word: &str, want: &str, status: u8) -> bool {
    let mut out = Vec::new(alloc);
    let mut answer = run(alloc, word, &mut out);
    if is_refused(answer, out.as_slice()) {
        out.clear();
        answer = run(alloc, word, &mut out);
    }
    answer == status && out.as_slice() == want.as_bytes()
}

#[test]
fn a_word_is_answered_by_a_line(rt: HostRuntime) {
    for (word, want, status) in WORDS {
        assert_row(&rt, is_answered(rt.alloc(), word, want, *status), word);
    }
}

// The number of the node on the cycle, as text.
fn refused_by(rt: &(impl Abort + AllocGlobal), refusal: &EncodeError) -> String {
    let EncodeError::GraphContainsCycle { node } = refusal else {
        panic!(rt; "no cycle is named");
    };
    format!(in rt.alloc(); "{node}").expect(rt, "a text")
}

#[test]
fn a_cycle_is_refused_by_its_node(rt: HostRuntime) {
    let mut refusal = cycle_refusal(rt.alloc()).expect(&rt, "a refusal");
    if let EncodeError::OutOfMemory = refusal {
        refusal = cycle_refusal(rt.alloc()).expect(&rt, "a refusal");
    }
    let node = refused_by(&rt, &refusal);
    assert_row(&rt, node.as_str() == "0", "a cycle");
}

// A writer with room for some bytes. `flushes` says whether flushing succeeds.
#[derive(Drop)]
struct Full {
    room: usize,
    flushes: bool,
}

impl Write for Full {
    fn write(&mut self, buf: &[u8]) -> io::Result<usize> {
        if self.room == 0 && !buf.is_empty() {
            return Err(io::Error::from(io::ErrorKind::StorageFull));
        }
        let count = buf.len().min(self.room);
        self.room -= count;
        Ok(count)
    }

    fn flush(&mut self) -> io::Result<()> {
        if self.flushes {
            Ok(())
        } else {
            Err(io::Error::from(io::ErrorKind::StorageFull))
        }
    }
}

// A word, the room of the writer, whether it flushes, and the status.
const ROOMS: &[(&str, usize, bool, u8)] = &[
    ("empty", 17, true, 0),
    ("empty", 17, false, 3),
    ("empty", 16, true, 3),
    ("empty", 0, true, 3),
    ("readme", 60, true, 3),
    ("other", 20, true, 2),
    ("other", 20, false, 3),
    ("other", 19, true, 3),
    ("other", 0, true, 3),
];

// The status of a word that is answered to such a writer.
fn ended(alloc: Global, word: &str, room: usize, flushes: bool) -> u8 {
    let mut out = Full { room, flushes };
    run(alloc, word, &mut out)
}

// Each is asked once more if the status is another, since memory may have been refused.
#[test]
fn a_failed_write_ends_with_3(rt: HostRuntime) {
    for (word, room, flushes, want) in ROOMS {
        let mut status = ended(rt.alloc(), word, *room, *flushes);
        if status != *want {
            status = ended(rt.alloc(), word, *room, *flushes);
        }
        assert!(rt; status == *want, "{word} {room}");
    }
}

// The arguments after the program's name.
#[derive(Drop)]
struct Given<'a>(&'a [&'a [u8]]);

impl Env for Given<'_> {
    fn arg(&self, i: usize, buf: &mut [u8]) -> Result<usize, FillError> {
        let arg: &[u8] = if i == 0 {
            b"wac_demo"
        } else {
            match self.0.get(i - 1) {
                Some(arg) => *arg,
                None => return Err(FillError::NotPresent),
            }
        };
        if arg.len() > buf.len() {
            return Err(FillError::TooLong);
        }
        buf[..arg.len()].copy_from_slice(arg);
        Ok(arg.len())
    }

    fn var(&self, _name: &str, _buf: &mut [u8]) -> Result<usize, FillError> {
        Err(FillError::NotPresent)
    }

    fn var_at(&self, _i: usize, _buf: &mut [u8]) -> Result<usize, FillError> {
        Err(FillError::NotPresent)
    }
}

// Arguments, and the word that they give.
const ARGUMENTS: &[(&[&[u8]], &str)] = &[
    (&[], "readme"),
    (&[b"empty"], "empty"),
    (&[b""], ""),
    (&[b"empty", b"readme"], ""),
    (&[b"empty", b"readme", b"empty"], ""),
    (&[b"\xff"], ""),
];

#[test]
fn the_arguments_ask_for_a_word(rt: HostRuntime) {
    for (given, want) in ARGUMENTS {
        let word = asked_word(&(Given(given), rt.alloc())).expect(&rt, "a word");
        assert_row(&rt, word.as_str() == *want, want);
    }
}
