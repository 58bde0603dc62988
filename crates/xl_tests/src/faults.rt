//! Each read and put of a run failing in turn, until a run has no failure, and each put of a
//! message.

use std::alloc::{AllocError, Global};
use std::process::Abort;
use std::test::Fail;
use xl_course::{Status, Stop, report_end};
use xl_model::InputFault;
use xl_outside::{MemFolder, MemSink};
use xl_rack::Rack;
use xl_serving::report;
use xl_words::Plain;

/// The size of the pieces in which all bytes go in and out.
const PIECE: usize = 10;

/// What a run is given, and how it ends where nothing fails.
#[derive(Clone, Copy)]
struct Whole<'a> {
    words: Plain<'a>,
    config: &'a str,
    script: &'a str,
    trace: &'a str,
    status: Status,
    out: &'a str,
}

/// What fails: a read of a file, or a put of what is written.
#[derive(Clone, Copy)]
enum Fault {
    Read,
    Put,
}

/// How a run ended: its status, and what it wrote.
#[derive(Drop)]
struct Ended {
    status: Status,
    out: Vec<u8>,
}

/// Two good accesses, and a line that is none. Each good line has ten bytes.
const BAD_TRACE: Whole = Whole {
    words: Plain {
        config: "config",
        script: None,
        trace: Some("trace"),
        made: None,
        answers: true,
        image: false,
        json: false,
    },
    config: "[[row]]\nname = \"a\"\nmode = \"sv39\"\nframes = 64\nspaces = 2\ntable = \"radix\"\ntable_frames = 64\n",
    script: "",
    trace: " L 1000,1\n S 1000,1\n Q 1,1\n",
    status: Status::BadTrace,
    out: "a 1 L 0 0000000000001000 unmapped 13\na 2 S 0 0000000000001000 unmapped 15\n",
};

/// Two rows, with answers, images and JSON.
const EVERY_WORD: Whole = Whole {
    words: Plain {
        config: "config",
        script: Some("script"),
        trace: Some("trace"),
        made: None,
        answers: true,
        image: true,
        json: true,
    },
    config: "[[row]]\nname = \"a\"\nmode = \"sv39\"\nframes = 64\nspaces = 1\ntable = \"radix\"\ntable_frames = 4\n[[row]]\nname = \"b\"\nmode = \"sv39\"\nframes = 64\nspaces = 1\ntable = \"hashed\"\nbuckets = 4\nentries = 4\n",
    script: "map 0 1000 4k rw-u\nrun rest\n",
    trace: " L 1000,1\n M 2000,1\n",
    status: Status::Ok,
    out: "a cmd map ok\nb cmd map ok\na 1 L 0 0000000000001000 ok 0000000000000000\nb 1 L 0 0000000000001000 ok 0000000000000000\na 2 L 0 0000000000002000 unmapped 13\nb 2 L 0 0000000000002000 unmapped 13\na 2 S 0 0000000000002000 unmapped 15\nb 2 S 0 0000000000002000 unmapped 15\n[{\"accepted\":1,\"accesses\":3,\"denied\":0,\"fences\":0,\"fills\":0,\"growths\":0,\"invalidated\":0,\"kicks\":0,\"migrated\":0,\"name\":\"a\",\"notcanonical\":0,\"ok\":1,\"pasum\":\"0000000000000000\",\"reads\":9,\"refused\":[0,0,0,0,0,0,0,0,0],\"tlb\":[],\"undone\":0,\"unmapped\":2,\"walks\":3,\"wchits\":0},{\"accepted\":1,\"accesses\":3,\"denied\":0,\"fences\":0,\"fills\":0,\"growths\":0,\"invalidated\":0,\"kicks\":0,\"migrated\":0,\"name\":\"b\",\"notcanonical\":0,\"ok\":1,\"pasum\":\"0000000000000000\",\"reads\":10,\"refused\":[0,0,0,0,0,0,0,0,0],\"tlb\":[],\"undone\":0,\"unmapped\":2,\"walks\":3,\"wchits\":0}]\nimage a 0 0 0000000000000401\nimage a 1 0 0000000000000801\nimage a 2 1 00000000000000d7\n",
};

impl<'a> Whole<'a> {
    /// The files, in a folder whose read of this number fails.
    fn folder(&self, alloc: Global, failing: u64) -> Result<MemFolder, AllocError> {
        let texts = [
            ("config", self.config),
            ("script", self.script),
            ("trace", self.trace),
        ];
        let mut files = Vec::new(alloc);
        for (name, text) in texts {
            let bytes = Vec::from_slice(alloc, text.as_bytes())?;
            files.push((String::from_str(alloc, name)?, bytes))?;
        }
        Ok(MemFolder::open(files, vec![in alloc; failing]?, PIECE))
    }

    /// Runs with the call of this number failing, counted from 1.
    fn run(&self, alloc: Global, fault: Fault, call: u64) -> Result<Ended, Fail> {
        let (read, put) = match fault {
            Fault::Read => (call, 0),
            Fault::Put => (0, call),
        };
        let mut folder = self.folder(alloc, read)?;
        let mut out = MemSink::open(alloc, 4000, vec![in alloc; put]?, PIECE)?;
        let mut rows = Rack::open(alloc)?;
        let end = report(alloc, &self.words, &mut folder, &mut out, &mut rows);
        Ok(Ended {
            status: Status::of(end),
            out: Vec::from_slice(alloc, out.bytes())?,
        })
    }

    /// Whether a run ended as it does where nothing fails.
    fn is(&self, ended: &Ended) -> bool {
        ended.status == self.status && ended.out.as_slice() == self.out.as_bytes()
    }
}

/// Makes each call fail in turn, and says how many there are. What was written is then a front of
/// what is written where nothing fails.
fn fail_each(rt: &(impl Abort + AllocGlobal), whole: &Whole, fault: Fault) -> Result<u64, Fail> {
    let status = match fault {
        Fault::Read => Status::ReadFault,
        Fault::Put => Status::WriteFault,
    };
    for call in 1..=200u64 {
        let ended = whole.run(rt.alloc(), fault, call)?;
        if whole.is(&ended) {
            return Ok(call.wrapping_sub(1));
        }
        assert!(rt; ended.status == status);
        assert!(rt; whole.out.as_bytes().starts_with(ended.out.as_slice()));
    }
    panic!(rt; "more than 200 calls")
}

/// A file takes a read for each piece, and one that finds its end.
#[test]
fn each_read_that_fails_leaves_a_front_of_what_is_written(rt: HostRuntime) -> Result<(), Fail> {
    assert!(rt; fail_each(&rt, &BAD_TRACE, Fault::Read)? >= 10 + 3);
    assert!(rt; fail_each(&rt, &EVERY_WORD, Fault::Read)? >= 20 + 4 + 3);
    Ok(())
}

/// A text takes at least a put for each piece.
#[test]
fn each_put_that_fails_leaves_a_front_of_what_is_written(rt: HostRuntime) -> Result<(), Fail> {
    assert!(rt; fail_each(&rt, &BAD_TRACE, Fault::Put)? >= 8);
    assert!(rt; fail_each(&rt, &EVERY_WORD, Fault::Put)? >= 89);
    Ok(())
}

/// The line of the first access is written before the second piece of the trace is read.
#[test]
fn a_read_that_fails_leaves_the_lines_before_it(rt: HostRuntime) -> Result<(), Fail> {
    let ended = BAD_TRACE.run(rt.alloc(), Fault::Read, 12)?;
    assert_eq!(rt;
        ended.out.as_slice(),
        b"a 1 L 0 0000000000001000 unmapped 13\n".as_slice()
    );
    Ok(())
}

/// The message takes four pieces.
#[test]
fn each_put_that_fails_cuts_the_message(rt: HostRuntime) -> Result<(), Fail> {
    let alloc = rt.alloc();
    let bad = InputFault::ScriptLine { line: 1, reason: 1 };
    for (put, known) in [
        (1u64, ""),
        (2, "xlate: scr"),
        (3, "xlate: script line 1"),
        (4, "xlate: script line 1: reason 1"),
        (5, "xlate: script line 1: reason 1\n"),
    ] {
        let mut err = MemSink::open(alloc, 100, vec![in alloc; put]?, PIECE)?;
        report_end(&mut err, Err(Stop::Input(bad)));
        assert_eq!(rt; err.bytes(), known.as_bytes());
    }
    Ok(())
}
