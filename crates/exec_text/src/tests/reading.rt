use crate::*;
use ev_graph::{End, EventId, Source, Stack};
use std::alloc::{AllocError, Global};
use std::fmt::Write;
use std::test::Fail;

/// Two threads that each write one cell and then read the other's old value.
const STORE_BUFFERING: &str =
    "lasagne-exec 1\nstack 0 700000 710000\nstack 1 710000 720000\nthread 0 2 running\nr 0 init\nthread 1 2 running\nr 0 init\nco 0.0 1.0\nend\n";

/// The fault of a short text; None where it is read.
fn fault_in(alloc: Global, text: &str) -> Option<TextFault> {
    if text.len() > 100_000 {
        return None;
    }
    match read_exec(alloc, text.as_bytes()) {
        Err(ReadFault::Text(fault)) => Some(fault),
        _ => None,
    }
}

/// Whether a short text is read.
fn is_read(alloc: Global, text: &str) -> bool {
    text.len() <= 100_000 && read_exec(alloc, text.as_bytes()).is_ok()
}

/// The store-buffering text with its first part of this form in another form.
fn with(alloc: Global, old: &str, new: &str) -> Result<String, AllocError> {
    match STORE_BUFFERING.split_once(old) {
        Some((front, back)) => format!(in alloc; "{front}{new}{back}"),
        None => format!(in alloc; ""),
    }
}

#[test]
fn says_what_store_buffering_says(rt: HostRuntime) -> Result<(), Fail> {
    assert!(rt; STORE_BUFFERING.len() < 1000);
    let file = read_exec(rt.alloc(), STORE_BUFFERING.as_bytes())?;
    let stacks = [
        Stack {
            lo: 0x700000,
            hi: 0x710000,
        },
        Stack {
            lo: 0x710000,
            hi: 0x720000,
        },
    ];
    assert_eq!(rt; file.stacks.as_slice(), stacks.as_slice());
    assert_eq!(rt; file.threads.as_slice().len(), 2);
    for thread in file.threads.as_slice() {
        assert_eq!(rt; thread.count, 2);
        assert_eq!(rt; thread.end, End::Running);
        let [Given::Read(value, sources)] = thread.values.as_slice() else {
            return Err(Fail::from("one read"));
        };
        assert_eq!(rt; *value, 0);
        assert_eq!(rt; sources.as_slice(), [Source::Start].as_slice());
    }
    let co = [
        EventId {
            thread: 0,
            index: 0,
        },
        EventId {
            thread: 1,
            index: 0,
        },
    ];
    assert_eq!(rt; file.co.as_slice(), co.as_slice());
    Ok(())
}

#[test]
fn reads_texts_of_every_form(rt: HostRuntime) -> Result<(), Fail> {
    let forms = [
        ("0 2 running", "0 2 halted"),
        ("0 2 running", "0 0 badaccess"),
        ("0 2 running", "0 2 divide"),
        ("0 2 running", "0 2 invalid"),
        ("0 2 running", "0 2 badreturn"),
        ("1 2 running", "1 4094 running"),
        ("r 0 init", "r 401006 0.1"),
        ("r 0 init", "r ffffffffffffffff 15.4095"),
        ("r 0 init", "r 0 init,0.0,init,init,init,init,init,1.0"),
        ("r 0 init", "i 2a"),
        ("r 0 init\n", ""),
        ("co 0.0 1.0", "co"),
        ("stack 1 710000 720000", "stack 1 0 ffffffffffffffff"),
    ];
    for (old, new) in forms {
        let text = with(rt.alloc(), old, new)?;
        assert!(rt; is_read(rt.alloc(), text.as_str()), "{new}");
    }
    Ok(())
}

#[test]
fn tells_the_line_and_the_kind(rt: HostRuntime) -> Result<(), Fail> {
    let faults = [
        ("co 0.0 1.0", "co 0.0 1.0 16.0", 8, TextKind::Number),
        ("0 2 running", "0 4097 running", 4, TextKind::Number),
        ("lasagne-exec 1\n", "lasagne-exec 1\r\n", 1, TextKind::Shape),
        ("stack 0", "stack  0", 2, TextKind::Shape),
        ("lasagne-exec 1", "lasagne-exec 2", 1, TextKind::Shape),
        ("lasagne-exec 1", " lasagne-exec 1", 1, TextKind::Shape),
        ("lasagne-exec 1\n", "", 1, TextKind::Shape),
        ("stack 1", "stack 2", 3, TextKind::Shape),
        ("stack 1", "stack 01", 3, TextKind::Shape),
        ("720000", "00720000", 3, TextKind::Shape),
        ("720000", "7A0000", 3, TextKind::Shape),
        ("720000", "10000000000000000", 3, TextKind::Shape),
        ("720000", "720000 ", 3, TextKind::Shape),
        ("stack 1 710000 720000\n", "", 5, TextKind::Shape),
        ("0 2 running", "1 2 running", 4, TextKind::Shape),
        ("0 2 running", "0 02 running", 4, TextKind::Shape),
        ("0 2 running", "0 2 stopped", 4, TextKind::Shape),
        ("0 2 running", "0 9999 nonsense", 4, TextKind::Shape),
        ("0 2 running", "0 9999999999 running", 4, TextKind::Number),
        ("0 2 running", "0 10000000000 running", 4, TextKind::Shape),
        ("1 2 running", "1 4095 running", 6, TextKind::Number),
        ("r 0 init", "r 0", 5, TextKind::Shape),
        ("r 0 init", "r 0 init,", 5, TextKind::Shape),
        ("r 0 init", "r 0 init init", 5, TextKind::Shape),
        ("r 0 init", "r 0 0.0.0", 5, TextKind::Shape),
        ("r 0 init", "r 0 0.4096", 5, TextKind::Number),
        ("r 0 init", "r 0 16.0,init", 5, TextKind::Number),
        ("r 0 init", "r 0 16.0,start", 5, TextKind::Shape),
        (
            "r 0 init",
            "r 0 0.0,0.0,0.0,0.0,0.0,0.0,0.0,0.0,0.0",
            5,
            TextKind::Shape,
        ),
        ("r 0 init", "i", 5, TextKind::Shape),
        ("thread 1 2 running\nr 0 init\n", "", 6, TextKind::Shape),
        ("co 0.0 1.0", "thread 2 0 halted", 8, TextKind::Shape),
        ("co 0.0 1.0", "co 0.0  1.0", 8, TextKind::Shape),
        ("co 0.0 1.0", "co ", 8, TextKind::Shape),
        ("co 0.0 1.0", "co 0.0 16.0 1", 8, TextKind::Shape),
        ("co 0.0 1.0\n", "", 8, TextKind::Shape),
        ("end\n", "end", 9, TextKind::Shape),
        ("end\n", "end \n", 9, TextKind::Shape),
        ("end\n", "", 9, TextKind::Shape),
        ("end\n", "end\n\n", 10, TextKind::Shape),
        ("end\n", "end\nend\n", 10, TextKind::Shape),
    ];
    for (old, new, line, kind) in faults {
        let text = with(rt.alloc(), old, new)?;
        assert_eq!(rt;
            fault_in(rt.alloc(), text.as_str()),
            Some(TextFault { line, kind }),
            "{new}"
        );
    }
    Ok(())
}

#[test]
fn a_cut_text_leaves_the_grammar_where_it_ends(rt: HostRuntime) {
    let bytes = STORE_BUFFERING.as_bytes();
    let mut line = 1_u32;
    for end in 0..bytes.len() {
        if end > 1000 {
            break;
        }
        let fault = TextFault {
            line,
            kind: TextKind::Shape,
        };
        assert_eq!(rt;
            read_exec(rt.alloc(), &bytes[..end]).err(),
            Some(ReadFault::Text(fault)),
            "{end}"
        );
        if bytes[end] == b'\n' {
            line = line.saturating_add(1);
        }
    }
    assert_eq!(rt; line, 10);
}

/// So many stacks, or as many threads, as lines of a text.
fn numbered(alloc: Global, stacks: u32, threads: u32) -> Result<String, AllocError> {
    let mut text = String::from_str(alloc, "lasagne-exec 1\n")?;
    for number in 0..stacks {
        writeln!(text, "stack {number} 0 8")?;
    }
    for number in 0..threads {
        writeln!(text, "thread {number} 0 running")?;
    }
    text.push_str("co\nend\n")?;
    Ok(text)
}

#[test]
fn has_1_to_16_threads(rt: HostRuntime) -> Result<(), Fail> {
    for (stacks, threads, line) in [(0, 0, 2), (17, 17, 18), (16, 15, 33), (1, 2, 4)] {
        let text = numbered(rt.alloc(), stacks, threads)?;
        let kind = TextKind::Shape;
        assert_eq!(rt;
            fault_in(rt.alloc(), text.as_str()),
            Some(TextFault { line, kind })
        );
    }
    for threads in [1, 16] {
        let text = numbered(rt.alloc(), threads, threads)?;
        assert!(rt; is_read(rt.alloc(), text.as_str()));
    }
    Ok(())
}

#[test]
fn orders_4096_events(rt: HostRuntime) -> Result<(), Fail> {
    let mut co = String::from_str(rt.alloc(), "co")?;
    for index in 0..4096 {
        write!(co, " 0.{index}")?;
    }
    let text = with(rt.alloc(), "co 0.0 1.0", co.as_str())?;
    assert!(rt; is_read(rt.alloc(), text.as_str()));
    co.push_str(" 1.0")?;
    let text = with(rt.alloc(), "co 0.0 1.0", co.as_str())?;
    let fault = TextFault {
        line: 8,
        kind: TextKind::Number,
    };
    assert_eq!(rt; fault_in(rt.alloc(), text.as_str()), Some(fault));
    co.push_str(" 1")?;
    let text = with(rt.alloc(), "co 0.0 1.0", co.as_str())?;
    let kind = TextKind::Shape;
    assert_eq!(rt;
        fault_in(rt.alloc(), text.as_str()),
        Some(TextFault { line: 8, kind })
    );
    Ok(())
}

#[test]
fn faults_have_texts(rt: HostRuntime) -> Result<(), Fail> {
    let fault = TextFault {
        line: 5,
        kind: TextKind::Number,
    };
    let text = format!(in rt.alloc(); "{}", ReadFault::from(fault))?;
    assert_eq!(rt; text.as_str(), "line 5: a number is too large");
    assert_eq!(rt; ReadFault::from(ev_graph::NoMemory), ReadFault::NoMemory);
    Ok(())
}
