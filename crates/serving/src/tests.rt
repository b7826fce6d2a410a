//! Tests of the parts, each played on a connection of the loopback.

use crate::Part;
use std::io::{Read, Write};
use std::net::{Shutdown, TcpListener, TcpStream};
use std::test::Fail;

/// A part by its words: what a client says to it, what it hears of it up to the end, and how many
/// bytes the part tells to have come.
struct Row {
    words: &'static [&'static str],
    said: &'static [u8],
    heard: &'static [u8],
    count: Option<u64>,
}

const ROWS: [Row; 5] = [
    Row {
        words: &["say", "220 ready\r\n"],
        said: b"",
        heard: b"220 ready\r\n",
        count: None,
    },
    Row {
        words: &["hush"],
        said: &[b'x'; 2000],
        heard: b"",
        count: None,
    },
    Row {
        words: &["echo"],
        said: b"HELO\r\n\0\xff",
        heard: b"HELO\r\n\0\xff",
        count: None,
    },
    Row {
        words: &["count"],
        said: &[b'x'; 2000],
        heard: b"",
        count: Some(2000),
    },
    Row {
        words: &["shut"],
        said: b"",
        heard: b"",
        count: None,
    },
];

/// Words that are no part.
const OTHERS: [&[&str]; 8] = [
    &[],
    &["say"],
    &["say", "a", "b"],
    &["hush", "a"],
    &["echo", "a"],
    &["count", "a"],
    &["shut", "a"],
    &["Hush"],
];

/// Words of a call.
fn words_of(rt: &HostRuntime, call: &[&str]) -> Result<Vec<String>, Fail> {
    let mut words = Vec::new(rt.alloc());
    for word in call {
        words.push(String::from_str(rt.alloc(), word)?)?;
    }
    Ok(words)
}

/// What a client hears up to the end, and how many bytes are told to have come, if it first says a
/// text, and that it will say no more, before the part is played. It is an error if the connection
/// is closed before all that the client said was read.
fn played(rt: &HostRuntime, part: Part<'_>, said: &[u8]) -> Result<(Vec<u8>, Option<u64>), Fail> {
    let listener = TcpListener::bind(rt, "127.0.0.1:0")?;
    let mut client = TcpStream::connect(rt, listener.local_addr()?)?;
    let (server, _) = listener.accept()?;
    client.write_all(said)?;
    client.shutdown(Shutdown::Write)?;
    let count = part.play(server)?;
    let mut heard = Vec::new(rt.alloc());
    client.read_to_end(&mut heard)?;
    Ok((heard, count))
}

#[test]
fn each_part_does_what_its_words_say(rt: HostRuntime) -> Result<(), Fail> {
    for row in &ROWS {
        let words = words_of(&rt, row.words)?;
        let part = Part::read(&words).ok_or("no part")?;
        let (heard, count) = played(&rt, part, row.said)?;
        assert_eq!(rt; heard.as_slice(), row.heard, "{:?}", row.words);
        assert_eq!(rt; count, row.count, "{:?}", row.words);
    }
    Ok(())
}

#[test]
fn no_other_words_are_a_part(rt: HostRuntime) -> Result<(), Fail> {
    for call in OTHERS {
        let words = words_of(&rt, call)?;
        assert_eq!(rt; Part::read(&words), None, "{call:?}");
    }
    Ok(())
}
