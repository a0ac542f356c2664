//! Reads decks from the files that it is given: says of each how many stops it has, how many bytes were
//! read and whether its book is written as these bytes again; or its fault.
#![tactic(auto)]

use book::Book;
use bounds::BookFault;
use deck::read_deck;
use std::{env, fs, io};
use write::write_deck;

// More bytes than the longest deck has.
const MOST_BYTES: usize = 131072;

// Whether a book is written as these bytes.
fn writes(book: &Book, bytes: &[u8]) -> bool {
    let mut buffer = [0u8; MOST_BYTES];
    write_deck(book, &mut buffer).is_ok_and(|count| buffer.get(..count) == Some(bytes))
}

fn print_read(rt: &HostRuntime, book: &Book, bytes: &[u8]) -> io::Result<()> {
    let how = if writes(book, bytes) {
        "the same"
    } else {
        "otherwise"
    };
    println!(rt;
        "{} stops, {} bytes, written {how}",
        book.stops(),
        bytes.len()
    )
}

fn print_fault(rt: &HostRuntime, book: &Book, fault: BookFault) -> io::Result<()> {
    println!(rt;
        "fault {} {} {}, {} stops",
        fault.number(),
        fault.place(),
        fault.layer(),
        book.stops()
    )
}

fn print_deck(rt: &HostRuntime, text: &[u8]) -> io::Result<()> {
    let (book, read) = read_deck(text);
    match read {
        Ok(end) => print_read(rt, &book, &text[..end]),
        Err(fault) => print_fault(rt, &book, fault),
    }
}

fn main(rt: HostRuntime) -> anyhow::Result<()> {
    for name in env::args(&rt)?.skip(1) {
        let text = fs::read(&rt, name.as_str())?;
        print!(rt; "{name}: ")?;
        print_deck(&rt, &text)?;
    }
    Ok(())
}
