// examine: says in plain words what a table image is, and whether some order of insertions makes its table.
//
//     examine IMAGE [WORDCAP]      IMAGE names a file; WORDCAP is 1 to 256, 8 if none is given
//
// It takes tables of up to 65,536 slots. The verdict is the line that starts with one of these words:
//
//     accepted     some order of insertions makes the table
//     disordered   none does: how many members could be placed, the first that could not, and what a search for it meets
//     dirty        a slot that no table has (the loader makes none)
//     refused      no table can be read: the image is malformed, its n and e have no funnel table, or it is too large
//     misuse       the arguments are wrong, or the file cannot be read
//
// This program has no exit status of its own; `bin/examine` gives one, from that line.
//
//     main.rt      arguments and the file
//     table.rt     from the bytes of an image to a loaded table
//     verdict.rt   what the check says of it
//
// What is printed of it is `examine_words`, which is proved beside the calls.
// It uses the public calls alone: `load_image`, `check`, `search`.

#![tactic(auto)]

mod table;
mod verdict;

ghost use Rattle.std.specs.Prelude.{◌≤◌, length};

use examine_words::say::Escaped;
use funnel_calls::calls::MOST_WORDS;
use std::alloc::Global;
use std::env::{Env, FillError};
use std::fs;
use std::io::Read;
use std::rt::Files;
use table::{examine, refuse_length};
use text::buffers::{MOST_BYTES, image_buffer};
use text::field::decimal;
use text::out::Out;

// The word cap where none is given.
const USUAL_CAP: u64 = 8;

// The descriptor of standard error.
const STDERR: i32 = 2;

// The system's number of the error that a name is no text in UTF-8, and of none.
const NO_TEXT: i32 = 84;

const NO_ERROR: i32 = 0;

fn main(rt: HostRuntime) {
    let mut out = Out::new();
    run(&rt, &mut out);
    out.flush();
}

// The arguments, and then the file that the first one names.
fn run<R: Env + Files + AllocGlobal>(rt: &R, out: &mut Out) {
    let count = arg_count(rt);
    if count < 2 {
        misuse("no image is named", out);
    } else if 3 < count {
        misuse("there are more than two arguments", out);
    } else {
        match word_cap(rt, count) {
            Some(cap) => examine_named(rt, cap, out),
            None => misuse("the word cap is not a number from 1 to 256", out),
        }
    }
}

// How many arguments there are, the name of the program among them.
fn arg_count<R: Env>(rt: &R) -> usize {
    (0..usize::MAX)
        .find(|i| !is_arg(rt, *i))
        .unwrap_or(usize::MAX)
}

fn is_arg<R: Env>(rt: &R, i: usize) -> bool {
    let mut start = [0u8; 1];
    match rt.arg(i, &mut start) {
        Ok(_) => true,
        Err(FillError::TooLong) => true,
        Err(FillError::NotPresent) => false,
    }
}

fn examine_named<R: Env + Files + AllocGlobal>(rt: &R, cap: u64, out: &mut Out) {
    let mut path = io::buffer();
    match rt.arg(1, &mut path) {
        Ok(length) => examine_file(rt, &path[..length], cap, out),
        Err(_) => misuse("the name of the file is too long", out),
    }
}

// What is wrong, and how to use the program.
fn misuse(why: &str, out: &mut Out) {
    writeln!(out, "misuse      {why}");
    put_usage(out);
}

fn put_usage(out: &mut Out) {
    writeln!(out, "usage       examine IMAGE [WORDCAP]");
    write!(out, "            IMAGE names a file, ");
    writeln!(out, "WORDCAP is a number from 1 to 256, 8 if none is given");
}

// The word cap that the second argument gives, or none.
fn word_cap<R: Env>(rt: &R, count: usize) -> Option<u64> {
    if count < 3 {
        return Some(USUAL_CAP);
    }
    let mut text = io::buffer();
    match rt.arg(2, &mut text) {
        Ok(length) => parse_cap(&text[..length]),
        Err(_) => None,
    }
}

fn parse_cap(text: &[u8]) -> Option<u64> {
    decimal(text).filter(|cap| 0 < *cap && *cap <= MOST_WORDS)
}

// The library opens a file by a name in UTF-8 alone.
fn examine_file<R: Files + AllocGlobal>(rt: &R, path: &[u8], cap: u64, out: &mut Out) {
    match std::str::from_utf8(path) {
        Err(_) => {
            let why = std::io::Error::from_raw_os_error(NO_TEXT);
            unreadable(rt.alloc(), path, &why, out);
        }
        Ok(name) => match fs::open(rt, name) {
            Err(why) => unreadable(rt.alloc(), path, &why, out),
            Ok(file) => examine_open(rt.alloc(), path, file, cap, out),
        },
    }
}

// Standard error has the system's reason.
fn unreadable(alloc: Global, path: &[u8], why: &std::io::Error, out: &mut Out) {
    tell(alloc, path, why);
    writeln!(
        out,
        "misuse      the file \"{}\" cannot be read",
        Escaped(path)
    );
    put_usage(out);
}

// The name, a colon and the system's words.
fn tell(alloc: Global, path: &[u8], why: &std::io::Error) {
    io::write_all(STDERR, path);
    io::write_all(STDERR, b": ");
    if let Ok(text) = format!(in alloc; "{why}") {
        io::write_all(STDERR, before_number(text.as_str()).as_bytes());
    }
    io::write_all(STDERR, b"\n");
}

// The library puts the error's number behind the words.
fn before_number(text: &str) -> &str {
    match text.split_once(" (os error ") {
        Some((words, _)) => words,
        None => text,
    }
}

fn examine_open<F: Read + Drop>(alloc: Global, path: &[u8], mut file: F, cap: u64, out: &mut Out) {
    let mut image = image_buffer();
    examine_read(alloc, path, &mut file, cap, &mut image, out);
}

// The buffer holds one byte more than the largest image, which tells a longer file.
fn examine_read<F: Read>(
    alloc: Global,
    path: &[u8],
    file: &mut F,
    cap: u64,
    image: &mut [u8],
    out: &mut Out,
) {
    let length = read_full(file, image);
    if MOST_BYTES < length {
        refuse_length(&image[..length], out);
        return;
    }
    match not_at_end(file) {
        Some(why) => unreadable(alloc, path, &why, out),
        None => examine(&image[..length], cap, out),
    }
}

// Reads until the buffer is full, the file ends or a read fails, and answers how many bytes are there. The library's `read_exact`
// does not say how many it read before it failed.
fn read_full<F: Read>(file: &mut F, image: &mut [u8]) -> usize
    ensures { result ≤ length image.new }
{
    let mut done = 0;
    while done < image.len() {
        let Ok(n) = file.read(&mut image[done..]) else {
            return done;
        };
        if n == 0 {
            return done;
        }
        done += n;
    }
    done
}

// Nothing where a read finds the end of the file. One that finds more, of a file that grew, has no reason of the system's.
fn not_at_end<F: Read>(file: &mut F) -> Option<std::io::Error> {
    let mut one = [0u8; 1];
    match file.read(&mut one) {
        Ok(0) => None,
        Ok(_) => Some(std::io::Error::from_raw_os_error(NO_ERROR)),
        Err(why) => Some(why),
    }
}
