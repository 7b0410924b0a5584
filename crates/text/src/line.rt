// Lines out of an input that comes in parts.
ghost use Rattle.std.specs.Prelude.{◌≡◌, length, take};
ghost use Rattle.text.specs.Line.{hold, TakesTo, Leaves};

use crate::out::Out;
use std::io::Read;

// What was taken of a part: the length of the line so far, and where the next line starts, none where the part ended before
// this one did.
#[derive(Clone, Copy)]
pub struct Gathered {
    pub length: usize,
    pub next: Option<usize>,
}

// Takes bytes of a part, from `from` to the next newline or its end, behind the `so_far` bytes of a line that are there.
// Bytes that do not go in are dropped: a line as long as its buffer is too long.
pub fn gather(part: &[u8], from: usize, line: &mut [u8], so_far: usize) -> Gathered
    ensures { TakesTo part.now from line.old so_far line.new result.length result.next }
{
    let mut length = so_far;
    for i in from..part.len() {
        let b = part[i];
        if b == b'\n' {
            return Gathered {
                length,
                next: Some(i + 1),
            };
        }
        length = keep(line, length, b);
    }
    Gathered { length, next: None }
}

// One byte more of a line, while there is room.
fn keep(line: &mut [u8], len: usize, b: u8) -> usize
    ensures { (take result line.new ≡ hold (length line.old) (take len line.old) b) × (length line.new ≡ length line.old) }
{
    if len < line.len() {
        line[len] = b;
        return len + 1;
    }
    len
}

// A program that answers lines, each by itself.
pub trait Answer {
    // What a line is answered that the buffer does not hold.
    const LONG: u8;

    // Prints the answer to a line, or nothing where the line asks nothing.
    fn answer(line: &[u8], out: &mut Out) -> Option<()>;
}

// The bytes of the last line so far, in a buffer of one byte more than the longest line, which tells a longer one.
#[derive(Drop)]
struct Lines<'a> {
    bytes: &'a mut [u8],
    length: usize,
}

impl<'a> Lines<'a> {
    // Takes a part of the input, and answers each line that ends in it. What is held of the last line stays for the next part.
    fn take<A: Answer>(&mut self, part: &[u8], out: &mut Out)
        ensures { Leaves part.now self.old.bytes.now self.old.length self.new.bytes.now self.new.length }
    {
        let mut from = 0;
        // No `for`: how far a turn goes is known behind it.
        while from < part.len() {
            let got = gather(part, from, self.bytes, self.length);
            self.length = got.length;
            match got.next {
                None => return,
                Some(next) => {
                    self.answer::<A>(out);
                    self.length = 0;
                    from = next;
                }
            }
        }
    }

    fn answer<A: Answer>(&self, out: &mut Out) {
        if self.bytes.len() <= self.length {
            out.byte(A::LONG);
        } else if A::answer(&self.bytes[..self.length], out).is_none() {
            out.byte(b'?');
        }
        out.byte(b'\n');
    }

    // The last line may lack its newline.
    fn finish<A: Answer>(&self, out: &mut Out) {
        if 0 < self.length {
            self.answer::<A>(out);
        }
        out.flush();
    }
}

// Answers all lines of an input, one at a time in a lent buffer.
pub fn answer_lines<A: Answer, R: Read>(input: &mut R, line: &mut [u8]) {
    let mut chunk = io::large_buffer();
    let mut out = Out::new();
    let mut lines = Lines {
        bytes: line,
        length: 0,
    };
    // A proved loop ends; nobody feeds it this often.
    for _ in 0..u64::MAX {
        // A read that fails ends the input.
        let n = input.read(&mut chunk).unwrap_or(0);
        if n == 0 {
            break;
        }
        lines.take::<A>(&chunk[..n], &mut out);
    }
    lines.finish::<A>(&mut out);
}
