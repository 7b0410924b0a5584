// replay: reads a script of calls, one command a line, and prints every answer. The same commands fed to the oracle,
// the Rust beside this repository, give the same lines; a sample of its answers is this program's stored output.
//
// A line that is no command prints `?`. A line longer than 524,288 bytes, or a table of more than 65,536 slots, is more
// than this program holds, and prints `L`.

#![tactic(auto)]

ghost use Rattle.std.specs.Prelude.{◌≡◌, length};

use script::request::Form;
use script_elastic::held;
use script_images::held::command;
use script_numbers::{layouts, probes};
use script_tasks::request::Verb;
use text::field::Fields;
use text::line::{Answer, answer_lines};
use text::out::Out;

struct Replay;

fn main(rt: HostRuntime) {
    answer_lines::<Replay, _>(&mut rt.stdin(), &mut line_buffer());
}

// The longest line has 524,288 bytes; one byte more tells a longer one.
fn line_buffer() -> [u8; 524289]
    ensures { 524289 ≡ length result }
{
    [0; 524289]
}

impl Answer for Replay {
    const LONG: u8 = b'L';

    // What is no command is answered as one that is refused.
    fn answer(line: &[u8], out: &mut Out) -> Option<()> {
        answer_command(Fields::new(line), out);
        Some(())
    }
}

// The answer to a command: its first field names it, the others are its arguments.
fn answer_command(mut fields: Fields, out: &mut Out) {
    let word = fields.next().unwrap_or(b"");
    match word {
        b"EL" => layouts::elastic(fields, out),
        b"FL" => layouts::funnel(fields, out),
        b"ERUN" => held::command(Form::Listed, fields, out),
        b"EBULK" => held::command(Form::Bulk, fields, out),
        b"FRUN" => command(Verb::Run(Form::Listed), fields, out),
        b"FBULK" => command(Verb::Run(Form::Bulk), fields, out),
        b"LOAD" => command(Verb::Load, fields, out),
        b"WRITE" => command(Verb::Write, fields, out),
        b"CHECK" => command(Verb::Check, fields, out),
        _ => probes::command(word, fields, out),
    }
}
