// What the calls on images say, in the answer block (`gridder_answer`).
ghost use Rattle.std.specs.Prelude.{◌≡◌};
ghost use Rattle.image_calls.specs.Calls.{written_report};
ghost use Rattle.gridder_answer.specs.Answer.{says, reply};
ghost use Rattle.gridder_images.specs.Say.{filled_fields, filled_number, written_fields};

use gridder_answer::answer::{ANSWER_LENGTH, SLOT, say_both, say_gate, say_number};
use image_calls::loader::{Filled, LoadRefusal};
use image_writer::writer::WriteRefusal;
use refusal::{Name, number};
use words::clear::clear_bytes;

const BYTE_PLACE: usize = 96;

const LABEL: usize = 104;

const LABEL_LENGTH: usize = 112;

const IMAGE_LENGTH: usize = 120;

// What a loading comes to.
pub fn say_load(answer: &mut [u8; ANSWER_LENGTH], loaded: Result<Filled, LoadRefusal>) -> u64
    ensures { reply result answer.new ≡ reply (filled_number loaded) (says (filled_fields loaded)) }
{
    match loaded {
        Ok(filled) => {
            say_both(
                answer,
                LABEL,
                filled.label_at,
                LABEL_LENGTH,
                filled.label_len,
            );
            0
        }
        Err(LoadRefusal::Image { place }) => {
            say_number(answer, BYTE_PLACE, place);
            number(Name::Image)
        }
        Err(LoadRefusal::Foreign) => {
            clear_bytes(answer);
            number(Name::Foreign)
        }
    }
}

// What a writing comes to. A caller whose output is too short is told the length that the image needs.
pub fn say_write(answer: &mut [u8; ANSWER_LENGTH], written: Result<u64, WriteRefusal>) -> u64
    ensures { reply result answer.new ≡ reply (written_report written).number (says (written_fields written)) }
{
    match written {
        Ok(len) => {
            say_number(answer, IMAGE_LENGTH, len);
            0
        }
        Err(WriteRefusal::Gate(gate)) => say_gate(answer, gate),
        Err(WriteRefusal::Dirty { slot }) => {
            say_number(answer, SLOT, slot.0);
            number(Name::Dirty)
        }
        Err(WriteRefusal::Room { need }) => {
            say_number(answer, IMAGE_LENGTH, need);
            number(Name::Room)
        }
    }
}
