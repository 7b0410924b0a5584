// The calls for C on images of funnel tables. Each requires nothing.
ghost use Rattle.std.specs.Prelude.{◌≡◌};
ghost use Rattle.gridder_calls.specs.Calls.{left};
ghost use Rattle.gridder_images.specs.Calls.{load_call, sent, write_call};
ghost use Rattle.lent.specs.Lent.{words_of};

use gridder_images::calls::{load_in, write_in};

// A table from an image of it.
#[unsafe(no_mangle)]
pub extern "C" fn landovireph_funnel_load(
    state: &mut [u8],
    words: &mut [u8],
    flags: &mut [u8],
    image: &[u8],
    answer: &mut [u8],
) -> u64
    ensures { left result answer.new state.new (words_of words.new) flags.new ≡ load_call state.old words.old flags.old image.now answer.old }
{
    load_in(state, words, flags, image, answer)
}

// The image of a table; bytes past it stay as they were.
#[unsafe(no_mangle)]
pub extern "C" fn landovireph_funnel_write(
    state: &[u8],
    words: &[u8],
    flags: &[u8],
    label: &[u8],
    image: &mut [u8],
    answer: &mut [u8],
) -> u64
    ensures { sent result answer.new image.new ≡ write_call state.now words.now flags.now label.now image.old answer.old }
{
    write_in(state, words, flags, label, image, answer)
}
