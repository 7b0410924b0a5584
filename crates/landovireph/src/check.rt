// The check of a funnel table, for C. It requires nothing.
ghost use Rattle.std.specs.Prelude.{◌≡◌};
ghost use Rattle.gridder_check.specs.Check.{check_call, check_left};
ghost use Rattle.lent.specs.Lent.{words_of};

use gridder_check::call::check_in;

// The check of a table: whether some order of insertions makes it. Marks and order are lent, n entries each.
#[unsafe(no_mangle)]
pub extern "C" fn landovireph_funnel_check(
    state: &[u8],
    words: &[u8],
    flags: &[u8],
    marks: &mut [u8],
    order: &mut [u8],
    answer: &mut [u8],
) -> u64
    ensures { check_left result answer.new marks.new (words_of order.new) ≡ check_call state.now words.now flags.now marks.old order.old answer.old }
{
    check_in(state, words, flags, marks, order, answer)
}
