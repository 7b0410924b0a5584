// The question for the smallest funnel table, for C. It requires nothing.
ghost use Rattle.gridder_rent.specs.Rent.{Rents};

use gridder_rent::rent::smallest_in;

// The smallest n from `first` to `last` that has a layout and takes `count` members, with the numbers of its plan.
#[unsafe(no_mangle)]
pub extern "C" fn landovireph_funnel_smallest(
    count: u64,
    e: u32,
    first: u64,
    last: u64,
    answer: &mut [u8],
) -> u64
    ensures { Rents count e first last answer.old result answer.new }
{
    smallest_in(count, e, first, last, answer)
}
