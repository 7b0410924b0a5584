// What a table is: its numbers, its label, its members and where they are.
use crate::header::Given;
use crate::say::{Escaped, Share};
use funnel::table::FunnelTable;
use text::out::Out;

// The numbers that the image starts with.
pub fn put_given(given: Given, out: &mut Out) {
    writeln!(out, "n           {} slots", given.n);
    writeln!(out, "e           {}", given.e);
    writeln!(out, "seed        {}", given.seed);
}

// The label, which is at a place of the image; of length 0 where there is none.
pub fn put_label(image: &[u8], label_at: u64, label_len: u64, out: &mut Out) {
    match label_in(image, label_at as usize, label_len as usize) {
        Some(label) if !label.is_empty() => writeln!(out, "label       \"{}\"", Escaped(label)),
        _ => writeln!(out, "label       none"),
    }
}

fn label_in(image: &[u8], from: usize, length: usize) -> Option<&[u8]> {
    image.get(from..)?.get(..length)
}

// How many members there are, how full that makes the table, and in which parts they are.
pub fn put_members(table: FunnelTable, flags: &[u8], out: &mut Out) {
    put_fill(table.count, table.n, table.plan.maximum, out);
    put_parts(table, flags, out);
}

fn put_fill(count: u64, n: u64, maximum: u64, out: &mut Out) {
    writeln!(out, "members     {count}, the maximum is {maximum}");
    let of_slots = Share {
        part: count,
        whole: n,
    };
    let of_maximum = Share {
        part: count,
        whole: maximum,
    };
    writeln!(
        out,
        "fill        {of_slots} of n, {of_maximum} of the maximum"
    );
}

// Members by the part that they are in.
fn put_parts(table: FunnelTable, flags: &[u8], out: &mut Out) {
    let primary = table.n.wrapping_sub(table.plan.special_len);
    let fallback = primary.wrapping_add(table.plan.special_primary_len);
    let ordinary_count = occupied(flags, 0, primary);
    let primary_count = occupied(flags, primary, fallback);
    let fallback_count = occupied(flags, fallback, table.n);
    write!(out, "where       {ordinary_count} in ordinary levels");
    writeln!(out, ", {primary_count} primary, {fallback_count} fallback");
}

// How many slots from one on and before another are occupied.
fn occupied(flags: &[u8], from: u64, before: u64) -> usize {
    let slots = flags.iter().take(before as usize).skip(from as usize);
    slots.filter(|flag| **flag != 0).count()
}
