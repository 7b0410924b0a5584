// n, e and seed: the three fields that every image starts with.
//
//     | 01 08 00 | n, 8 bytes | 02 04 00 | e, 4 bytes | 03 08 00 | seed, 8 bytes |
//     0          3            11         14           18         21              29

// What an image is the image of, and the word cap to examine it with.
#[derive(Clone, Copy)]
pub struct Given {
    pub n: u64,
    pub e: u32,
    pub seed: u64,
    pub word_cap: u64,
}

// The three fields, where the image starts with them.
pub fn read_header(image: &[u8], word_cap: u64) -> Option<Given> {
    let (n, rest) = image
        .strip_prefix(b"\x01\x08\x00")?
        .split_first_chunk::<8>()?;
    let (e, rest) = rest
        .strip_prefix(b"\x02\x04\x00")?
        .split_first_chunk::<4>()?;
    let (seed, _) = rest
        .strip_prefix(b"\x03\x08\x00")?
        .split_first_chunk::<8>()?;
    Some(Given {
        n: u64::from_le_bytes(*n),
        e: u32::from_le_bytes(*e),
        seed: u64::from_le_bytes(*seed),
        word_cap,
    })
}
