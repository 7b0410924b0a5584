// Little-endian numbers in byte slices, each one load or store: by the library's methods of its type, so one for each size and no generic one.
ghost use Rattle.std.specs.Prelude.{◌≡◌, ◌+◌, ◌<◌, ◌≤◌, ◌^◌, length};
ghost use Rattle.std.proofs.lemmas.List.Edits.{sets};
ghost use Rattle.words.specs.Bytes.{bytes_of, num_at, Read};

// The number of two bytes.
pub fn read16(b: &[u8], at: usize) -> u64
    requires { at + 2 ≤ length b.now }
    ensures { Read result (num_at b.now at 2) 65536 }
{
    u64::from(u16::from_le_bytes([b[at], b[at + 1]]))
}

// The number of four bytes.
pub fn read32(b: &[u8], at: usize) -> u64
    requires { at + 4 ≤ length b.now }
    ensures { Read result (num_at b.now at 4) 4294967296 }
{
    u64::from(u32::from_le_bytes([b[at], b[at + 1], b[at + 2], b[at + 3]]))
}

// The number of eight bytes.
pub fn read64(b: &[u8], at: usize) -> u64
    requires { at + 8 ≤ length b.now }
    ensures { result ≡ num_at b.now at 8 }
{
    u64::from_le_bytes([
        b[at],
        b[at + 1],
        b[at + 2],
        b[at + 3],
        b[at + 4],
        b[at + 5],
        b[at + 6],
        b[at + 7],
    ])
}

// The two low bytes of x.
pub fn write16(out: &mut [u8], at: usize, x: u64)
    requires { at + 2 ≤ length out.old }
    ensures { out.new ≡ sets out.old at (bytes_of 2 x) }
{
    out[at..at + 2].copy_from_slice(&((x % 65536) as u16).to_le_bytes());
}

// The four low bytes of x.
pub fn write32(out: &mut [u8], at: usize, x: u64)
    requires { at + 4 ≤ length out.old }
    ensures { out.new ≡ sets out.old at (bytes_of 4 x) }
{
    out[at..at + 4].copy_from_slice(&((x % 4294967296) as u32).to_le_bytes());
}

// The eight bytes of x.
pub fn write64(out: &mut [u8], at: usize, x: u64)
    requires { at + 8 ≤ length out.old }
    ensures { out.new ≡ sets out.old at (bytes_of 8 x) }
{
    out[at..at + 8].copy_from_slice(&x.to_le_bytes());
}
