// Numbers of given widths as bytes, lowest byte first; lists put down in a part of another.
#![tactic(auto)]

ghost use Rattle.std.specs.Prelude.{◌≡◌, ◌+◌, ◌-◌, ◌*◌, ◌≤◌, length, drop, replicate};
ghost use Rattle.packing.specs.Part.{part};
ghost use Rattle.packing.specs.Put.{put};
ghost use Rattle.packing.specs.Numbers.{le, val, pack, unpack, total, rep, Width, Widths};

// How a record stands in bytes: the bytes of each of its numbers, and those of all.
#[derive(Clone, Copy)]
pub struct Shape<'a> {
    pub widths: &'a [u8],
    pub stride: usize,
}

// Puts `from` down in the bytes from `at` on.
pub fn copy_to(bytes: &mut [u8], at: usize, from: &[u8])
    requires { at + length from.now ≤ length bytes.old }
    ensures { bytes.new ≡ put bytes.old at from.now }
{
    // By index: with `copy_from_slice` the archive asks for `memmove` from outside, where one list that C lends is copied to another.
    for i in 0..from.len() {
        bytes[at + i] = from[i];
    }
}

// Puts zeros down in the bytes from `at` up to `end`.
pub fn zero_to(bytes: &mut [u8], at: usize, end: usize)
    requires { (at ≤ end) × (end ≤ length bytes.old) }
    ensures { bytes.new ≡ put bytes.old at (replicate (end - at) 0) }
{
    bytes[at..end].fill(0);
}

// The number that `width` bytes from `at` on make.
pub fn read_number(bytes: &[u8], at: usize, width: usize) -> u64
    requires { Width width × (at + width ≤ length bytes.now) }
    ensures { result ≡ val (part at (at + width) bytes.now) }
{
    let mut wide = [0u8; 8];
    wide[..width].copy_from_slice(&bytes[at..at + width]);
    u64::from_le_bytes(wide)
}

// Puts a number down in `width` bytes from `at` on.
pub fn write_number(bytes: &mut [u8], at: usize, width: usize, number: u64)
    requires { Width width × (at + width ≤ length bytes.old) }
    ensures { bytes.new ≡ put bytes.old at (le width number) }
{
    let wide = number.to_le_bytes();
    copy_to(bytes, at, &wide[..width]);
}

// Puts the numbers of the record that starts at byte `from` down in `out` from `at` on.
fn read_record(bytes: &[u8], from: usize, widths: &[u8], out: &mut [u64], at: usize)
    requires widths { Widths widths.now }
    requires widths_in_bounds { (from + total widths.now ≤ length bytes.now) × (at + length widths.now ≤ length out.old) }
    ensures { out.new ≡ put out.old at (unpack widths.now (drop from bytes.now)) }
{
    let mut i = from;
    for (k, width) in widths.iter().enumerate() {
        let width = usize::from(*width);
        out[at + k] = read_number(bytes, i, width);
        i += width;
    }
}

// Puts the numbers of `count` records down in `out` from `at` on.
pub fn read_records(bytes: &[u8], shape: Shape, count: usize, out: &mut [u64], at: usize)
    requires shape { Widths shape.widths.now × (shape.stride ≡ total shape.widths.now) }
    requires count_in_bounds { (count * shape.stride ≤ length bytes.now) × (at + count * length shape.widths.now ≤ length out.old) }
    ensures { out.new ≡ put out.old at (unpack (rep count shape.entry.widths.now) bytes.now) }
{
    for k in 0..count {
        read_record(
            bytes,
            k * shape.stride,
            shape.widths,
            out,
            at + k * shape.widths.len(),
        );
    }
}

// Puts the record whose numbers start at `from` down in the bytes from `at` on.
fn write_record(bytes: &mut [u8], at: usize, widths: &[u8], numbers: &[u64], from: usize)
    requires widths { Widths widths.now }
    requires widths_in_bounds { (from + length widths.now ≤ length numbers.now) × (at + total widths.now ≤ length bytes.old) }
    ensures { bytes.new ≡ put bytes.old at (pack widths.now (drop from numbers.now)) }
{
    let mut to = at;
    for (k, width) in widths.iter().enumerate() {
        let width = usize::from(*width);
        write_number(bytes, to, width, numbers[from + k]);
        to += width;
    }
}

// Puts the first `count` records of the numbers down in the bytes from `at` on.
pub fn write_records(bytes: &mut [u8], at: usize, shape: Shape, count: usize, numbers: &[u64])
    requires shape { Widths shape.widths.now × (shape.stride ≡ total shape.widths.now) }
    requires count_in_bounds { (count * length shape.widths.now ≤ length numbers.now) × (at + count * shape.stride ≤ length bytes.old) }
    ensures { bytes.new ≡ put bytes.old at (pack (rep count shape.entry.widths.now) numbers.now) }
{
    for k in 0..count {
        write_record(
            bytes,
            at + k * shape.stride,
            shape.widths,
            numbers,
            k * shape.widths.len(),
        );
    }
}
