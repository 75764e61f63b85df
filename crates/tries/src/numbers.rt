// The lists of numbers in a line, with a bar between any two.
ghost use Rattle.std.specs.Prelude.{◌≤◌, length};

// The most items of a line, its numbers and bars, that are read.
pub const MOST_ITEMS: usize = 512;

// A number that is not below this one takes no further digit.
const LARGE: u64 = 1_000_000_000_000_000_000;

fn with_digit(n: u64, digit: u8) -> u64 {
    if n < LARGE {
        10 * n + u64::from(digit % 16)
    } else {
        n
    }
}

// Whether a number or a bar, an item of a line, starts at a byte that follows another.
fn starts_item(before: u8, byte: u8) -> bool {
    byte == b'|' || byte.is_ascii_digit() && !before.is_ascii_digit()
}

// Where item n of a line starts, from 0 on, or where the line ends; none starts at the first byte, which follows no other.
fn item_start(line: &[u8], n: usize) -> usize
    ensures { result ≤ length line.now }
{
    line.iter()
        .zip(line.iter().skip(1))
        .enumerate()
        .filter(|(_, (before, byte))| starts_item(**before, **byte))
        .nth(n)
        .map_or(line.len(), |(i, _)| i + 1)
}

// What is read of a line: from its first item on, and no more than the most items.
pub fn items(line: &[u8]) -> &[u8] {
    let line = &line[..item_start(line, MOST_ITEMS)];
    &line[item_start(line, 0)..]
}

// The number that digits make.
fn number_of(digits: &[u8]) -> u64 {
    let mut n = 0;
    for digit in digits {
        n = with_digit(n, *digit);
    }
    n
}

// The numbers of a list, held at the front of a buffer as far as there is room; a line may end before a list, and then it is empty.
pub fn read_list<'a>(list: Option<&[u8]>, held: &'a mut [u64]) -> &'a mut [u64] {
    let mut count = 0;
    for digits in list.unwrap_or(&[]).split(|byte| !byte.is_ascii_digit()) {
        if !digits.is_empty() && count < held.len() {
            held[count] = number_of(digits);
            count += 1;
        }
    }
    &mut held[..count]
}
