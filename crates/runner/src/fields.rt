// The words of a line: numbers, bytes and floats. (`as`, here and in `weights`: no `From` goes to fewer bits.)
ghost use Rattle.std.specs.Prelude.{◌<◌};

use std::num::f32_from_bits_with_nan;

// The value of a hex digit. (By hand: what is no digit counts as 0, where `parse` would refuse.)
fn digit(byte: u8) -> u8
    ensures { result < 16 }
{
    match byte {
        b'0'..=b'9' => byte - b'0',
        b'a'..=b'f' => byte - b'a' + 10,
        _ => 0,
    }
}

// The number that digits give in a base, modulo 2^64.
fn number(base: usize, digits: &[u8]) -> usize {
    digits.iter().fold(
        0,
        |value: usize, byte| value
            .wrapping_mul(base)
            .wrapping_add(usize::from(digit(*byte))),
    )
}

// The numbers that name a code.
#[derive(Clone, Copy)]
pub struct Setting {
    pub m: usize,
    pub t: usize,
    pub n: usize,
}

// A line of the input, without its line feed.
#[derive(Clone, Copy)]
pub struct Line<'a>(pub &'a [u8]);

impl<'a> Line<'a> {
    // The word before which `index` others stand, or nothing where the line has fewer.
    pub fn word(self, index: usize) -> &'a [u8] {
        self.0.split(|byte| *byte == b' ').nth(index).unwrap_or(&[])
    }

    // The number that is word `index`.
    pub fn number(self, index: usize) -> usize {
        number(10, self.word(index))
    }

    // Words 1 to 3: m, t and n.
    pub fn setting(self) -> Setting {
        Setting {
            m: self.number(1),
            t: self.number(2),
            n: self.number(3),
        }
    }

    // The buffer that is lent, as long as word `index` says, where it has that room.
    pub fn lend<'b>(self, index: usize, buffer: &'b mut [u8]) -> &'b mut [u8] {
        let length = self.number(index).min(buffer.len());
        &mut buffer[..length]
    }

    // Reads word `index` into the buffer, so many digits for each value, as many values as it has room for.
    fn values<'b, T: Copy, F: Fn(usize) -> T>(
        self,
        index: usize,
        width: usize,
        buffer: &'b mut [T],
        value: F,
    ) -> &'b [T]
        requires { (0 < width) × F.IsAlwaysCallable value }
    {
        let digits = self.word(index);
        let count = (digits.len() / width).min(buffer.len());
        for (place, digits) in buffer.iter_mut().zip(digits.chunks_exact(width)) {
            *place = value(number(16, digits));
        }
        &buffer[..count]
    }

    // The bytes that are word `index`.
    pub fn bytes<'b>(self, index: usize, buffer: &'b mut [u8]) -> &'b [u8] {
        self.values(index, 2, buffer, |value| (value & 0xff) as u8)
    }

    // The floats whose patterns are word `index`.
    pub fn floats<'b>(self, index: usize, buffer: &'b mut [f32]) -> &'b [f32] {
        self.values(
            index,
            8,
            buffer,
            |value| f32_from_bits_with_nan((value & 0xffff_ffff) as u32),
        )
    }
}
