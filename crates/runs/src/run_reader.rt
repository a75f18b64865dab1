// A reader of a font's runs.
ghost use Rattle.std.specs.Prelude.{◌≤◌, length};
ghost use Rattle.runs.specs.RunReads.{Widths};

use crate::Runs;
use font_reader::opened::OpenedFont;
use window::bytes_at;

// A font's bytes, and how many bits wide the numbers of its zero runs and of its one runs are.
#[derive(Clone, Copy, Debug, PartialEq, Eq)]
pub struct RunReader<'a> {
    pub bytes: &'a [u8],
    pub m0: u8,
    pub m1: u8,
    ghost most: { length bytes.now ≤ 1048576 },
    ghost widths: { Widths m0 m1 },
}

impl<'a> RunReader<'a> {
    ghost use Rattle.std.specs.Prelude.{◌≡◌, ◌*◌, drop};
    ghost use Rattle.definitions.specs.Bits.{bits as fontBits};
    ghost use Rattle.definitions.specs.Runs.{runs as runPixels};
    ghost use Rattle.runs.specs.RunReads.{Short, is_whole, pair_of, FirstPair, PairAfter};

    pub fn new(font: &OpenedFont<'a>) -> RunReader<'a>
        ensures bytes { result.bytes.now ≡ font.now.bytes.now }
        ensures zeros { result.m0 ≡ font.now.head.m0 }
        ensures ones { result.m1 ≡ font.now.head.m1 }
    {
        RunReader {
            bytes: font.bytes,
            m0: font.head.m0,
            m1: font.head.m1,
        }
    }

    // Both numbers of a pair: the lowest bits of `bits`.
    fn pair_of(&self, bits: u32, bit_pos: usize) -> Runs
        ensures { result ≡ pair_of bits self.now.m0 self.now.m1 bit_pos }
    {
        Runs {
            zeros: (bits % (1u32 << self.m0)) as usize,
            ones: ((bits >> self.m0) % (1u32 << self.m1)) as usize,
            bit_pos,
        }
    }

    // The first pair of a glyph.
    pub(crate) fn first_pair(&self, start: usize) -> Runs
        requires { start ≤ 8 * length self.now.bytes.now }
        ensures { FirstPair self.now.bytes.now self.now.m0 self.now.m1 start result }
    {
        let end = start + usize::from(self.m0) + usize::from(self.m1);
        self.pair_of(bytes_at(self.bytes, start / 8) >> (start % 8), end)
    }

    // The pair after a pair: one bit says whether it is repeated or a new one follows. The bit is tested before the word is
    // shifted, so that the compiler shifts only for a new pair.
    pub fn next_pair(&self, runs: Runs) -> Runs
        requires { (runs.bit_pos ≤ 8 * length self.now.bytes.now) × Short runs }
        ensures { PairAfter self.now.bytes.now self.now.m0 self.now.m1 runs result }
    {
        let start = runs.bit_pos;
        let word = bytes_at(self.bytes, start / 8);
        let shift = start % 8;
        if (word >> shift) % 2 == 1 {
            return Runs {
                zeros: runs.zeros,
                ones: runs.ones,
                bit_pos: start + 1,
            };
        }
        let end = start + 1 + usize::from(self.m0) + usize::from(self.m1);
        self.pair_of(word >> (shift + 1), end)
    }

    // Whether the font has so many pixels of a glyph whose runs begin at the bit `start`. The pixels are counted, run by run, and
    // none is looked at. The loop goes over no range: each pair says where the next begins.
    pub(crate) fn has_pixels(&self, start: usize, pixels: usize) -> bool
        requires { start ≤ 8 * length self.now.bytes.now }
        ensures { result ≡ is_whole (runPixels self.now.m0 self.now.m1 pixels (drop start (fontBits self.now.bytes.now))) }
    {
        let limit = self.bytes.len() * 8;
        let mut runs = self.first_pair(start);
        let mut missing = pixels;
        while runs.bit_pos < limit {
            if missing <= runs.count() {
                return true;
            }
            missing -= runs.count();
            runs = self.next_pair(runs);
        }
        false
    }
}
