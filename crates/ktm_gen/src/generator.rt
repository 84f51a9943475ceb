// The lines of a generated script, one after another.
ghost use Rattle.std.specs.Prelude.{◌≡◌, ◌+◌, ◌/◌, ◌<◌, OnOk};
ghost use Rattle.ktm_gen.specs.Script.{line_at, word_of};

use crate::line::put_line;
use ktm_base::NoMemory;
use rand_core::SeedableRng;
use rand_core::utils::NextWord;
use rand_pcg::Lcg64Xsh32;
use std::marker::Model;

/// The most lines that are taken from a generator.
pub const MOST_LINES: u32 = 1_000_000;

// How many lines a cycle has.
const CYCLE: u32 = 9;

/// Gives the lines of a generated script, one after another.
#[derive(Drop)]
pub struct Generator {
    // The script is that of this number.
    number: u64,
    lines: u32,
    words: Lcg64Xsh32,
    // The word of the cycle that a line was last given of.
    word: u32,
}

impl Model for Generator {
    ghost use Rattle.ktm_gen.specs.Generator.{GeneratorState, HasDrawn};

    ghost Value = { GeneratorState };

    ghost view = { λ g. record { number = g.number; lines = g.lines } };

    ghost invariant = { λ g. HasDrawn g.number g.lines g.words g.word };
}

impl Generator {
    /// A generator that gives the script of a number from its first line on.
    pub fn new(number: u64) -> Self
        ensures number { result.number ≡ number }
        ensures lines { result.lines ≡ 0 }
    {
        Generator {
            number,
            lines: 0,
            words: Lcg64Xsh32::seed_from_u64(number),
            word: 0,
        }
    }

    /// Puts the next line in place of a text. It takes no memory where the text has room for the longest line. Out of memory the
    /// text has a part of the line.
    #[tactic(auto, unfolding(crate::specs::Script::line_at))]
    pub fn next_line(&mut self, line: &mut Vec<u8>) -> Result<(), NoMemory>
        requires { self.old.lines < MOST_LINES }
        ensures line { OnOk result (line.new.items ≡ line_at self.old.number self.old.lines) }
        ensures number { self.new.number ≡ self.old.number }
        ensures lines { self.new.lines ≡ self.old.lines + 1 }
    {
        let cycle = self.lines / CYCLE;
        let place = self.lines % CYCLE;
        let word = self.go_on();
        put_line(line, cycle, word, place)
    }

    // Goes on by a line, and gives the word of its cycle, which is drawn at the first of its lines.
    fn go_on(&mut self) -> u32
        requires { self.old.lines < MOST_LINES }
        ensures word { result ≡ word_of self.old.number (self.old.lines / 9) }
        ensures number { self.new.number ≡ self.old.number }
        ensures lines { self.new.lines ≡ self.old.lines + 1 }
    {
        if self.lines % CYCLE == 0 {
            self.word = self.words.next_word();
        }
        self.lines += 1;
        self.word
    }
}
