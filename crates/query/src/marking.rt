// The pieces that a walk has met, as a set of their numbers.
ghost use Rattle.std.specs.Prelude.{◌≡◌, ◌≤◌, ◌<◌, ℕ, List, length};
ghost use Rattle.std.proofs.lemmas.List.Edits.{sets};
ghost use Rattle.pages.specs.Sizes.{PIECES};
ghost use Rattle.query.specs.Marks.{MARK_WORDS, Summed, no_marks, with_mark, numbers_in, marked_numbers};

use relations::SetBits;
use std::marker::Model;

const MARK_BITS: u32 = 64;

const MARK_WORDS: usize = 16;

/// Bit c % 64 of word c / 64 marks number c; bit w of `named` says that word w has a mark.
#[derive(Drop)]
pub struct Marks {
    words: [u64; MARK_WORDS],
    named: u64,
}

impl Model for Marks {
    ghost Value = { List ℕ };

    ghost view = { λ m. m.words };

    ghost invariant = { λ m. Summed m.words m.named };
}

impl Marks {
    pub fn new() -> Marks
        ensures { result ≡ no_marks }
    {
        Marks {
            words: [0; MARK_WORDS],
            named: 0,
        }
    }

    pub fn mark(&mut self, r: u32)
        requires { r < PIECES }
        ensures { self.new ≡ with_mark self.old r }
    {
        let at = (r / MARK_BITS) as usize;
        self.words[at] |= 1 << (r % MARK_BITS);
        self.named |= 1 << at;
    }

    // Writes the numbers that word w marks, and gives how many they are.
    fn list_word(&self, w: usize, answer: &mut [u16]) -> usize
        requires word { w < MARK_WORDS }
        requires room { length (numbers_in self.now w) ≤ length answer.old }
        ensures count { result ≡ length (numbers_in self.now w) }
        ensures words { answer.new ≡ sets answer.old 0 (numbers_in self.now w) }
    {
        let base = MARK_BITS as usize * w;
        let mut count = 0;
        for place in SetBits::new(self.words[w]) {
            answer[count] = (base + place as usize) as u16;
            count += 1;
        }
        count
    }

    /// Writes the marked numbers, rising, and gives how many they are.
    pub fn list(&self, answer: &mut [u16]) -> usize
        requires { length (marked_numbers self.now) ≤ length answer.old }
        ensures count { result ≡ length (marked_numbers self.now) }
        ensures words { answer.new ≡ sets answer.old 0 (marked_numbers self.now) }
    {
        let mut next = 0;
        for w in SetBits::new(self.named) {
            next += self.list_word(w as usize, &mut answer[next..]);
        }
        next
    }
}
