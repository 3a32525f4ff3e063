// Texts with places for numbers, and texts by their number in a list.
use super::output::Output;

impl Output {
    // Puts words, with the next of the numbers in place of each #.
    pub fn filled(&mut self, words: &[u8], numbers: &[u64]) {
        let mut rest = numbers.iter();
        for (k, part) in words.split(|x| *x == b'#').enumerate() {
            if k > 0 {
                if let Some(n) = rest.next() {
                    self.number(*n);
                }
            }
            self.put(part);
        }
    }

    // Puts the k-th of the texts, from 0, that `between` stands between, filled; nothing where there are no more.
    pub fn nth_filled(&mut self, texts: &[u8], between: u8, k: u64, numbers: &[u64]) {
        if let Some(text) = texts.split(|x| *x == between).nth(k as usize) {
            self.filled(text, numbers);
        }
    }
}
