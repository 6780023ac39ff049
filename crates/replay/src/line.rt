// A line that is printed: words with single spaces between them. A character that it has no room for is left out.
use crate::store::Store;
use std::fmt;
use std::fmt::Write;

#[derive(Drop)]
pub(crate) struct Line<'a> {
    text: Store<'a, u8>,
    // Whether a word stands before the next one.
    begun: bool,
}

// It never fails.
impl<'a> fmt::Write for Line<'a> {
    fn write_str(&mut self, s: &str) -> fmt::Result {
        self.characters(s);
        Ok(())
    }
}

impl<'a> Line<'a> {
    pub(crate) fn new(text: &'a mut [u8]) -> Line<'a> {
        Line {
            text: Store::new(text),
            begun: false,
        }
    }

    // What is printed so far.
    pub(crate) fn shown(self) -> &'a [u8] {
        self.text.stored()
    }

    // Stores a character.
    pub(crate) fn octet(&mut self, character: u8) {
        self.text.put(character, 1);
    }

    // Stores characters.
    fn characters(&mut self, characters: &str) {
        for &character in characters.as_bytes() {
            self.octet(character);
        }
    }

    // Begins a word.
    fn space(&mut self) {
        if self.begun {
            self.octet(b' ');
        }
        self.begun = true;
    }

    // Stores a word.
    pub(crate) fn word(&mut self, word: &str) {
        self.space();
        self.characters(word);
    }

    // Stores a number as a word.
    pub(crate) fn number(&mut self, n: u64) {
        self.space();
        let _ = write!(self, "{n}");
    }

    // Stores numbers as words.
    pub(crate) fn numbers(&mut self, list: &[u64]) {
        for &n in list {
            self.number(n);
        }
    }

    // Stores `ok` and numbers.
    pub(crate) fn ok(&mut self, list: &[u64]) {
        self.word("ok");
        self.numbers(list);
    }

    // Stores what stands between two answers; the next word begins an answer.
    pub(crate) fn next_answer(&mut self) {
        self.characters(" ; ");
        self.begun = false;
    }

    // Stores a run of equal octets: each, or one and how many there are.
    fn run(&mut self, run: &[u8]) {
        match run {
            [octet, ..] if is_long(run) => {
                let _ = write!(self, "{octet:02x}*{}", run.len());
            }
            _ => {
                for octet in run {
                    let _ = write!(self, "{octet:02x}");
                }
            }
        }
    }

    // Stores octets as a word: the runs of equal ones, with a `+` beside each long one.
    pub(crate) fn octets(&mut self, octets: &[u8]) {
        self.word("x");
        let mut before: Option<&[u8]> = None;
        for run in octets.chunk_by(|a, b| a == b) {
            if before.is_some_and(|before| is_long(before) || is_long(run)) {
                self.octet(b'+');
            }
            self.run(run);
            before = Some(run);
        }
    }

    // Stores numbers of items, as a word that begins with a letter.
    pub(crate) fn column<T, F: Fn(&T) -> u64>(&mut self, letter: &str, items: &[T], number: F)
        requires { F.IsAlwaysCallable number }
    {
        self.word(letter);
        let mut separator = "";
        for item in items {
            let n = number(item);
            let _ = write!(self, "{separator}{n}");
            separator = ",";
        }
    }
}

fn is_long(run: &[u8]) -> bool {
    8 <= run.len()
}
