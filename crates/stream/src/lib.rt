// Standard input as it comes, in any pieces: bytes become lines, and each line gets its answer in a lent buffer.
#![tactic(auto)]

ghost use Rattle.std.specs.Prelude.{◌≡◌, List, [], ◌∷◌, ◌++◌, ℕ};
ghost use Rattle.coverage.specs.Table.{rows_in};
ghost use Rattle.conversation.specs.Conversation.{initial};
ghost use Rattle.stream.specs.Bytes.{taken_of, Reads, Scans, Holds, Feeds, Finishes};

use conversation::Conversation;
use coverage::Table;
use fixed_list::FixedList;
use lines::Line;

// The line that is being read: its words so far, if they can still be a form, and the one that is being read, whether that is the first, and whether the line
// has a byte. A word of a form has at most 20 bytes, or 22 with both parentheses: of a longer one 32 are kept, so that it stays too long.
#[derive(Clone, Copy)]
pub struct Reader {
    line: Option<Line>,
    word: FixedList<u8, 32>,
    first: bool,
    begun: bool,
}

impl Reader {
    fn new() -> Reader
        ensures { Reads result [] }
    {
        Reader {
            line: Some(Line::new()),
            word: FixedList::new(),
            first: true,
            begun: false,
        }
    }

    // The line with the word that is read: with a blank behind it, or as the last.
    fn take(&mut self, last: bool)
        ensures { self.new ≡ taken_of self.old last }
    {
        lines::take_word(&mut self.line, self.word.as_slice(), self.first, last);
    }

    // A byte of the line more.
    fn push(&mut self, c: u8)
        ensures { (s : List ℕ) → Reads self.old s → Reads self.new (s ++ (c ∷ [])) }
    {
        self.begun = true;
        if c == b' ' {
            self.take(false);
            self.word = FixedList::new();
            self.first = false;
        } else {
            let _ = self.word.try_push(c);
        }
    }

    // From `at` on up to the first line feed: the place behind it.
    fn scan(&mut self, bytes: &[u8], at: usize) -> Option<usize>
        ensures { Scans self.old bytes.now at self.new result }
    {
        for i in at..bytes.len() {
            let c = bytes[i];
            if c == b'\n' {
                return Some(i + 1);
            }
            self.push(c);
        }
        None
    }
}

#[derive(Clone, Copy)]
pub struct State {
    reader: Reader,
    conversation: Conversation,
}

// Where to go on, and how many bytes are written.
#[derive(Clone, Copy)]
pub struct Fed {
    pub at: usize,
    pub len: usize,
}

impl State {
    pub fn new(table: Table) -> State
        ensures { Holds result (initial (rows_in table)) [] }
    {
        State {
            reader: Reader::new(),
            conversation: Conversation::new(table),
        }
    }

    // Bytes from `at` on, up to the end of a line at most.
    pub fn feed(&mut self, bytes: &[u8], at: usize, out: &mut [u8; 131072]) -> Fed
        ensures { Feeds self.old bytes.now at out.old out.new self.new result }
    {
        let Some(next) = self.reader.scan(bytes, at) else {
            return Fed {
                at: bytes.len(),
                len: 0,
            };
        };
        self.reader.take(true);
        let line = self.reader.line;
        self.reader = Reader::new();
        let len = self.conversation.answer(line, out);
        Fed { at: next, len }
    }

    // The input ends: a line without its line feed is malformed.
    pub fn finish(&self, out: &mut [u8; 131072]) -> usize
        ensures { Finishes self.now out.old out.new result }
    {
        if self.reader.begun {
            self.conversation.unended(out)
        } else {
            0
        }
    }
}
