// The log of a stretch of lines: its questions, each as a word.
ghost use Rattle.std.specs.Prelude.{◌≡◌, Bool, leb, ◌-◌, ◌<◌};
ghost use Rattle.values.specs.Inner.Logged.{with_word};

// How many questions were asked, and how many there may be in all.
#[derive(Clone, Copy)]
pub struct Log {
    pub words: [u64; 512],
    pub asked: usize,
    pub places: usize,
}

impl Log {
    // How many questions more there may be.
    pub fn left(&self) -> usize
        ensures { result ≡ self.now.places - self.now.asked }
    {
        self.places.saturating_sub(self.asked)
    }

    // One question more.
    pub fn note(&mut self, word: u64)
        requires { self.old.asked < 512 }
        ensures { self.new ≡ with_word self.old word }
    {
        self.words[self.asked] = word;
        self.asked += 1;
    }

    // The word before the next; before the first, the log's last: a hint may be any number.
    pub fn last(&self) -> u64
        requires { self.now.asked < 512 }
    {
        self.words[(self.asked + 511) % 512]
    }
}
