ghost use Rattle.std.specs.Prelude.{◌≡◌, ℕ, ◌<◌, ◌==◌, ◌||◌, false};
ghost use Rattle.script_text.specs.Indexes.{is_marked};

/// Which numbers below 256 are marked.
#[derive(Clone, Copy, Debug)]
pub struct Marks {
    marks: [bool; 256],
}

impl Marks {
    pub fn new() -> Marks
        ensures { (n : ℕ) → is_marked result n ≡ false }
    {
        Marks {
            marks: [false; 256],
        }
    }

    pub fn has(&self, number: u64) -> bool
        requires { number < 256 }
        ensures { result ≡ is_marked self.now number }
    {
        self.marks[number as usize]
    }

    pub fn mark(&mut self, number: u64)
        requires { number < 256 }
        ensures { (n : ℕ) → is_marked self.new n ≡ (is_marked self.old n || (number == n)) }
    {
        self.marks[number as usize] = true;
    }

    /// Marks what is marked in the other one too.
    pub fn mark_all(&mut self, other: &Marks)
        ensures { (n : ℕ) → is_marked self.new n ≡ (is_marked self.old n || is_marked other.now n) }
    {
        for number in 0..256usize {
            if other.marks[number] {
                self.marks[number] = true;
            }
        }
    }
}
