// What reading code lines back answers. Done is one answer among the others, with number 0.
ghost use Rattle.std.specs.Prelude.{◌≡◌, ◌≤◌};
ghost use Rattle.code_reading.specs.ReadBackNumbers.{read_back_number, read_back_place};

#[derive(Clone, Copy)]
pub enum ReadBack {
    Done(u32),
    BadLine(u64),
    Limit,
    BadWord(u32),
    CodeTooShort(u32),
}

impl ReadBack {
    pub fn number(self) -> u32
        ensures { (result ≡ read_back_number self) × (result ≤ 15) }
    {
        match self {
            ReadBack::Done(_) => 0,
            ReadBack::BadLine(_) => 15,
            ReadBack::Limit => 1,
            ReadBack::BadWord(_) => 9,
            ReadBack::CodeTooShort(_) => 8,
        }
    }

    pub fn place(self) -> u64
        ensures { result ≡ read_back_place self }
    {
        match self {
            ReadBack::Done(words) => words as u64,
            ReadBack::BadLine(line) => line,
            ReadBack::Limit => 0,
            ReadBack::BadWord(word) => word as u64,
            ReadBack::CodeTooShort(words) => words as u64,
        }
    }
}
