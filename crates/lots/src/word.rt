// Words of 32 bits, as order files and lot files hold them: a kind of two bits and a number of thirty.
ghost use Rattle.std.specs.Prelude.{◌≡◌, ◌+◌, ◌*◌, ◌/◌, ◌%◌, ◌<◌, is_some, IfSome, nat_lt};
ghost use Rattle.lots.specs.Words.{kind_bits, kind_of, word_kind, number_of_word, word_bytes, WordsReadBack};

// How many numbers a word can hold.
const SPAN: u32 = 1 << 30;

// What a kind means is for the file to say.
#[derive(Clone, Copy, PartialEq, Eq, Debug)]
pub enum WordKind {
    Zero = 0,
    One = 1,
    Two = 2,
    Three = 3,
}

#[derive(Clone, Copy, PartialEq, Eq, Debug)]
pub struct Word {
    pub kind: WordKind,
    pub number: u32,
    ghost small: { number < 1073741824 },
}

impl Word {
    // The word of this kind and number, if the number fits.
    pub fn new(kind: WordKind, number: u32) -> Option<Word>
        ensures fits { is_some result ≡ nat_lt number 1073741824 }
        ensures kept { IfSome result (λ w. (w.kind ≡ kind) × (w.number ≡ number)) }
    {
        // Not `then_some`, since making a word needs the fact that was tested.
        if number < SPAN {
            return Some(Word { kind, number });
        }
        None
    }

    #[tactic(auto, unfolding(crate::specs::Words::word_kind, crate::specs::Words::number_of_word))]
    pub fn from_bytes(bytes: [u8; 4]) -> Word
        ensures kind { result.kind ≡ word_kind bytes }
        ensures number { result.number ≡ number_of_word bytes }
    {
        Word::from(u32::from_be_bytes(bytes))
    }

    #[tactic(auto, unfolding(crate::specs::Words::word_bytes))]
    pub fn to_bytes(self) -> [u8; 4]
        ensures { result ≡ word_bytes self.kind self.number }
    {
        u32::from(self).to_be_bytes()
    }
}

// Any 32 bits are a word: the top two are its kind.
impl From<u32> for Word {
    ghost from_gives = { λ bits w. (w.kind ≡ kind_of (bits / 1073741824)) × (w.number ≡ bits % 1073741824) };

    fn from(bits: u32) -> Word {
        let kind = match bits / SPAN {
            0 => WordKind::Zero,
            1 => WordKind::One,
            2 => WordKind::Two,
            _ => WordKind::Three,
        };
        Word {
            kind,
            number: bits % SPAN,
        }
    }
}

impl From<Word> for u32 {
    ghost from_gives = { λ w bits. bits ≡ kind_bits w.kind * 1073741824 + w.number };

    fn from(word: Word) -> u32 {
        word.kind as u32 * SPAN + word.number
    }
}

// What `to_bytes` writes, `from_bytes` reads back, and the other way round.
pub fn written_words_read_back()
    ensures { WordsReadBack }
{}
