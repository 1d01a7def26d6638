// The words of a lyric line, from left to right: white space, bars, notes skipped and held, syllables between hyphens.
#![tactic(auto)]

ghost use Rattle.std.specs.Prelude.{◌≤◌, ◌<◌, ◌≡◌, false, length, get_or};
ghost use Rattle.standard.specs.Lyrics.{syllabic_of};
ghost use Rattle.reader.specs.Codes.{syllabic_code};
ghost use Rattle.lyric_spans.specs.Spans.{is_hyphen, Closed};
ghost use Rattle.lyric_words.specs.Words.{InWord, SyllableRead, PlainRead, WordRead, is_sign, closed_at, one_syllable, as_syllabic, cursor_between, Ready, Settled, TokenRead, First};

// Where a syllable stands in its word.
#[derive(Clone, Copy, Debug, PartialEq, Eq)]
pub enum Syllabic {
    Single,
    Begins,
    Ends,
    Middle,
}

impl Syllabic {
    // By the hyphens before and behind the syllable.
    #[tactic(auto, unfolding(standard::specs::Lyrics::syllabic_of))]
    fn by_hyphens(before: bool, behind: bool) -> Syllabic
        ensures { as_syllabic result ≡ syllabic_of before behind }
    {
        match (before, behind) {
            (false, false) => Syllabic::Single,
            (false, true) => Syllabic::Begins,
            (true, false) => Syllabic::Ends,
            (true, true) => Syllabic::Middle,
        }
    }
}

// Its number.
impl From<Syllabic> for u8 {
    ghost from_gives = { λ syllabic number. number ≡ syllabic_code (as_syllabic syllabic) };

    #[tactic(auto, unfolding(reader::specs::Codes::syllabic_code))]
    fn from(syllabic: Syllabic) -> u8 {
        match syllabic {
            Syllabic::Single => 0,
            Syllabic::Begins => 1,
            Syllabic::Ends => 2,
            Syllabic::Middle => 3,
        }
    }
}

// A syllable of a lyric line: the place of its text, and where it stands in its word.
#[derive(Clone, Copy, Debug, PartialEq, Eq)]
pub struct Syllable {
    pub at: usize,
    pub end: usize,
    pub syllabic: Syllabic,
}

// One word, or one syllable of a word.
#[derive(Clone, Copy, Debug, PartialEq, Eq)]
pub enum Token {
    Bar,
    Skip,
    Hold,
    Syllable(Syllable),
}

// Where a reading of a line stands: at a syllable of the word that ends at `word`, or, where both are the same, between two words. A hyphen
// stands before the syllable; one stands at the end of the word.
#[derive(Clone, Copy, Debug, PartialEq, Eq)]
pub struct Cursor {
    pub at: usize,
    pub word: usize,
    pub led: bool,
    pub trailed: bool,
}

impl Cursor {
    // Between two words.
    fn between(at: usize) -> Cursor
        ensures { result ≡ cursor_between at }
    {
        Cursor {
            at,
            word: at,
            led: false,
            trailed: false,
        }
    }
}

// A token, and the cursor behind it.
#[derive(Clone, Copy, Debug, PartialEq, Eq)]
pub struct Read {
    pub token: Token,
    pub cursor: Cursor,
}

// The syllable at the cursor, which stands at one.
fn read_syllable(text: &[u8], from: Cursor) -> Read
    requires { (from.at < from.word) × (from.word ≤ length text.now) × (is_hyphen (get_or text.now from.at 0) ≡ false) }
    ensures { SyllableRead text.now from result }
{
    let end = lyric_spans::piece_end(text, from.at, from.word);
    let next = lyric_spans::hyphens_end(text, end, from.word);
    let behind = next < from.word || from.trailed;
    Read {
        token: Token::Syllable(Syllable {
            at: from.at,
            end,
            syllabic: Syllabic::by_hyphens(from.led, behind),
        }),
        cursor: Cursor {
            at: next,
            led: true,
            ..from
        },
    }
}

// The first token of a word that is no `|`, `*` or `_`: one of hyphens alone skips a note.
fn plain_word(text: &[u8], at: usize, word: usize) -> Read
    requires { (at < word) × (word ≤ length text.now) }
    ensures { PlainRead text.now at word result }
{
    let next = lyric_spans::hyphens_end(text, at, word);
    if next == word {
        return Read {
            token: Token::Skip,
            cursor: Cursor::between(word),
        };
    }
    let from = Cursor {
        at: next,
        word,
        led: text[at] == b'-',
        trailed: text[word - 1] == b'-',
    };
    read_syllable(text, from)
}

// The first token of the word from `at` to `word`.
fn word_token(text: &[u8], at: usize, word: usize) -> Read
    requires { (at < word) × (word ≤ length text.now) }
    ensures { WordRead text.now at word result }
{
    if word - at != 1 {
        return plain_word(text, at, word);
    }
    let token = match text[at] {
        b'|' => Token::Bar,
        b'*' => Token::Skip,
        b'_' => Token::Hold,
        _ => return plain_word(text, at, word),
    };
    Read {
        token,
        cursor: Cursor::between(word),
    }
}

// A PLAIN WORD: one syllable, without a hyphen

// A byte that is a word of its own.
fn is_sign(b: u8) -> bool
    ensures { result ≡ is_sign b }
{
    b == b'|' || b == b'*' || b == b'_'
}

// A word ends at `at`: a space stands there, or the line is over.
fn is_closed(text: &[u8], at: usize, end: usize) -> bool
    requires { end ≤ length text.now }
    ensures { result ≡ closed_at text.now at end }
{
    end <= at || text_bytes::is_space(text[at])
}

// The plain bytes from `at` up to `plain` are a word, and one that is a syllable.
fn is_one_syllable(text: &[u8], at: usize, plain: usize, end: usize) -> bool
    requires { (at < end) × (at ≤ plain) × (end ≤ length text.now) }
    ensures { result ≡ one_syllable text.now at plain end }
{
    plain != at && is_closed(text, plain, end) && !(plain - at == 1 && is_sign(text[at]))
}

// The cursor past white space, where it stands behind a word.
fn settle(text: &[u8], from: Cursor, end: usize) -> Cursor
    requires { (InWord text.now from) × (Closed text.now from.word end) × (end ≤ length text.now) }
    ensures { Settled text.now end from result }
{
    if from.at < from.word {
        return from;
    }
    Cursor::between(lyric_spans::word_start(text, from.word, end))
}

// The cursor at the beginning of a line's text.
pub fn first_cursor(text: &[u8], at: usize, end: usize) -> Cursor
    requires { (at ≤ end) × (end ≤ length text.now) }
    ensures { First text.now at end result }
{
    Cursor::between(lyric_spans::next_start(text, at, end))
}

// The token at the cursor, one of those that 000's `abc_lyric_tokens` lists, and the cursor behind it.
pub fn abc_lyric_token(text: &[u8], from: Cursor, end: usize) -> Read
    requires { (Ready text.now end from) × (from.at < end) × (end ≤ length text.now) }
    ensures { TokenRead text.now end from result }
{
    if from.at < from.word {
        let read = read_syllable(text, from);
        return Read {
            cursor: settle(text, read.cursor, end),
            ..read
        };
    }
    let plain = lyric_spans::plain_end(text, from.at, end);
    if is_one_syllable(text, from.at, plain, end) {
        return Read {
            token: Token::Syllable(Syllable {
                at: from.at,
                end: plain,
                syllabic: Syllabic::Single,
            }),
            cursor: Cursor::between(lyric_spans::next_start(text, plain, end)),
        };
    }
    let word = lyric_spans::word_end(text, from.at, end);
    let read = word_token(text, from.at, word);
    Read {
        cursor: settle(text, read.cursor, end),
        ..read
    }
}
