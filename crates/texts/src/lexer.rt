ghost use Rattle.std.specs.Prelude.{◌≡◌, position};
ghost use Rattle.texts.specs.Lexemes.{lexeme_of, is_mark};

// The marks of a text.
#[derive(Clone, Copy, Debug, PartialEq, Eq)]
pub enum Mark {
    Space,
    Newline,
    Arrow,
    Colon,
    Dash,
}

// One byte of a text.
#[derive(Clone, Copy, Debug, PartialEq, Eq)]
pub enum Lexeme {
    Sign(Mark),
    Digit(u8),
    Other,
}

// What a byte is.
pub fn lex(b: u8) -> Lexeme
    ensures { result ≡ lexeme_of b }
{
    match b as char {
        ' ' => Lexeme::Sign(Mark::Space),
        '\n' => Lexeme::Sign(Mark::Newline),
        '>' => Lexeme::Sign(Mark::Arrow),
        ':' => Lexeme::Sign(Mark::Colon),
        '-' => Lexeme::Sign(Mark::Dash),
        '0'..='9' => Lexeme::Digit(b - b'0'),
        _ => Lexeme::Other,
    }
}

// Where the first mark stands.
pub fn first_mark(bytes: &[u8]) -> Option<usize>
    ensures { result ≡ position is_mark bytes.now }
{
    bytes
        .iter()
        .position(|b| matches!(lex(*b), Lexeme::Sign(_)))
}
