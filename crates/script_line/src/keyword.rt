//! What the first word of a line says that it is.

ghost use Rattle.std.specs.Prelude.{◌≡◌};
ghost use Rattle.script_line.specs.Lines as spec;

use crate::line::Keyword;
use crate::words::next_word;

fn is_operation(word: &[u8]) -> bool
    ensures { result ≡ spec.is_operation word.now }
{
    word == b"get".as_slice()
        || word == b"getu".as_slice()
        || word == b"put".as_slice()
        || word == b"del".as_slice()
        || word == b"scan".as_slice()
        || word == b"raise".as_slice()
        || word == b"await".as_slice()
        || word == b"losecache".as_slice()
        || word == b"abort".as_slice()
}

pub fn keyword_of(word: &[u8]) -> Option<Keyword>
    ensures { result ≡ spec.keyword_of word.now }
{
    if word == b"groupfail".as_slice() {
        Some(Keyword::GroupFail)
    } else if word == b"phase".as_slice() {
        Some(Keyword::Phase)
    } else if word == b"member".as_slice() {
        Some(Keyword::Member)
    } else if word == b"restart".as_slice() {
        Some(Keyword::Restart)
    } else if word == b"fail".as_slice() {
        Some(Keyword::Fail)
    } else if word == b"tran".as_slice() {
        Some(Keyword::Tran)
    } else if word == b"end".as_slice() {
        Some(Keyword::End)
    } else if is_operation(word) {
        Some(Keyword::Operation)
    } else {
        None
    }
}

/// What the first word of a line says that the line is, or `None` where it is none of the words that begin one.
///
/// The line comes without its line feed and the carriage return before it.
pub fn keyword_in(line: &[u8]) -> Option<Keyword>
    ensures { result ≡ spec.keyword_in line.now }
{
    let (word, _) = next_word(line)?;
    keyword_of(word)
}
