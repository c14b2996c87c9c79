//! Replies, and the lines that they are made of.

ghost use Rattle.std.specs.Prelude.{◌≡◌, ◌++◌, IfOk, OnOk};
ghost use Rattle.std.specs.Fmt.{decimal};
ghost use Rattle.reply_lines.specs.Lines.{counted, error_reply, last_reply, ok_line, ok_reply};

use rtl_bits::{Memory, Text};
use std::alloc::Global;

/// What a command is answered: the bytes, whether they are an error, and whether the session ends.
#[derive(Drop)]
pub struct Reply {
    pub text: Text,
    pub error: bool,
    pub last: bool,
}

/// Writes a number in decimal digits.
pub fn put_number(out: &mut Text, number: usize) -> Result<(), Memory>
    ensures ok { OnOk result (out.new ≡ out.old ++ decimal number) }
{
    let digits = number.to_string(out.allocator())?;
    out.extend(digits.as_bytes())
}

/// Writes a word and a number, each behind a blank.
pub fn put_counted(out: &mut Text, word: &[u8], number: usize) -> Result<(), Memory>
    ensures ok { OnOk result (out.new ≡ out.old ++ counted word.now number) }
{
    out.extend(b" ")?;
    out.extend(word)?;
    out.extend(b" ")?;
    put_number(out, number)
}

/// A word and a number, each behind a blank.
pub fn counted(alloc: Global, word: &[u8], number: usize) -> Result<Text, Memory>
    ensures value { IfOk result (λ words. words ≡ counted word.now number) }
{
    let mut words = Text::make(alloc);
    put_counted(&mut words, word, number)?;
    Ok(words)
}

/// The words of an error: its number and what is told of it.
pub fn error_words(alloc: Global, number: &[u8], told: &[u8]) -> Result<Text, Memory>
    ensures value { IfOk result (λ words. words ≡ number.now ++ told.now) }
{
    let mut words = Text::from_slice(alloc, number)?;
    words.extend(told)?;
    Ok(words)
}

/// The line of a reply that is no error, with these words.
pub fn ok_line(alloc: Global, words: &[u8]) -> Result<Text, Memory>
    ensures value { IfOk result (λ line. line ≡ ok_line words.now) }
{
    let mut line = Text::from_slice(alloc, b"ok")?;
    line.extend(words)?;
    line.extend(b"\n")?;
    Ok(line)
}

/// The reply of this text, which is no error.
pub fn ok_reply(text: Text) -> Reply
    ensures value { result ≡ ok_reply text }
{
    Reply {
        text,
        error: false,
        last: false,
    }
}

/// The reply of a line with these words and of a text after it. A long text is not copied.
pub fn text_reply(alloc: Global, words: &[u8], text: Text) -> Result<Reply, Memory>
    ensures value { IfOk result (λ reply. reply ≡ ok_reply (ok_line words.now ++ text)) }
{
    let line = ok_line(alloc, words)?;
    let mut whole = text.into_vec()?;
    whole.extend_from_slice(line.as_slice())?;
    whole.rotate_right(line.as_slice().len());
    Ok(ok_reply(Text::from_vec(whole)?))
}

/// The reply of a line with a word and a number.
pub fn counted_reply(alloc: Global, word: &[u8], number: usize) -> Result<Reply, Memory>
    ensures value { IfOk result (λ reply. reply ≡ ok_reply (ok_line (counted word.now number))) }
{
    let words = counted(alloc, word, number)?;
    Ok(ok_reply(ok_line(alloc, words.as_slice())?))
}

/// The reply to the last command.
pub fn last_reply(alloc: Global) -> Result<Reply, Memory>
    ensures value { IfOk result (λ reply. reply ≡ last_reply) }
{
    let text = ok_line(alloc, b"")?;
    Ok(Reply {
        text,
        error: false,
        last: true,
    })
}

/// The reply of an error with these words.
pub fn error_reply(alloc: Global, words: &[u8]) -> Result<Reply, Memory>
    ensures value { IfOk result (λ reply. reply ≡ error_reply words.now) }
{
    let mut text = Text::from_slice(alloc, b"error ")?;
    text.extend(words)?;
    text.extend(b"\n")?;
    Ok(Reply {
        text,
        error: true,
        last: false,
    })
}

/// The reply of an error of which this is told behind its number.
pub fn told_reply(alloc: Global, number: &[u8], told: &[u8]) -> Result<Reply, Memory>
    ensures value { IfOk result (λ reply. reply ≡ error_reply (number.now ++ told.now)) }
{
    let words = error_words(alloc, number, told)?;
    error_reply(alloc, words.as_slice())
}

/// The reply of an error of which a number is told behind its own.
pub fn number_reply(alloc: Global, number: &[u8], told: usize) -> Result<Reply, Memory>
    ensures value { IfOk result (λ reply. reply ≡ error_reply (number.now ++ decimal told)) }
{
    let digits = told.to_string(alloc)?;
    told_reply(alloc, number, digits.as_bytes())
}
