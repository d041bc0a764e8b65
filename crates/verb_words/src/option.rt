// FILES.md: "Options come in the order shown. Numbers are decimal. A number above its width .. is no verb's words."
ghost use Rattle.std.specs.Prelude.{◌≡◌, ◌≤◌};
ghost use Rattle.verb_words.specs.Option.{chosen};

use words::number::read;

// What is wrong with an option: the word after its name is no number for it.
#[derive(Clone, Copy, Debug, PartialEq, Eq)]
pub enum OptionError {
    NoNumber,
}

// The number of this option, at most the limit, where `word` may be its name: nothing where it isn't. Bytes, and no text:
// docs/CONTRACTS.md names the function, so it asks no more.
#[tactic(auto, using(words::proofs::LineLaws::told_equal))]
pub fn option_of(
    name: &[u8],
    limit: u64,
    word: &[u8],
    number: &[u8],
) -> Result<Option<u64>, OptionError>
    requires { 9 ≤ limit }
    ensures { result ≡ chosen name.now limit word.now number.now }
{
    if word != name {
        return Ok(None);
    }
    read(number, limit).map(Some).ok_or(OptionError::NoNumber)
}

// The option of this name, if the words begin with it, and the words after it.
pub(crate) fn take_option<'a>(
    words: &'a [String],
    name: &str,
    limit: u64,
) -> Result<(Option<u64>, &'a [String]), OptionError>
    requires { 9 ≤ limit }
{
    let [word, number, rest @ ..] = words else {
        return Ok((None, words));
    };
    let option = option_of(name.as_bytes(), limit, word.as_bytes(), number.as_bytes())?;
    Ok((option, if option.is_some() { rest } else { words }))
}
