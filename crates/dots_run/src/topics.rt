//! The words that ask for what is told without serving.

ghost use Rattle.std.specs.Prelude.{◌≡◌, map, string_bytes};
ghost use Rattle.dots_run.specs.Topics.{is_check, is_alone, is_check_script, is_help, is_version, load_of, topic_of};

use crate::topic::Topic;
use crate::words::is_word;
use dots_lists::number_in;

/// The topic that the words ask for: `check SETTINGS`, `check-script`, `help` and `version` have one, and
/// `--help` and `--version` have that of `help` and `version`. So has `load N`, where N is a number of 1 to 1,000 without leading zeros.
pub fn topic_of(words: &[String]) -> Option<Topic>
    ensures { result ≡ topic_of (map string_bytes words.now) }
{
    if is_check(words) {
        return Some(Topic::Settings);
    }
    if is_check_script(words) {
        return Some(Topic::Script);
    }
    if is_help(words) {
        return Some(Topic::Usage);
    }
    if is_version(words) {
        return Some(Topic::Version);
    }
    match load_number(words) {
        Some(number) => Some(Topic::Load(number)),
        None => None,
    }
}

/// The number of `load N`, of 1 to 1,000.
fn load_number(words: &[String]) -> Option<u64>
    ensures { result ≡ load_of (map string_bytes words.now) }
{
    match words {
        [name, number] => {
            if name.as_str() == "load" {
                return number_in(1, 1000, number.as_bytes());
            }
            None
        }
        _ => None,
    }
}

/// Whether they are `check SETTINGS`.
pub fn is_check(words: &[String]) -> bool
    ensures { result ≡ is_check (map string_bytes words.now) }
{
    match words {
        [name, file] => name.as_str() == "check" && is_word(file.as_bytes()),
        _ => false,
    }
}

/// Whether they are `check-script`.
pub fn is_check_script(words: &[String]) -> bool
    ensures { result ≡ is_check_script (map string_bytes words.now) }
{
    is_alone("check-script", words)
}

/// Whether they are `help` or `--help`.
fn is_help(words: &[String]) -> bool
    ensures { result ≡ is_help (map string_bytes words.now) }
{
    is_alone("help", words) || is_alone("--help", words)
}

/// Whether they are `version` or `--version`.
fn is_version(words: &[String]) -> bool
    ensures { result ≡ is_version (map string_bytes words.now) }
{
    is_alone("version", words) || is_alone("--version", words)
}

/// Whether they are this word alone.
fn is_alone(word: &str, words: &[String]) -> bool
    ensures { result ≡ is_alone word.now (map string_bytes words.now) }
{
    match words {
        [name] => name.as_str() == word,
        _ => false,
    }
}
