//! The words of the command line, without the program's name.

ghost use Rattle.std.specs.Prelude.{◌≡◌, map, string_bytes, true, false, MatchOption};
ghost use Rattle.dots_machine.specs.Commands.{is_replay, is_serve, is_served, is_show, is_word, second_of, third_of};
ghost use Rattle.dots_run.specs.Topics.{names_settings};

use crate::topics::is_check;

/// Whether they are `replay SETTINGS`.
fn is_replay(words: &[String]) -> bool
    ensures { result ≡ is_replay (map string_bytes words.now) }
{
    match words {
        [name, file] => name.as_str() == "replay" && is_word(file.as_bytes()),
        _ => false,
    }
}

/// Whether they are `serve SETTINGS HOSTFILE`.
pub fn is_serve(words: &[String]) -> bool
    ensures { result ≡ is_serve (map string_bytes words.now) }
{
    match words {
        [name, settings, host] => {
            name.as_str() == "serve" && (is_word(settings.as_bytes()) && is_word(host.as_bytes()))
        }
        _ => false,
    }
}

/// The names of the settings file and of the host file, where they are `serve SETTINGS HOSTFILE`.
pub fn names_of(words: &[String]) -> (&str, &str)
    requires { is_serve (map string_bytes words.now) ≡ true }
    ensures settings { result.0.now ≡ second_of (map string_bytes words.now) }
    ensures host { result.1.now ≡ third_of (map string_bytes words.now) }
{
    match words {
        [_, settings, host] => (settings.as_str(), host.as_str()),
        _ => unreachable!(),
    }
}

/// Whether the events of a host are served: the lines of a script, or what comes to sockets.
pub fn is_served(words: &[String]) -> bool
    ensures { result ≡ is_served (map string_bytes words.now) }
{
    is_replay(words) || is_serve(words)
}

/// The name of the settings file, where the words name one: it is the second of them.
pub fn settings_name(words: &[String]) -> Option<&str>
    ensures { MatchOption result (names_settings (map string_bytes words.now) ≡ false)
        (λ name. (names_settings (map string_bytes words.now) ≡ true) × (name.now ≡ second_of (map string_bytes words.now))) }
{
    if !names_settings(words) {
        return None;
    }
    match words {
        [_, name, ..] => Some(name.as_str()),
        _ => None,
    }
}

/// Whether they are `replay SETTINGS`, `serve SETTINGS HOSTFILE` or `check SETTINGS`.
fn names_settings(words: &[String]) -> bool
    ensures { result ≡ names_settings (map string_bytes words.now) }
{
    is_served(words) || is_check(words)
}

/// Whether they are `show HEX`.
fn is_show(words: &[String]) -> bool
    ensures { result ≡ is_show (map string_bytes words.now) }
{
    match words {
        [name, hex] => name.as_str() == "show" && is_word(hex.as_bytes()),
        _ => false,
    }
}

/// The second word, where they are `show HEX`.
pub fn word_to_show(words: &[String]) -> Option<&[u8]>
    ensures { MatchOption result (is_show (map string_bytes words.now) ≡ false)
        (λ word. (is_show (map string_bytes words.now) ≡ true) × (word.now ≡ second_of (map string_bytes words.now))) }
{
    if !is_show(words) {
        return None;
    }
    match words {
        [_, word] => Some(word.as_bytes()),
        _ => None,
    }
}

/// Whether a word isn't empty and doesn't begin with `-`.
pub fn is_word(word: &[u8]) -> bool
    ensures { result ≡ is_word word.now }
{
    match word {
        [] => false,
        [first, ..] => *first != b'-',
    }
}
