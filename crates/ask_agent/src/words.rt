//! The words of the command line that ask for a client, without the program's name.

ghost use Rattle.std.specs.Prelude.{◌≡◌, map, string_bytes, true};
ghost use Rattle.ask_agent.specs.Commands.{is_ask, is_protect, is_check_ask, is_word, second_of, third_of, fourth_of, fifth_of, sixth_of};

/// Whether they are `ask SETTINGS HOSTFILE`.
pub fn is_ask(words: &[String]) -> bool
    ensures { result ≡ is_ask (map string_bytes words.now) }
{
    match words {
        [name, settings, host] => {
            name.as_str() == "ask" && (is_word(settings.as_bytes()) && is_word(host.as_bytes()))
        }
        _ => false,
    }
}

/// The names of the settings file and of the host file, where they are `ask SETTINGS HOSTFILE`.
pub fn ask_names(words: &[String]) -> (&str, &str)
    requires { is_ask (map string_bytes words.now) ≡ true }
    ensures settings { result.0.now ≡ second_of (map string_bytes words.now) }
    ensures host { result.1.now ≡ third_of (map string_bytes words.now) }
{
    match words {
        [_, settings, host] => (settings.as_str(), host.as_str()),
        _ => unreachable!(),
    }
}

/// Whether they are `protect HOSTFILE SERVER NAME LIFETIME PREFIXES`. What the last four say is read later.
pub fn is_protect(words: &[String]) -> bool
    ensures { result ≡ is_protect (map string_bytes words.now) }
{
    match words {
        [name, host, _, _, _, _] => name.as_str() == "protect" && is_word(host.as_bytes()),
        _ => false,
    }
}

/// The name of the host file, where they are `protect HOSTFILE SERVER NAME LIFETIME PREFIXES`.
pub fn protect_host(words: &[String]) -> &str
    requires { is_protect (map string_bytes words.now) ≡ true }
    ensures { result.now ≡ second_of (map string_bytes words.now) }
{
    match words {
        [_, host, _, _, _, _] => host.as_str(),
        _ => unreachable!(),
    }
}

/// The last four words, where they are `protect HOSTFILE SERVER NAME LIFETIME PREFIXES`.
pub fn protect_words(words: &[String]) -> (&[u8], &[u8], &[u8], &[u8])
    requires { is_protect (map string_bytes words.now) ≡ true }
    ensures server { result.0.now ≡ third_of (map string_bytes words.now) }
    ensures name { result.1.now ≡ fourth_of (map string_bytes words.now) }
    ensures lifetime { result.2.now ≡ fifth_of (map string_bytes words.now) }
    ensures prefixes { result.3.now ≡ sixth_of (map string_bytes words.now) }
{
    match words {
        [_, _, server, name, lifetime, prefixes] => (
            server.as_bytes(),
            name.as_bytes(),
            lifetime.as_bytes(),
            prefixes.as_bytes(),
        ),
        _ => unreachable!(),
    }
}

/// Whether they are `check-ask SETTINGS`.
pub fn is_check_ask(words: &[String]) -> bool
    ensures { result ≡ is_check_ask (map string_bytes words.now) }
{
    match words {
        [name, settings] => name.as_str() == "check-ask" && is_word(settings.as_bytes()),
        _ => false,
    }
}

/// The name of the settings file, where they are `check-ask SETTINGS`.
pub fn checked_name(words: &[String]) -> &str
    requires { is_check_ask (map string_bytes words.now) ≡ true }
    ensures { result.now ≡ second_of (map string_bytes words.now) }
{
    match words {
        [_, settings] => settings.as_str(),
        _ => unreachable!(),
    }
}

/// Whether a word isn't empty and doesn't begin with `-`.
fn is_word(word: &[u8]) -> bool
    ensures { result ≡ is_word word.now }
{
    match word {
        [] => false,
        [first, ..] => *first != b'-',
    }
}
