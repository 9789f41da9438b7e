//! The words of the command line that ask for a gateway, without the program's name.

ghost use Rattle.std.specs.Prelude.{◌≡◌, map, string_bytes, true};
ghost use Rattle.dots_machine.specs.Commands.{is_word, second_of, third_of};
ghost use Rattle.gateway_command.specs.Commands.{is_gateway};

/// Whether they are `gateway SETTINGS HOSTFILE`.
pub fn is_gateway(words: &[String]) -> bool
    ensures { result ≡ is_gateway (map string_bytes words.now) }
{
    match words {
        [name, settings, host] => {
            name.as_str() == "gateway" && (is_word(settings.as_bytes()) && is_word(host.as_bytes()))
        }
        _ => false,
    }
}

/// The names of the settings file and of the host file, where they are `gateway SETTINGS HOSTFILE`.
pub fn gateway_names(words: &[String]) -> (&str, &str)
    requires { is_gateway (map string_bytes words.now) ≡ true }
    ensures settings { result.0.now ≡ second_of (map string_bytes words.now) }
    ensures host { result.1.now ≡ third_of (map string_bytes words.now) }
{
    match words {
        [_, settings, host] => (settings.as_str(), host.as_str()),
        _ => unreachable!(),
    }
}

/// Whether a word isn't empty and doesn't begin with `-`.
fn is_word(word: &[u8]) -> bool
    ensures { result ≡ is_word word.now }
{
    match word {
        [] => false,
        [first, ..] => *first != b'-',
    }
}
