//! The words of the command line, without the program's name.

ghost use Rattle.std.specs.Prelude.{◌≡◌, map, string_bytes};
ghost use Rattle.world_play.specs.Commands.{world_of};

use dots_lists::number_in;

/// The number of `world N`, of 1 to 1,000 without leading zeros.
pub fn world_of(words: &[String]) -> Option<u64>
    ensures { result ≡ world_of (map string_bytes words.now) }
{
    match words {
        [name, number] => {
            if name.as_str() == "world" {
                return number_in(1, 1000, number.as_bytes());
            }
            None
        }
        _ => None,
    }
}
