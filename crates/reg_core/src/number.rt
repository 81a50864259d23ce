//! Numbers in paths: ids, and the versions that a client chooses.

ghost use Rattle.std.specs.Prelude.{◌≡◌, ◌≤◌, IfSome};
ghost use Rattle.reg_core.specs.Numbers.{parse_choice, parse_id, parse_number};
ghost use Rattle.reg_core.specs.Registry.{max_number};

/// The greatest id, and the greatest version number.
pub const MAX_NUMBER: u32 = 2_147_483_647;

/// The version that a client chooses. (Schema Registry API reference, Subjects, `versionId`.)
#[derive(Clone, Copy, Debug, PartialEq, Eq)]
pub enum VersionChoice {
    /// The last of the versions that the command chooses from.
    Latest,
    /// The version with this number.
    Numbered(u32),
}

/// The positive number that a text writes in decimal digits without a leading zero, or `None` if it
/// writes none, or one above the limit.
pub fn parse_number(limit: u32, text: &[u8]) -> Option<u32>
    ensures { result ≡ parse_number limit text.now }
{
    if text.is_empty() || text[0] == b'0' {
        return None;
    }
    let most = u64::from(limit);
    let mut number: u64 = 0;
    for digit in text {
        if !digit.is_ascii_digit() {
            return None;
        }
        number = (number * 10 + u64::from(*digit - b'0')).min(most + 1);
    }
    if number > most {
        return None;
    }
    Some(number as u32)
}

/// The id that a text spells: 1 to 2,147,483,647 without a leading zero; else `None`.
pub fn parse_id(text: &str) -> Option<u32>
    ensures { result ≡ parse_id text.now }
{
    parse_number(MAX_NUMBER, text.as_bytes())
}

/// The version that a text chooses: `latest`, or a number with the same spelling and limit as an
/// id; else `None`.
pub fn parse_choice(text: &str) -> Option<VersionChoice>
    ensures { result ≡ parse_choice text.now }
{
    if text == "latest" {
        return Some(VersionChoice::Latest);
    }
    match parse_number(MAX_NUMBER, text.as_bytes()) {
        Some(number) => Some(VersionChoice::Numbered(number)),
        None => None,
    }
}
