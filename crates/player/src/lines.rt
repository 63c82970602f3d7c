ghost use Rattle.std.specs.Prelude.{◌≡◌, ◌+◌, ◌*◌, ◌^◌, ◌<◌, ◌≤◌, true, ◌&&◌, map, length, take, drop};
ghost use Rattle.std.specs.Result.{result_err};
ghost use Rattle.bundle.specs.Format.{byte};
ghost use Rattle.player.specs.Lines.{character, is_level, level_of, all_levels, is_newline, line_bytes, line_count, lines_refusal};

use bundle::{Fault, Refusal, ask_at};
use levels::Bit;

// A character of a line: the level of an input, or the line's end.
#[derive(Clone, Copy)]
pub(crate) enum Character {
    Level(Bit),
    Newline,
    Other,
}

impl Character {
    // Whether it is the level of an input.
    fn is_level(self) -> bool
        ensures { result ≡ is_level self }
    {
        matches!(self, Character::Level(_))
    }

    // Whether it is a line's end.
    fn is_newline(self) -> bool
        ensures { result ≡ is_newline self }
    {
        matches!(self, Character::Newline)
    }

    // The level of an input; 0 for a character that is none.
    fn level(self) -> Bit
        ensures { result ≡ level_of self }
    {
        match self {
            Character::Level(level) => level,
            Character::Newline | Character::Other => Bit::Zero,
        }
    }
}

impl From<u8> for Character {
    ghost from_gives = { λ byte x. x ≡ character byte };

    fn from(byte: u8) -> Character {
        match byte as char {
            '0' => Character::Level(Bit::Zero),
            '1' => Character::Level(Bit::One),
            '\n' => Character::Newline,
            _ => Character::Other,
        }
    }
}

fn are_levels(part: &[u8]) -> bool
    ensures { result ≡ all_levels part.now }
{
    part.iter().all(|byte| Character::from(*byte).is_level())
}

// Whether a line has a character for each input, and then a newline.
fn is_whole(line: &[u8], inputs: usize) -> bool
    ensures { result ≡ (all_levels (take inputs line.now) && is_newline (character (byte line.now inputs))) }
{
    inputs < line.len() && are_levels(&line[..inputs]) && Character::from(line[inputs]).is_newline()
}

// How many lines there are, a last one cut short among them.
pub(crate) fn count_lines(text: &[u8], inputs: usize) -> usize
    requires { inputs ≤ 4096 }
    ensures { result ≡ line_count inputs text.now }
{
    text.len().div_ceil(inputs + 1)
}

// Every line is whole, or the first that is not is refused.
pub(crate) fn check_lines(text: &[u8], inputs: usize) -> Result<(), Refusal>
    requires { inputs ≤ 4096 }
    ensures { result_err result ≡ lines_refusal inputs text.now }
{
    for (number, line) in text.chunks(inputs + 1).enumerate() {
        ask_at(is_whole(line, inputs), Fault::Lines, number)?;
    }
    Ok(())
}

// The levels that a line's characters stand for.
// Why by index: tried as `levels.iter_mut().zip(line)`, of whose writes a proof knows nothing. It knows those of `iter_mut()` alone.
pub(crate) fn read_levels(line: &[u8], levels: &mut [Bit])
    requires { length levels.old ≡ length line.now }
    ensures { levels.new ≡ map (λ b. level_of (character b)) line.now }
{
    for (i, level) in levels.iter_mut().enumerate() {
        *level = Character::from(line[i]).level();
    }
}

// The characters of a line, without its newline.
pub(crate) fn line_of(text: &[u8], inputs: usize, line: usize) -> &[u8]
    requires { (line + 1) * (inputs + 1) ≤ length text.now }
    ensures value { result.now ≡ line_bytes inputs text.now line }
    ensures len { length result.now ≡ inputs }
{
    let first = line * (inputs + 1);
    &text[first..first + inputs]
}
