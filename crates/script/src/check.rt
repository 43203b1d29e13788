// The refusals 9 to 11 of a whole script: they "are tried command by command from the script's start".
ghost use Rattle.std.specs.Prelude.{◌≡◌};
ghost use Rattle.model.specs.Script as Script;
ghost use Rattle.script.specs.Meaning.{number_told, place_told, script_number, script_place};

use crate::decode;
use refusals::Refused;

// END's offset, or the first refusal with its place: "the command's offset in the script, the script length if END is missing, or the offset just after
// END".
pub fn check_script(p: u32, largest: u32, s: &[u8]) -> Result<usize, Refused>
    ensures number { number_told result ≡ script_number (Script.script_of p largest s.now) }
    ensures place { place_told result ≡ script_place (Script.script_of p largest s.now) }
{
    let mut at = 0;
    while let Some(line) = decode::decode(p, largest, s, at)? {
        at = line.next;
    }
    Ok(at)
}
