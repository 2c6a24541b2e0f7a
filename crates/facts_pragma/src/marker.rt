// Markers.
ghost use Rattle.std.specs.Prelude.{◌≡◌, None, IfSome, IfNone, Some};
ghost use Rattle.facts_definitions.specs.PragmaTexts.{marker_name, name_among, runs};

use super::bytes::is_name;
use super::runs::next_run;
use parse_tokens::behind_first_word;

fn name_among(text: &[u8]) -> Option<&[u8]>
    ensures some { IfSome result (λ name. name_among (runs text.now) ≡ Some name.now) }
    ensures none { IfNone result (name_among (runs text.now) ≡ None) }
{
    let Some(name) = next_run(text) else {
        return None;
    };
    if next_run(name.rest).is_some() {
        return None;
    }
    if !is_name(name.bytes) {
        return None;
    }
    Some(name.bytes)
}

/// What `marker NAME` says.
pub fn marker_name(text: &[u8]) -> Option<&[u8]>
    ensures some { IfSome result (λ name. marker_name text.now ≡ Some name.now) }
    ensures none { IfNone result (marker_name text.now ≡ None) }
{
    name_among(behind_first_word(text))
}
