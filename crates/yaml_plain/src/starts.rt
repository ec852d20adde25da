// Where plain scalars begin.
ghost use Rattle.std.specs.Prelude.{◌≡◌};
ghost use Rattle.yaml_spec.specs.Plain.{start_fault};

use yaml_text::{behind, first, is_flow_indicator, is_gap};
use ytt_base::fault::FaultKind;

/// Why no plain scalar begins here, if so (YAML 1.2.2, 7.3.3, rule 126): an indicator does.
/// `in_flow` says that it stands in brackets.
#[tactic(auto, unfolding(yaml_spec::specs::Plain::start_fault))]
pub fn start_fault(in_flow: bool, text: &str) -> Option<FaultKind>
    ensures { result ≡ start_fault in_flow text.now }
{
    match first(text) {
        b',' | b'[' | b']' | b'{' | b'}' | b'#' | b'|' | b'>' | b'@' | b'%' | b'`' => {
            Some(FaultKind::YamlForm)
        }
        b'&' | b'*' | b'!' => Some(FaultKind::YamlOut),
        b'-' => {
            if is_gap(behind(text, 1)) {
                Some(FaultKind::YamlForm)
            } else {
                None
            }
        }
        b':' => {
            let rest = behind(text, 1);
            if is_gap(rest) || (in_flow && is_flow_indicator(first(rest))) {
                Some(FaultKind::YamlForm)
            } else {
                None
            }
        }
        b'?' => {
            if is_gap(behind(text, 1)) {
                Some(FaultKind::YamlOut)
            } else {
                None
            }
        }
        _ => None,
    }
}
