// The session's own rule, as one test: what holds of each session that a start, a step or a setter hands back.
#![tactic(auto)]

mod behind;
mod phase_rules;

ghost use Rattle.std.specs.Prelude.{◌≡◌};
ghost use Rattle.rule.specs.Rule.{settings_rule, phase_rule, polls_rule, rule_of};

use flash::Session;
use phases::Phase;
use settings::Settings;

// The settings are within their limits. That the poll limit is at most 65,535 its type says.
#[tactic(auto, unfolding(crate::specs::Rule::settings_rule, crate::specs::Rule::all))]
pub fn settings_hold(s: Settings) -> bool
    ensures { result ≡ settings_rule s }
{
    1 <= s.address_bytes
        && s.address_bytes <= 4
        && s.page_size <= 32_768
        && s.erase_size <= 2_147_483_648
        && 1 <= s.poll_limit
}

// The phase fits its command.
#[tactic(auto, unfolding(crate::specs::Rule::phase_rule))]
pub fn phase_holds(s: Session, p: Phase) -> bool
    ensures { result ≡ phase_rule s p }
{
    let x = s.settings;
    match p {
        Phase::Reading { command } => {
            phase_rules::read_holds(x, phase_rules::has_types(s), command)
        }
        Phase::Erasing { command, .. } => {
            phase_rules::erase_holds(x, phase_rules::has_types(s), command)
        }
        Phase::Writing { command, .. } => phase_rules::write_holds(x, command),
        Phase::Polling { command, left } => {
            phase_rules::poll_holds(x, phase_rules::has_types(s), command, left)
        }
        Phase::Verifying { command } => phase_rules::verify_holds(x, command),
        Phase::Resetting { command } => phase_rules::reset_holds(s, command),
        Phase::Ended { command, answer } => phase_rules::end_holds(command, answer),
    }
}

// Whether a session meets the rule.
#[tactic(auto, unfolding(crate::specs::Rule::rule_of, crate::specs::Rule::all))]
pub fn holds(s: Session) -> bool
    ensures { result ≡ rule_of s }
{
    settings_hold(s.settings)
        && phase_holds(s, s.phase)
        && behind::polls_hold(s.polls, s.settings.poll_limit, s.phase)
}
